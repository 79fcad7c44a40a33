// What a table lets its expressions mention, as its index says it, read with no fault whatever the index holds.
ghost use Rattle.std.specs.Prelude.{◌≡◌, ℕ, List, get_or};
ghost use Rattle.table.specs.Index.{names_in, states_in, rank_in};

use std::marker::Model;

const NAMES: usize = 0;

const STATES: usize = 1;

const RANKS: usize = 2;

const MOST_STATES: usize = 64;

// A contract sees the words of the index, and not the vocabulary that they are: a model's value can hold no function.
#[derive(Drop)]
pub struct Vocabulary<'a> {
    index: &'a [u16],
}

impl<'a> Model for Vocabulary<'a> {
    ghost Value = { List ℕ };

    ghost view = { λ v. v.index.now };
}

impl<'a> Vocabulary<'a> {
    pub fn new(index: &'a [u16]) -> Self
        ensures { result ≡ index.now }
    {
        Vocabulary { index }
    }

    // The index's word at a place, 0 past the end.
    fn at(&self, place: usize) -> u16
        ensures { result ≡ get_or self.now place 0 }
    {
        self.index.get(place).copied().unwrap_or(0)
    }

    // One function for each part of the index: a caller names the part, and not its place.
    pub fn names(&self) -> u16
        ensures { result ≡ names_in self.now }
    {
        self.at(NAMES)
    }

    pub fn states(&self) -> u16
        ensures { result ≡ states_in self.now }
    {
        self.at(STATES)
    }

    // The carried values of a state.
    pub fn rank(&self, q: usize) -> u16
        ensures { result ≡ rank_in self.now q }
    {
        if q < MOST_STATES {
            self.at(RANKS + q)
        } else {
            0
        }
    }
}
