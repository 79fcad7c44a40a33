// The bytes of a right side, item by item: refusals 3 and 2.
//
// Every 3 beats every 2, so the whole right side is read before 2 is told; a carried value has no size, so a right side may have
// thousands of items.
#![tactic(auto, using(crate::proofs::Naming::rank_laws, crate::proofs::Sides::side_laws))]

ghost use Rattle.std.specs.Prelude.{◌≡◌, ◌+◌, ◌≤◌, length, get_or, IfSome};
ghost use Rattle.table.specs.Side.{has_element, has_source, allowed, words, side_number};
ghost use Rattle.table.specs.Items.{source_meant, meant};
ghost use Rattle.table.specs.Tally.{ends, tallied, number, verdict};

use crate::item::{Item, Source, first_item};
use crate::refusal::Refusal;
use crate::states::States;
use alphabet::is_leaf;

const MOST_OWED: usize = 8;

const MOST_WORDS: usize = 64;

// What the items of a rule may mention: names, states, what the rule's pattern matches, and the carried values of its state.
#[derive(Drop)]
pub struct Scope<'a> {
    pub names: usize,
    pub states: States<'a>,
    // a number: `side` answers for every one, also for those that are no pattern's
    pub pattern: usize,
    pub values: usize,
}

// What the items of a right side come to so far: the ends owed, the words, and whether too many ends were owed at some point.
#[derive(Clone, Copy)]
struct Tally {
    owed: usize,
    words: usize,
    over: bool,
}

// The matched element is there under patterns 01 and 02 only.
fn has_element(pattern: usize) -> bool
    ensures { result ≡ has_element pattern }
{
    matches!(pattern, 1 | 2)
}

// A character has no children, the empty list neither.
fn has_source(pattern: usize, source: Source) -> bool
    ensures { result ≡ has_source pattern (source_meant source) }
{
    match source {
        Source::Children => has_element(pattern),
        Source::Siblings => has_element(pattern) || pattern == 3,
    }
}

impl<'a> Scope<'a> {
    // Whether an item may stand in the right side.
    fn allows(&self, item: Item) -> bool
        ensures { result ≡ allowed self.now.names self.now.states self.now.pattern self.now.values (meant item) }
    {
        match item {
            Item::Element(name) => usize::from(name) < self.names,
            Item::Matched => has_element(self.pattern),
            Item::Letter(byte) => is_leaf(byte),
            Item::MatchedLetter => self.pattern == 3,
            Item::Value(value) => usize::from(value) < self.values,
            Item::Call(source, state) => {
                has_source(self.pattern, source) && self.states.rank(state).is_some()
            }
            Item::End => true,
        }
    }

    fn rank(&self, state: u8) -> u8
        ensures { result ≡ get_or self.now.states state 0 }
    {
        self.states.rank(state).unwrap_or(0)
    }

    // The ends owed after an item; nothing where it is an end that is not owed.
    fn ends(&self, item: Item, owed: usize) -> Option<usize>
        requires { owed ≤ 4294967296 }
        ensures ends { result ≡ ends self.now.states (meant item) owed }
        ensures few { IfSome result (λ d. d ≤ owed + 255) }
    {
        match item {
            Item::Element(_) | Item::Matched => Some(owed + 1),
            Item::Letter(_) | Item::MatchedLetter | Item::Value(_) => Some(owed),
            Item::Call(_, state) => Some(usize::from(self.rank(state)) + owed),
            Item::End => owed.checked_sub(1),
        }
    }

    // The size of an item.
    fn words(&self, item: Item) -> u16
        ensures { result ≡ words self.now.states (meant item) }
    {
        match item {
            Item::Element(_) | Item::Matched => 2,
            Item::Letter(_) | Item::MatchedLetter => 1,
            Item::Call(_, state) => 1 + u16::from(self.rank(state)),
            Item::Value(_) | Item::End => 0,
        }
    }

    // The tally with one item more; nothing where the item may not stand there.
    fn tallied(&self, tally: Tally, item: Item) -> Option<Tally>
        requires owed { tally.owed ≤ 4294967296 }
        requires words { tally.words ≤ 4294967296 }
        ensures tallied { result ≡ tallied self.now.names self.now.states self.now.pattern self.now.values tally (meant item) }
        ensures few { IfSome result (λ t. t.owed ≤ tally.owed + 255) }
        ensures small { IfSome result (λ t. t.words ≤ tally.words + 65535) }
    {
        if !self.allows(item) {
            return None;
        }
        let owed = self.ends(item, tally.owed)?;
        Some(Tally {
            owed,
            words: tally.words + usize::from(self.words(item)),
            over: tally.over || owed > MOST_OWED,
        })
    }

    // Whether the bytes are a right side.
    pub fn side(&self, bytes: &[u8]) -> Result<(), Refusal>
        requires { length bytes.now ≤ 32768 }
        ensures { number result ≡ side_number self.now.names self.now.states self.now.pattern self.now.values bytes.now }
    {
        let mut rest = bytes;
        let mut tally = Tally {
            owed: 0,
            words: 0,
            over: false,
        };
        while !rest.is_empty() {
            let (item, behind) = first_item(rest).ok_or(Refusal::Rule)?;
            tally = self.tallied(tally, item).ok_or(Refusal::Rule)?;
            rest = behind;
        }
        verdict(tally)
    }
}

// What the end of a right side comes to.
fn verdict(tally: Tally) -> Result<(), Refusal>
    ensures { number result ≡ verdict tally.owed tally.words tally.over }
{
    if tally.owed != 0 {
        return Err(Refusal::Rule);
    }
    if tally.over || tally.words > MOST_WORDS {
        return Err(Refusal::Limit);
    }
    Ok(())
}
