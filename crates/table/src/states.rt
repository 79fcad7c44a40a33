// States, and how many carried values each has.
#![tactic(auto, using(crate::proofs::Naming::rank_laws))]

ghost use Rattle.std.specs.Prelude.{◌≡◌, ℕ, List, length, slice_get};
ghost use Rattle.table.specs.Names.{ranks_at};

use std::marker::Model;

// The first states of a table, whose fields the bytes begin with: a contract sees the list of their carried values.
#[derive(Drop)]
pub struct States<'a> {
    fields: &'a [u8],
    count: usize,
}

impl<'a> Model for States<'a> {
    ghost Value = { List ℕ };

    ghost view = { λ s. ranks_at s.fields.now 0 s.count };
}

impl<'a> States<'a> {
    pub fn new(fields: &'a [u8], count: usize) -> Self
        ensures { result ≡ ranks_at fields.now 0 count }
    {
        States { fields, count }
    }

    pub fn len(&self) -> usize
        ensures { result ≡ length self.now }
    {
        self.count
    }

    // How many carried values a state has; nothing of one that is none of these.
    pub fn rank(&self, state: u8) -> Option<u8>
        ensures { result ≡ slice_get self.now state }
    {
        let q = usize::from(state);
        if q < self.count {
            Some(self.fields.get(4 * q + 3).copied().unwrap_or(0))
        } else {
            None
        }
    }
}
