// Whether words are a held expression of a table: the words' part of refusal 13.
#![tactic(auto, using(crate::proofs::Read::item_said, crate::proofs::Scan::scan_laws), unfolding(crate::specs::Scan::fits, crate::specs::Scan::owe))]

ghost use Rattle.std.specs.Prelude.{◌≡◌, ◌+◌, ◌≤◌, min};
ghost use Rattle.table.specs.Index.{vocab};
ghost use Rattle.held.specs.Words.{item_of};
ghost use Rattle.held.specs.Scan.{call_fits, fits, owe, scan, begins, is_held};

use crate::vocabulary::Vocabulary;
use crate::word::Item;

// No words, or a call's first.
fn begins_held(words: &[u32]) -> bool
    ensures { result ≡ begins words.now }
{
    match words {
        [] => true,
        [w, ..] => matches!(Item::try_from(*w), Ok(Item::Call { .. })),
    }
}

impl<'a> Vocabulary<'a> {
    // What is owed after a word, at most `usize::MAX`, which is more than any slice has words to pay back.
    pub fn owed_after(&self, w: u32, owed: usize) -> usize
        ensures same { result ≡ min (owe (vocab self.now) (item_of w) owed) usize.MAX }
        ensures few { result ≤ owed + 65535 }
    {
        match Item::try_from(w) {
            Ok(Item::Call { state, .. }) => owed.saturating_add(usize::from(self.rank(state))),
            Ok(Item::Close) => owed.saturating_sub(1),
            _ => owed,
        }
    }

    // A call of a state at a level: both known.
    fn call_fits(&self, opened: usize, state: usize, level: usize) -> bool
        ensures { result ≡ call_fits (vocab self.now) opened state level }
    {
        state < usize::from(self.states()) && 0 < level && level - 1 <= opened
    }

    fn word_fits(&self, opened: usize, w: u32, owed: usize) -> bool
        ensures { result ≡ fits (vocab self.now) opened (item_of w) owed }
    {
        match Item::try_from(w) {
            Ok(Item::Start(name) | Item::End(name)) => name < usize::from(self.names()),
            Ok(Item::Character(c)) => u8::try_from(c).is_ok_and(alphabet::is_leaf),
            Ok(Item::Call { state, level }) => self.call_fits(opened, state, level),
            Ok(Item::Close) => 0 < owed,
            Err(_) => false,
        }
    }

    // The words fit one after the other, and at their end nothing is owed.
    fn is_scanned(&self, words: &[u32], opened: usize) -> bool
        ensures { result ≡ scan (vocab self.now) opened words.now 0 }
    {
        let mut owed = 0;
        for &w in words {
            if !self.word_fits(opened, w, owed) {
                return false;
            }
            owed = self.owed_after(w, owed);
        }
        owed == 0
    }

    // Whether the words are a held expression of the table with so many elements open.
    pub fn is_held(&self, words: &[u32], opened: usize) -> bool
        ensures { result ≡ is_held (vocab self.now) opened words.now }
    {
        begins_held(words) && self.is_scanned(words, opened)
    }
}
