// Where the arguments of a call stand.
#![tactic(auto, using(crate::proofs::Skip::skip_laws))]

ghost use Rattle.std.specs.Prelude.{◌≡◌, ◌≤◌, length};
ghost use Rattle.table.specs.Index.{vocab};
ghost use Rattle.held.specs.Skip.{args_len, Stands};

use crate::vocabulary::Vocabulary;
use std::ops::Range;

// From `from` up to `to`, that place not included: a `Range` that can be copied.
#[derive(Clone, Copy, Debug, PartialEq, Eq, Hash)]
pub struct Span {
    pub from: usize,
    pub to: usize,
}

impl From<Span> for Range<usize> {
    ghost from_gives = { λ s r. (r.start ≡ s.from) × (r.end ≡ s.to) };

    fn from(span: Span) -> Self {
        span.from..span.to
    }
}

impl<'a> Vocabulary<'a> {
    // How many of the words n arguments take, or all.
    pub fn skip_args(&self, words: &[u32], n: usize) -> usize
        ensures same { result ≡ args_len (vocab self.now) words.now n }
        ensures within { result ≤ length words.now }
    {
        let mut owed = n;
        for (at, &w) in words.iter().enumerate() {
            if owed == 0 {
                return at;
            }
            owed = self.owed_after(w, owed);
        }
        words.len()
    }

    // Where the argument j stands, its end not included.
    pub fn argument_at(&self, words: &[u32], j: usize) -> Span
        ensures { Stands (vocab self.now) words.now 0 (length words.now) j result.from result.to }
    {
        let from = self.skip_args(words, j);
        let len = self.skip_args(&words[from..], 1);
        Span {
            from,
            to: from + len.saturating_sub(1),
        }
    }
}
