// The elements that are open: which end tag may come, and how deep.
#![tactic(auto, using(crate::proofs::Nesting::nest_laws))]

ghost use Rattle.std.specs.Prelude.{◌≡◌, length, []};
ghost use Rattle.meaning.specs.Event.{start, end, finish};
ghost use Rattle.reader.specs.Nest.{nested, meant_event, ended};

use crate::{Event, Refusal};
use std::marker::Model;

// "Open elements 64"
const MOST: usize = 64;

// What is open, in the record's form: the outermost name first, 0 in the places not in use. A contract sees the list of the
// open names, the innermost first.
#[derive(Clone, Copy, Debug, PartialEq, Eq)]
pub struct Open {
    names: [u8; MOST],
    depth: u8,
}

impl Model for Open {
    ghost use Rattle.std.specs.Prelude.{List, ℕ, length};
    ghost use Rattle.std.proofs.Common.{ap₂};
    ghost use Rattle.reader.specs.Canonical.{Canonical, open_names, places_of, depth-back, names-back};

    ghost Value = { List ℕ };

    ghost view = { λ o. open_names o.names o.depth };

    ghost invariant = { λ o. Canonical o.names o.depth };

    ghost inverse = { λ l. record { names = places_of l; depth = length l } };

    ghost inverse_ok = { λ o c. ap₂ (λ n d. record { names = n; depth = d }) (names-back o.names o.depth c) (depth-back o.names o.depth c) };
}

impl Open {
    // Nothing is open.
    pub fn new() -> Self
        ensures { result ≡ [] }
    {
        Open {
            names: [0; MOST],
            depth: 0,
        }
    }

    // How many elements are open.
    pub fn depth(&self) -> u8
        ensures { result ≡ length self.now }
    {
        self.depth
    }

    #[tactic(auto, using(crate::proofs::Nesting::start_laws))]
    fn started(self, name: u8) -> Result<Open, Refusal>
        ensures { result ≡ nested self (start name) }
    {
        let place = usize::from(self.depth);
        if place == MOST {
            return Err(Refusal::Depth);
        }
        let mut names = self.names;
        names[place] = name;
        Ok(Open {
            names,
            depth: self.depth + 1,
        })
    }

    #[tactic(auto, using(crate::proofs::Nesting::end_laws))]
    fn ended(self, name: u8) -> Result<Open, Refusal>
        ensures { result ≡ nested self (end name) }
    {
        let depth = self.depth.checked_sub(1).ok_or(Refusal::Nest)?;
        let place = usize::from(depth);
        if self.names[place] != name {
            return Err(Refusal::Nest);
        }
        let mut names = self.names;
        names[place] = 0;
        Ok(Open { names, depth })
    }

    // What is open after an event. A character never changes it.
    pub fn after(self, event: Event) -> Result<Open, Refusal>
        ensures { result ≡ nested self (meant_event event) }
    {
        match event {
            Event::Start(name) => self.started(name),
            Event::End(name) => self.ended(name),
            Event::Character(_) => Ok(self),
        }
    }

    // Finish wants nothing open.
    pub fn finish(&self) -> Result<(), Refusal>
        ensures { result ≡ ended (nested self.now finish) }
    {
        if self.depth == 0 {
            Ok(())
        } else {
            Err(Refusal::Cut)
        }
    }
}
