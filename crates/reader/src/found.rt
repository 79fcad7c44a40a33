// The reader's answer: an event and how many bytes it took, or why there is none.
ghost use Rattle.std.specs.Prelude.{◌≡◌};
ghost use Rattle.reader.specs.Read.{refusal_number};

use std::error::Error;
use std::fmt;

// An event with the number of its name, or its character.
#[derive(Clone, Copy, Debug, PartialEq, Eq, Hash)]
pub enum Event {
    Start(u8),
    End(u8),
    Character(u8),
}

// An event, and how many bytes it took.
#[derive(Clone, Copy, Debug, PartialEq, Eq, Hash)]
pub struct Found {
    pub event: Event,
    pub taken: usize,
}

// Document 01's refusals of a reader, with their numbers.
#[derive(Clone, Copy, Debug, PartialEq, Eq, Hash)]
pub enum Refusal {
    Byte = 4,
    Name = 5,
    Nest = 6,
    Depth = 7,
    Cut = 11,
}

impl Refusal {
    pub fn number(self) -> u8
        ensures { result ≡ refusal_number self }
    {
        self as u8
    }
}

impl fmt::Display for Refusal {
    fn fmt<W: fmt::Write>(&self, f: &mut fmt::Formatter<W>) -> fmt::Result {
        f.write_str(match self {
            Refusal::Byte => "byte: the bytes begin no event",
            Refusal::Name => "name: the tag's name is not in the table",
            Refusal::Nest => "nest: the end tag does not end the element that is open",
            Refusal::Depth => "depth: 64 elements are open",
            Refusal::Cut => "cut: the bytes end inside an event, or an element is open",
        })
    }
}

impl Error for Refusal {}
