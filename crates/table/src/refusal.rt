// Why a table is refused.
ghost use Rattle.std.specs.Prelude.{◌≡◌};
ghost use Rattle.table.specs.Tally.{refusal_number};

use std::error::Error;
use std::fmt;

// Document 01's refusals of a table, with their numbers.
#[derive(Clone, Copy, Debug, PartialEq, Eq, Hash)]
pub enum Refusal {
    // the bytes are not in the form of a table
    Form = 1,
    // more of something than a table may have
    Limit = 2,
    // a rule says what it may not say
    Rule = 3,
}

impl Refusal {
    pub fn number(self) -> u8
        ensures { result ≡ refusal_number self }
    {
        self as u8
    }
}

impl fmt::Display for Refusal {
    fn fmt<W: fmt::Write>(&self, f: &mut fmt::Formatter<W>) -> fmt::Result {
        f.write_str(match self {
            Refusal::Form => "form: the bytes are not in the form of a table",
            Refusal::Limit => "limit: there is more of something than a table may have",
            Refusal::Rule => "rule: a rule says what it may not say",
        })
    }
}

impl Error for Refusal {}

// A refusal, and its place: the first byte of the field that is refused, or where one is wanted.
#[derive(Clone, Copy, Debug, PartialEq, Eq, Hash)]
pub struct Refused {
    pub why: Refusal,
    pub at: usize,
}
