// A word of an area: its kind in the four high bits, its payload below.
//
// In hexadecimal the first digit is the kind: 1 a start tag and 2 an end tag, whose other digits are the name's number; 3 a
// character, and its code; 4 a call, its state, and in the last two digits its level; 50000000 the end of an argument.
#![tactic(auto, using(crate::proofs::Words::kind_laws), unfolding(crate::specs::Words::start_word, crate::specs::Words::end_word, crate::specs::Words::char_word, crate::specs::Words::call_word))]

ghost use Rattle.std.specs.Prelude.{◌≡◌, ◌+◌, ◌*◌, ◌≤◌, ◌<◌};
ghost use Rattle.held.specs.Words.{payloads, start_word, end_word, char_word, call_word, kind_of, payload_of, state_of, level_of};
ghost use Rattle.held.specs.Read.{read_word};

use std::error::Error;
use std::fmt;

pub const PAYLOADS: u32 = 0x1000_0000;
// A call's payload is its state times this, and its level.
pub const LEVELS: u32 = 0x100;

// The kinds, as the four high bits have them. Numbers still, since `kind_of` has one for every word; `try_from` alone tells them apart.
pub const START: usize = 1;

pub const END: usize = 2;

pub const CHARACTER: usize = 3;

pub const CALL: usize = 4;

// The end of an argument: this word alone.
pub const CLOSE_WORD: u32 = 0x5000_0000;

// What a word says.
#[derive(Clone, Copy, Debug, PartialEq, Eq, Hash)]
pub enum Item {
    Start(usize),
    End(usize),
    Character(usize),
    Call { state: usize, level: usize },
    Close,
}

// A word that says nothing.
#[derive(Clone, Copy, Debug, PartialEq, Eq, Hash)]
pub struct NoItem(pub u32);

impl TryFrom<u32> for Item {
    type Error = NoItem;

    ghost try_from_gives = { λ w r. r ≡ read_word w };

    fn try_from(w: u32) -> Result<Self, NoItem> {
        match (kind_of(w), payload_of(w)) {
            (START, name) => Ok(Item::Start(name)),
            (END, name) => Ok(Item::End(name)),
            (CHARACTER, c) => Ok(Item::Character(c)),
            (CALL, _) => Ok(Item::Call {
                state: state_of(w),
                level: level_of(w),
            }),
            _ if w == CLOSE_WORD => Ok(Item::Close),
            _ => Err(NoItem(w)),
        }
    }
}

impl fmt::Display for NoItem {
    fn fmt<W: fmt::Write>(&self, f: &mut fmt::Formatter<W>) -> fmt::Result {
        write!(f, "the word {} says nothing", self.0)
    }
}

impl Error for NoItem {}

// The parts of any word. `as`: there is no `usize::from(u32)`.
pub fn kind_of(w: u32) -> usize
    ensures { result ≡ kind_of w }
{
    (w / PAYLOADS) as usize
}

pub fn payload_of(w: u32) -> usize
    ensures { result ≡ payload_of w }
{
    (w % PAYLOADS) as usize
}

pub fn state_of(w: u32) -> usize
    ensures { result ≡ state_of w }
{
    (w % PAYLOADS / LEVELS) as usize
}

pub fn level_of(w: u32) -> usize
    ensures { result ≡ level_of w }
{
    (w % LEVELS) as usize
}

// The four below are one call of this each: a caller names the kind, and its payload has the kind's own type.
fn word(kind: usize, payload: u32) -> u32
    requires { (kind ≤ 4) × (payload < payloads) }
    ensures { result ≡ kind * payloads + payload }
{
    // `as`: the kinds are `usize`, as `kind_of` has them
    kind as u32 * PAYLOADS + payload
}

pub fn start_word(name: u8) -> u32
    ensures { result ≡ start_word name }
{
    word(START, u32::from(name))
}

pub fn end_word(name: u8) -> u32
    ensures { result ≡ end_word name }
{
    word(END, u32::from(name))
}

pub fn char_word(c: u32) -> u32
    requires { c < payloads }
    ensures { result ≡ char_word c }
{
    word(CHARACTER, c)
}

pub fn call_word(state: u8, level: u8) -> u32
    ensures { result ≡ call_word state level }
{
    word(CALL, u32::from(state) * LEVELS + u32::from(level))
}
