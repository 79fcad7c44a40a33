// The first event in offered bytes, with the table's names, and how many bytes it took; or a refusal: byte, name or cut.
// Document 01, "The log": "An event is offered as bytes: the first event in them is taken and the answer says how many bytes it
// took." Nothing behind that event is looked at. `Open` says which events may come, one after the other: nest, depth or cut.
#![tactic(auto, using(crate::proofs::Read::event_laws))]

mod found;
mod name;
mod nest;
mod reference;
mod tag;

ghost use Rattle.std.specs.Prelude.{◌≡◌};
ghost use Rattle.reader.specs.Read.{read_event};

pub use found::{Event, Found, Refusal};
pub use nest::Open;
use table::names::Names;

// The first event in `bytes`, with the table's names.
pub fn read_event(names: &Names, bytes: &[u8]) -> Result<Found, Refusal>
    ensures { result ≡ read_event names.now bytes.now }
{
    match bytes {
        [] => Err(Refusal::Cut),
        [b, ..] if alphabet::is_text(*b) => Ok(Found {
            event: Event::Character(*b),
            taken: 1,
        }),
        [b'<', rest @ ..] => tag::tag(names, rest),
        [b'&', rest @ ..] => reference::reference(rest),
        _ => Err(Refusal::Byte),
    }
}
