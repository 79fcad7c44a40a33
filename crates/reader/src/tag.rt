// Tags: the name is compared where it stands in the bytes.
#![tactic(auto, using(crate::proofs::Tags::tag_laws))]

ghost use Rattle.std.specs.Prelude.{◌≡◌};
ghost use Rattle.reader.specs.Place.{named_at};
ghost use Rattle.reader.specs.Scan.{scan_name, scan_tag};
ghost use Rattle.reader.specs.Read.{answered};

use crate::name::name_end;
use crate::{Event, Found, Refusal};
use table::names::Names;

// The number of the name that the bytes begin with, and how many bytes it has, its `>` too. In line, since the
// answer would else go through memory.
#[inline(always)]
fn named(names: &Names, bytes: &[u8]) -> Result<(u8, usize), Refusal>
    ensures { result ≡ named_at names.now (scan_name bytes.now) }
{
    let long = name_end(bytes)?;
    let name = names.find_name(&bytes[..long]).ok_or(Refusal::Name)?;
    Ok((name, long + 1))
}

// What stands behind a `<`. The two kinds of tag differ in the event and in what stands before the name.
pub fn tag(names: &Names, bytes: &[u8]) -> Result<Found, Refusal>
    ensures { result ≡ answered names.now (scan_tag bytes.now) }
{
    match bytes {
        [] => Err(Refusal::Cut),
        [b'/', rest @ ..] => {
            let (name, long) = named(names, rest)?;
            Ok(Found {
                event: Event::End(name),
                taken: long + 2,
            })
        }
        _ => {
            let (name, long) = named(names, bytes)?;
            Ok(Found {
                event: Event::Start(name),
                taken: long + 1,
            })
        }
    }
}
