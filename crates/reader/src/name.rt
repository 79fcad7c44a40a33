// Names, up to the `>` behind them.
#![tactic(auto, using(crate::proofs::Place::name_laws))]

ghost use Rattle.std.specs.Prelude.{◌≡◌, ◌≤◌, ◌-◌, length, take};
ghost use Rattle.std.specs.List.{prefix_len};
ghost use Rattle.alphabet.specs.Classes.{name_part};
ghost use Rattle.reader.specs.declared.name.TheConstants.{LONGEST};
ghost use Rattle.reader.specs.Place.{end_at};
ghost use Rattle.reader.specs.Scan.{scan_name};

use crate::Refusal;

// "A name has 1 to 32 bytes"
const LONGEST: usize = 32;

// How many bytes a name may have behind its first.
fn parts(bytes: &[u8]) -> usize
    ensures same { result ≡ prefix_len name_part (take (LONGEST - 1) bytes.now) }
    ensures within { result ≤ length bytes.now }
{
    bytes
        .iter()
        .take(LONGEST - 1)
        .take_while(|b| alphabet::is_name_part(**b))
        .count()
}

// How long the name is that the bytes begin with, its `>` behind it.
pub fn name_end(bytes: &[u8]) -> Result<usize, Refusal>
    ensures { result ≡ end_at (scan_name bytes.now) }
{
    let [first, rest @ ..] = bytes else {
        return Err(Refusal::Cut);
    };
    if !alphabet::is_name_start(*first) {
        return Err(Refusal::Byte);
    }
    let long = 1 + parts(rest);
    match bytes.get(long) {
        None => Err(Refusal::Cut),
        Some(b'>') => Ok(long),
        Some(_) => Err(Refusal::Byte),
    }
}
