// The five references: `&lt;` `&gt;` `&amp;` `&quot;` `&apos;`.
#![tactic(auto, using(crate::proofs::Place::word_laws, crate::proofs::References::reference_laws), unfolding(crate::specs::Place::word_found))]

ghost use Rattle.std.specs.Prelude.{◌≡◌, ◌+◌, length, []};
ghost use Rattle.reader.specs.Form.{ref_of};
ghost use Rattle.reader.specs.Place.{word_found};
ghost use Rattle.reader.specs.Read.{answered};
ghost use Rattle.reader.specs.Scan.{over, scan_word, scan_reference};

use crate::{Event, Found, Refusal};

// The leaf c, where the bytes behind a `&` begin with `word`.
fn leaf(bytes: &[u8], word: &[u8], c: u8) -> Result<Found, Refusal>
    ensures { result ≡ word_found (length word.now + 1) (scan_word c word.now bytes.now) }
{
    if bytes.starts_with(word) {
        Ok(Found {
            event: Event::Character(c),
            taken: word.len() + 1,
        })
    } else if word.starts_with(bytes) {
        Err(Refusal::Cut)
    } else {
        Err(Refusal::Byte)
    }
}

// What stands behind a `&`. Its first byte tells which of the five it can be, and behind an `a` its second: one word is compared.
pub fn reference(bytes: &[u8]) -> Result<Found, Refusal>
    ensures { result ≡ answered [] (over ref_of (scan_reference bytes.now)) }
{
    match bytes.first() {
        None => Err(Refusal::Cut),
        Some(b'l') => leaf(bytes, b"lt;", b'<'),
        Some(b'g') => leaf(bytes, b"gt;", b'>'),
        Some(b'q') => leaf(bytes, b"quot;", b'"'),
        Some(b'a') => match bytes.get(1) {
            None => Err(Refusal::Cut),
            Some(b'm') => leaf(bytes, b"amp;", b'&'),
            Some(_) => leaf(bytes, b"apos;", b'\''),
        },
        Some(_) => Err(Refusal::Byte),
    }
}
