// The lookup of a rule's right side: one word of the index, and the bytes of the table where it says.
//
// Whatever the words hold, nothing is read but the table and the words.
#![tactic(auto, using(crate::proofs::Finding::lookup_laws))]

ghost use Rattle.std.specs.Prelude.{◌≡◌, ◌<◌, length, get_or};
ghost use Rattle.std.proofs.Math.Seq.{slice};
ghost use Rattle.table.specs.Format.{read};
ghost use Rattle.table.specs.Rules.{side_for};
ghost use Rattle.table.specs.Index.{Indexed, known, rule_in, slot_of, side_from, side_to};
ghost use Rattle.table.specs.Found.{match_meant, side_in};

use crate::index::{CHARACTER, EMPTY, RULES, SLOTS};

// What stands at the front of the list that a call reads.
#[derive(Clone, Copy, Debug, PartialEq, Eq, Hash)]
pub enum Matched {
    // a name's number
    Element(u8),
    Character,
    // the list's end
    Empty,
}

fn slot(matched: Matched) -> usize
    ensures { result ≡ slot_of (match_meant matched) }
{
    match matched {
        Matched::Element(name) => usize::from(name),
        Matched::Character => CHARACTER,
        Matched::Empty => EMPTY,
    }
}

// Where the rule's field begins; 0 where there is no rule.
fn rule_place(words: &[u16], state: u8, matched: Matched) -> usize
    ensures { result ≡ rule_in words.now state (slot_of (match_meant matched)) }
{
    let place = RULES + usize::from(state) * SLOTS + slot(matched);
    words.get(place).copied().map_or(0, usize::from)
}

// The table's byte at a place, 0 past the end.
fn byte(table: &[u8], place: usize) -> u8
    ensures { result ≡ get_or table.now place 0 }
{
    table.get(place).copied().unwrap_or(0)
}

// Behind tag and length stand state, pattern, and the name of a pattern 01.
fn side_from(table: &[u8], at: usize) -> usize
    requires { at < 65536 }
    ensures { result ≡ side_from table.now at }
{
    if at == 0 {
        0
    } else if byte(table, at + 4) == 1 {
        at + 6
    } else {
        at + 5
    }
}

fn side_to(table: &[u8], at: usize) -> usize
    requires { at < 65536 }
    ensures { result ≡ side_to table.now at }
{
    if at == 0 {
        0
    } else {
        at + 3 + usize::from(u16::from_be_bytes([byte(table, at + 1), byte(table, at + 2)]))
    }
}

// The table's bytes from one place to another, as far as there are any.
fn part(table: &[u8], from: usize, to: usize) -> &[u8]
    ensures { result.now ≡ slice from to table.now }
{
    let end = to.min(table.len());
    &table[from.min(end)..end]
}

// The right side of the rule for a state and what is matched; empty where there is no rule.
pub fn lookup<'a>(table: &'a [u8], words: &[u16], state: u8, matched: Matched) -> &'a [u8]
    ensures place { result.now ≡ side_in table.now words.now state (match_meant matched) }
    ensures side { Indexed table.now words.now → state < length (read table.now).contents.ranks → known (read table.now).contents (match_meant matched) → result.now ≡ side_for (read table.now).contents.rules state (match_meant matched) }
{
    let at = rule_place(words, state, matched);
    part(table, side_from(table, at), side_to(table, at))
}
