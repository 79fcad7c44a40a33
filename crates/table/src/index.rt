// The index of a table: where its parts stand, so that nothing is searched for while a log is read.
#![tactic(auto, using(crate::proofs::Tags::kind_laws), unfolding(crate::specs::Indexing::noted_rule, crate::specs::Indexing::noted_name, crate::specs::Indexing::noted_state, crate::specs::Indexing::noted))]

ghost use Rattle.std.specs.Prelude.{◌≡◌, ◌<◌, ◌≤◌, ◌+◌, ◌&&◌, ℕ, cond, eqb, leb, ltb, length, slice_index, get_or, MatchResult};
ghost use Rattle.table.specs.Format.{read, rule_of, rule_holds};
ghost use Rattle.table.specs.Checked.{rule_meant};
ghost use Rattle.table.specs.Index.{Indexed, names_in, states_in};
ghost use Rattle.table.specs.Indexing.{slots, refused_as, KnownRule, noted_rule, noted_name, noted_state, noted};

use crate::check::check;
use crate::field::{Field, Kind, first_field};
use crate::refusal::Refused;
use crate::rule::{Rule, rule_in};

// So many words an index has.
pub const INDEX_WORDS: usize = 8514;

// where its parts begin
const NAMES: usize = 0;

const STATES: usize = 1;

const RANKS: usize = 2;

const PLACES: usize = 66;

pub(crate) const RULES: usize = 194;

// the slots of a state: one for each of 128 names, a character's, and the empty list's
pub(crate) const SLOTS: usize = 130;

pub(crate) const CHARACTER: usize = 128;

pub(crate) const EMPTY: usize = 129;

// The slots that a rule is for.
fn slots(rule: &Rule) -> (usize, usize)
    ensures { result ≡ slots (rule_meant rule.now) }
{
    let name = usize::from(rule.name);
    match rule.pattern {
        1 => (name, name + 1),
        2 => (0, CHARACTER),
        3 => (CHARACTER, EMPTY),
        _ => (EMPTY, SLOTS),
    }
}

// Writes the place into each word that has none.
fn fill_free(words: &mut [u16], at: u16)
    ensures { (k : ℕ) → k < length words.old → slice_index words.new k ≡ cond (eqb (slice_index words.old k) 0) at (slice_index words.old k) }
{
    for word in words.iter_mut() {
        if *word == 0 {
            *word = at;
        }
    }
}

fn note_name(words: &mut [u16; INDEX_WORDS], at: u16)
    requires names { names_in words.old < 128 }
    ensures { (k : ℕ) → slice_index words.new k ≡ noted_name words.old at k }
{
    let n = words[NAMES];
    words[PLACES + usize::from(n)] = at;
    words[NAMES] = n + 1;
}

fn note_state(words: &mut [u16; INDEX_WORDS], rank: u8)
    requires states { states_in words.old < 64 }
    ensures { (k : ℕ) → slice_index words.new k ≡ cond (eqb k (2 + states_in words.old)) rank (cond (eqb k 1) (states_in words.old + 1) (slice_index words.old k)) }
{
    let q = words[STATES];
    words[RANKS + usize::from(q)] = u16::from(rank);
    words[STATES] = q + 1;
}

// A rule is for the slots where nothing stands yet: rules increase, so a state's 01 rules all come before its 02 rule.
fn note_rule(words: &mut [u16; INDEX_WORDS], rule: &Rule, at: u16)
    requires state { rule.now.state < 64 }
    requires name { rule.now.name < 128 }
    ensures { (k : ℕ) → slice_index words.new k ≡ noted_rule (rule_meant rule.now) at k (slice_index words.old k) }
{
    let row = RULES + usize::from(rule.state) * SLOTS;
    let (from, to) = slots(rule);
    fill_free(&mut words[row + from..row + to], at);
}

// Notes a field, which begins at a place: a name's place, a state's carried values, or a rule's place.
fn note(words: &mut [u16; INDEX_WORDS], field: &Field, at: u16)
    requires names { field.now.tag ≡ 1 → names_in words.old < 128 }
    requires states { field.now.tag ≡ 2 → states_in words.old < 64 }
    requires rule { field.now.tag ≡ 3 → KnownRule (rule_of field.now.content.now) }
    ensures { (k : ℕ) → slice_index words.new k ≡ noted words.old field.now.tag field.now.content.now at k }
{
    match field.kind() {
        Some(Kind::Name) => note_name(words, at),
        Some(Kind::State) => note_state(words, field.content.first().copied().unwrap_or(0)),
        Some(Kind::Rule) => {
            if let Some(rule) = rule_in(field.content) {
                note_rule(words, &rule, at);
            }
        }
        _ => {}
    }
}

#[tactic(auto, using(crate::proofs::Indexing::index_laws, crate::proofs::Tags::kind_laws))]
// Notes the fields of an accepted table one after the other, where no word has anything yet.
fn note_fields(table: &[u8], words: &mut [u16; INDEX_WORDS])
    requires accepted { (read table.now).number ≡ 0 }
    requires clear { (k : ℕ) → slice_index words.old k ≡ 0 }
    ensures { Indexed table.now words.new }
{
    let mut rest = table;
    while let Some(field) = first_field(rest) {
        if field.is_end() {
            return;
        }
        note(words, &field, (table.len() - rest.len()) as u16);
        rest = field.behind;
    }
}

// The index of a table; or why it is refused, and where, and the words stay.
pub fn index(table: &[u8], words: &mut [u16; INDEX_WORDS]) -> Result<(), Refused>
    ensures { MatchResult result (λ _. Indexed table.now words.new) (λ r. (refused_as r ≡ ((read table.now).number, (read table.now).place)) × (words.new ≡ words.old)) }
{
    check(table)?;
    words.fill(0);
    note_fields(table, words);
    Ok(())
}
