// The check of a table, field by field: refusals 1, 3 and 2.
//
// "Table order: total length first, then field by field; within a field 1, 3, 2."
#![tactic(auto, using(crate::proofs::Checking::check_laws, crate::proofs::Naming::rank_laws, crate::proofs::Tags::kind_laws, crate::proofs::Reading::reading_laws), unfolding(crate::specs::Format::name_refusal, crate::specs::Format::state_refusal, crate::specs::Format::end_refusal, crate::specs::Format::rule_refusal, crate::specs::Format::refusal))]

ghost use Rattle.std.specs.Prelude.{◌≡◌, ◌-◌, ◌<◌, ◌≤◌, cond, eqb, length, get_or, IfOk};
ghost use Rattle.std.specs.List.{list_all};
ghost use Rattle.alphabet.specs.Classes.{name_part};
ghost use Rattle.table.specs.Format.{is_name, name_refusal, state_refusal, rule_known, rule_refusal, end_refusal, refusal, read};
ghost use Rattle.table.specs.Checked.{rule_meant, names_read, ranks_read, names_with, base_with, states_with, next_with, answer, Has};
ghost use Rattle.table.specs.Side.{side_number};
ghost use Rattle.table.specs.Tally.{number};

use crate::field::{Field, Kind, first_field};
use crate::names::Names;
use crate::parts::Parts;
use crate::refusal::{Refusal, Refused};
use crate::rule::{Rule, rule_in};
use crate::side::Scope;
use crate::states::States;
use alphabet::{is_name_part, is_name_start};

const LONGEST_TABLE: usize = 32768;

const MOST_NAMES: usize = 128;

const MOST_STATES: usize = 64;

const MOST_VALUES: u8 = 4;

const MOST_PATTERN: u8 = 3;

const LONGEST_NAME: usize = 32;

fn are_parts(bytes: &[u8]) -> bool
    ensures { result ≡ list_all name_part bytes.now }
{
    bytes.iter().all(|b| is_name_part(*b))
}

fn is_name(bytes: &[u8]) -> bool
    ensures { result ≡ is_name bytes.now }
{
    match bytes {
        [first, rest @ ..] => is_name_start(*first) && are_parts(rest) && rest.len() < LONGEST_NAME,
        [] => false,
    }
}

// "a name; numbered from 0; no name twice", before any state; 129th name
fn name_refusal(names: &Names, states: &States, content: &[u8]) -> Result<(), Refusal>
    ensures { number result ≡ name_refusal names.now states.now content.now }
{
    if states.len() > 0 || !is_name(content) || names.find_name(content).is_some() {
        return Err(Refusal::Form);
    }
    if names.len() < MOST_NAMES {
        Ok(())
    } else {
        Err(Refusal::Limit)
    }
}

// "one byte: carried values of a state, 0 to 4", before any rule; 65th state
fn state_refusal(states: &States, next: usize, content: &[u8]) -> Result<(), Refusal>
    ensures { number result ≡ state_refusal states.now next content.now }
{
    let [rank] = content else {
        return Err(Refusal::Form);
    };
    if next > 0 || *rank > MOST_VALUES {
        return Err(Refusal::Form);
    }
    if states.len() < MOST_STATES {
        Ok(())
    } else {
        Err(Refusal::Limit)
    }
}

// Whether a rule says what it may: a known state, pattern and name, and a place behind the rules before it.
fn rule_known(names: usize, states: usize, next: usize, rule: &Rule) -> bool
    ensures { result ≡ rule_known names states next (rule_meant rule.now) }
{
    usize::from(rule.state) < states
        && rule.pattern <= MOST_PATTERN
        && (rule.pattern != 1 || usize::from(rule.name) < names)
        && next <= rule.key()
}

// What a known rule's right side says.
fn side_refusal(names: usize, states: States, rule: &Rule) -> Result<(), Refusal>
    requires { length rule.now.side.now ≤ 32768 }
    ensures { number result ≡ side_number names states.entry rule.now.pattern (get_or states.entry rule.now.state 0) rule.now.side.now }
{
    let values = usize::from(states.rank(rule.state).unwrap_or(0));
    let scope = Scope {
        names,
        states,
        pattern: usize::from(rule.pattern),
        values,
    };
    scope.side(rule.side)
}

// "unknown .. state, name, .. or pattern"; "rules not increasing"; and what the right side says, after some state
fn rule_refusal(names: usize, states: States, next: usize, content: &[u8]) -> Result<(), Refusal>
    requires { length content.now ≤ 32768 }
    ensures { number result ≡ rule_refusal names states.entry next content.now }
{
    if states.len() == 0 {
        return Err(Refusal::Form);
    }
    let rule = rule_in(content).ok_or(Refusal::Form)?;
    if !rule_known(names, states.len(), next, &rule) {
        return Err(Refusal::Rule);
    }
    side_refusal(names, states, &rule)
}

// "length 0; nothing follows", after some state
fn end_refusal(states: &States, content: &[u8]) -> Result<(), Refusal>
    ensures { number result ≡ end_refusal states.now content.now }
{
    if states.len() > 0 && content.is_empty() {
        Ok(())
    } else {
        Err(Refusal::Form)
    }
}

impl<'a> Parts<'a> {
    // Why a further field is refused.
    fn refusal(&self, field: &Field) -> Result<(), Refusal>
        requires names { self.now.names ≤ 128 }
        requires base { self.now.base ≤ length self.now.table.now }
        requires content { length field.now.content.now ≤ 32768 }
        ensures { number result ≡ refusal (names_read self.now) (ranks_read self.now) self.now.next field.now.tag field.now.content.now }
    {
        let names = Names::new(self.table, self.names);
        let states = States::new(&self.table[self.base..], self.states);
        match field.kind() {
            Some(Kind::Name) => name_refusal(&names, &states, field.content),
            Some(Kind::State) => state_refusal(&states, self.next, field.content),
            Some(Kind::Rule) => rule_refusal(names.len(), states, self.next, field.content),
            Some(Kind::End) => end_refusal(&states, field.content),
            None => Err(Refusal::Form),
        }
    }

    // With a field more, which begins at a place of the table.
    fn with(&self, field: &Field, at: usize) -> Self
        requires names { field.now.tag ≡ 1 → self.now.names < 128 }
        requires states { field.now.tag ≡ 2 → self.now.states < 64 }
        ensures table { result.table.now ≡ self.now.table.now }
        ensures names { result.names ≡ names_with field.now.tag self.now.names }
        ensures base { result.base ≡ base_with field.now.tag at self.now.states self.now.base }
        ensures states { result.states ≡ states_with field.now.tag self.now.states }
        ensures next { result.next ≡ next_with field.now.tag field.now.content.now self.now.next }
    {
        match field.kind() {
            Some(Kind::Name) => Parts {
                names: self.names + 1,
                ..*self
            },
            Some(Kind::State) => Parts {
                base: if self.states == 0 { at } else { self.base },
                states: self.states + 1,
                ..*self
            },
            Some(Kind::Rule) => Parts {
                next: rule_in(field.content).map_or(self.next, |rule| rule.key() + 1),
                ..*self
            },
            _ => *self,
        }
    }
}

// What an accepted table has; or why it is refused, and where.
pub fn check(table: &[u8]) -> Result<Parts<'_>, Refused>
    ensures answer { answer (length table.now) result ≡ ((read table.now).number, (read table.now).place) }
    ensures parts { IfOk result (Has table.now) }
{
    if table.len() > LONGEST_TABLE {
        return Err(Refused {
            why: Refusal::Limit,
            at: 0,
        });
    }
    let mut parts = Parts {
        table,
        names: 0,
        base: 0,
        states: 0,
        next: 0,
    };
    let mut rest = table;
    while !rest.is_empty() {
        let at = table.len() - rest.len();
        let Some(field) = first_field(rest) else {
            return Err(Refused {
                why: Refusal::Form,
                at,
            });
        };
        if let Err(why) = parts.refusal(&field) {
            return Err(Refused { why, at });
        }
        if field.is_end() {
            return ended(parts, field.behind);
        }
        parts = parts.with(&field, at);
        rest = field.behind;
    }
    Err(Refused {
        why: Refusal::Form,
        at: table.len(),
    })
}

// Behind the end field nothing may follow.
fn ended<'a>(parts: Parts<'a>, behind: &[u8]) -> Result<Parts<'a>, Refused>
    requires { length behind.now ≤ length parts.table.now }
    ensures answer { answer (length parts.entry.table.now) result ≡ (cond (eqb (length behind.now) 0) 0 1, length parts.entry.table.now - length behind.now) }
    ensures same { IfOk result (λ p. p ≡ parts.entry) }
{
    if behind.is_empty() {
        Ok(parts)
    } else {
        Err(Refused {
            why: Refusal::Form,
            at: parts.table.len() - behind.len(),
        })
    }
}
