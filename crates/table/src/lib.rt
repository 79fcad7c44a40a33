// The rule table: checked byte for byte, then read in place.
//
// `check` gives the number and the place of document 01's refusals 1, 2 and 3, or what an accepted table has; `index` where the
// parts of an accepted table stand; and `lookup`, by an index, the right side for a state and what is matched.
#![tactic(auto)]

pub mod check;
mod field;
pub mod index;
mod item;
pub mod lookup;
pub mod names;
pub mod parts;
pub mod refusal;
mod rule;
mod side;
pub mod states;
