// Held expressions as words of an area: their one encoding, the check that words are one, and where arguments stand.
//
// docs/ENCODING.md says how to read an area by hand.
#![tactic(auto)]

pub mod areas;
pub mod arguments;
pub mod check;
pub mod vocabulary;
pub mod word;
