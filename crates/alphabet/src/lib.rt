// The bytes of logs, tables and sheets: which may begin a name, continue one, stand as text, and be a leaf.
// Document 01, "The log": "A table of 128 classes, one for each byte below 128".
#![tactic(auto, using(crate::proofs::Classes::class_laws))]

ghost use Rattle.std.specs.Prelude.{◌≡◌};
ghost use Rattle.alphabet.specs.Classes.{class_of, name_start, name_part, is_text, is_leaf};

use Class::{Front, Inside, Markup, Never, Text};

// What a byte may be: all that the classes before its own may be, and one thing more.
#[derive(Clone, Copy, PartialEq, PartialOrd)]
enum Class {
    // nothing
    Never,
    // a leaf, written as a reference
    Markup,
    // a leaf that stands as text
    Text,
    // a name's further byte
    Inside,
    // a name's first byte
    Front,
}

const CLASSES: [Class; 128] = [
    Never, Never, Never, Never, Never, Never, Never, Never, Never, Text, // 9: tab
    Text, // 10: line feed
    Never, Never, Text, // 13: carriage return
    Never, Never, Never, Never, Never, Never, Never, Never, Never, Never, Never, Never, Never,
    Never, Never, Never, Never, Never, Text, // 32: space
    Text, Text, Text, Text, Text, Markup, // 38: &
    Text, Text, Text, Text, Text, Text, Inside, // 45: -
    Inside, // 46: .
    Text, Inside, // 48: 0
    Inside, Inside, Inside, Inside, Inside, Inside, Inside, Inside, Inside, Text, Text, Markup, // 60: <
    Text, Markup, // 62: >
    Text, Text, Front, // 65: A
    Front, Front, Front, Front, Front, Front, Front, Front, Front, Front, Front, Front, Front,
    Front, Front, Front, Front, Front, Front, Front, Front, Front, Front, Front, Front, Text, // 91: [
    Text, Text, Text, Front, // 95: _
    Text, Front, // 97: a
    Front, Front, Front, Front, Front, Front, Front, Front, Front, Front, Front, Front, Front,
    Front, Front, Front, Front, Front, Front, Front, Front, Front, Front, Front, Front, Text, // 123: {
    Text, Text, Text, Never, // 127
];

fn class_of(b: u8) -> Class
    ensures { result ≡ class_of b }
{
    match CLASSES.get(usize::from(b)) {
        Some(class) => *class,
        None => Never,
    }
}

pub fn is_name_start(b: u8) -> bool
    ensures { result ≡ name_start b }
{
    class_of(b) >= Front
}

pub fn is_name_part(b: u8) -> bool
    ensures { result ≡ name_part b }
{
    class_of(b) >= Inside
}

pub fn is_text(b: u8) -> bool
    ensures { result ≡ is_text b }
{
    class_of(b) >= Text
}

pub fn is_leaf(b: u8) -> bool
    ensures { result ≡ is_leaf b }
{
    class_of(b) >= Markup
}
