// The items of a right side, each told by its first byte.
ghost use Rattle.std.specs.Prelude.{◌≡◌, None, Some, MatchOption};
ghost use Rattle.table.specs.Items.{meant, front};

// What a call reads.
#[derive(Clone, Copy, Debug, PartialEq, Eq, Hash)]
pub enum Source {
    Children,
    Siblings,
}

#[derive(Clone, Copy, Debug, PartialEq, Eq, Hash)]
pub enum Item {
    // a name's number
    Element(u8),
    Matched,
    Letter(u8),
    MatchedLetter,
    // a carried value's number
    Value(u8),
    // a state's number
    Call(Source, u8),
    // of an element's content or of an argument
    End,
}

// The item that the bytes begin with, and the bytes behind it.
#[tactic(auto, unfolding(crate::specs::Items::front))]
pub fn first_item(bytes: &[u8]) -> Option<(Item, &[u8])>
    ensures { MatchOption result (front bytes.now ≡ None) (λ r. front bytes.now ≡ Some (meant r.0, r.1.now)) }
{
    let [first, rest @ ..] = bytes else {
        return None;
    };
    match (*first, rest) {
        (0x10, [name, rest @ ..]) => Some((Item::Element(*name), rest)),
        (0x11, rest) => Some((Item::Matched, rest)),
        (0x12, [byte, rest @ ..]) => Some((Item::Letter(*byte), rest)),
        (0x13, rest) => Some((Item::MatchedLetter, rest)),
        (0x14, [value, rest @ ..]) => Some((Item::Value(*value), rest)),
        (0x15, [1, state, rest @ ..]) => Some((Item::Call(Source::Children, *state), rest)),
        (0x15, [2, state, rest @ ..]) => Some((Item::Call(Source::Siblings, *state), rest)),
        (0x1F, rest) => Some((Item::End, rest)),
        _ => None,
    }
}
