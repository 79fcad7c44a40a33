// The fields of a table: a tag, a length of two bytes, and as many bytes.
ghost use Rattle.std.specs.Prelude.{◌≡◌, ◌↔◌, None, Some, IsTrue, MatchOption};
ghost use Rattle.table.specs.Checked.{front_field};
ghost use Rattle.table.specs.Kinds.{kind_told};

// What a field is, told by its tag.
#[derive(Clone, Copy, Debug, PartialEq, Eq, Hash)]
pub enum Kind {
    Name,
    State,
    Rule,
    End,
}

// The field that the bytes begin with, and the bytes behind it.
#[derive(Clone, Copy)]
pub struct Field<'a> {
    pub tag: u8,
    pub content: &'a [u8],
    pub behind: &'a [u8],
}

pub fn first_field(bytes: &[u8]) -> Option<Field<'_>>
    ensures { MatchOption result (front_field bytes.now ≡ None) (λ f. front_field bytes.now ≡ Some (f.tag, f.content.now, f.behind.now)) }
{
    let [tag, high, low, rest @ ..] = bytes else {
        return None;
    };
    let long = usize::from(u16::from_be_bytes([*high, *low]));
    if long > rest.len() {
        return None;
    }
    let (content, behind) = rest.split_at(long);
    Some(Field {
        tag: *tag,
        content,
        behind,
    })
}

impl<'a> Field<'a> {
    // Nothing where the tag is none of the four.
    pub fn kind(&self) -> Option<Kind>
        ensures { result ≡ kind_told self.now.tag }
    {
        match self.tag {
            1 => Some(Kind::Name),
            2 => Some(Kind::State),
            3 => Some(Kind::Rule),
            4 => Some(Kind::End),
            _ => None,
        }
    }

    pub fn is_end(&self) -> bool
        ensures { IsTrue result ↔ (self.now.tag ≡ 4) }
    {
        matches!(self.kind(), Some(Kind::End))
    }
}
