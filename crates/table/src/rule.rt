// The content of a rule's field.
ghost use Rattle.std.specs.Prelude.{◌≡◌, true, false, MatchOption};
ghost use Rattle.table.specs.Format.{rule_of, rule_holds, key};
ghost use Rattle.table.specs.Checked.{rule_meant};

// "state, pattern, right side", with a name after pattern 01; the name is 0 under the other patterns.
#[derive(Clone, Copy)]
pub struct Rule<'a> {
    pub state: u8,
    pub pattern: u8,
    pub name: u8,
    pub side: &'a [u8],
}

pub fn rule_in(content: &[u8]) -> Option<Rule<'_>>
    ensures { MatchOption result (rule_holds content.now ≡ false) (λ r. (rule_holds content.now ≡ true) × (rule_of content.now ≡ rule_meant r)) }
{
    match content {
        [state, 1, name, side @ ..] => Some(Rule {
            state: *state,
            pattern: 1,
            name: *name,
            side,
        }),
        [_, 1] => None,
        [state, pattern, side @ ..] => Some(Rule {
            state: *state,
            pattern: *pattern,
            name: 0,
            side,
        }),
        _ => None,
    }
}

impl<'a> Rule<'a> {
    // The rule's place in the order by state, then pattern, then name.
    pub fn key(&self) -> usize
        ensures { result ≡ key (rule_meant self.now) }
    {
        usize::from(self.state) * 1024 + usize::from(self.pattern) * 256 + usize::from(self.name)
    }
}
