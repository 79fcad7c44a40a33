// Whether two lent areas are the machine's: refusal 12. Nothing is asked of what stands in them.
ghost use Rattle.std.specs.Prelude.{◌≡◌, length};
ghost use Rattle.held.specs.Areas.{are_areas};

pub const FEWEST_WORDS: usize = 16;

pub const MOST_WORDS: usize = 8192;

pub fn are_areas(first: &[u32], second: &[u32]) -> bool
    ensures { result ≡ are_areas (length first.now) (length second.now) }
{
    first.len() == second.len() && (FEWEST_WORDS..=MOST_WORDS).contains(&first.len())
}
