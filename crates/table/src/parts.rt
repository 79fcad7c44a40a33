// What the fields of a table have that were read so far.

// So many names, from the first byte on, and states, from `base` on; and the least key that a further rule may have.
#[derive(Clone, Copy)]
pub struct Parts<'a> {
    pub table: &'a [u8],
    pub names: usize,
    pub base: usize,
    pub states: usize,
    pub next: usize,
}
