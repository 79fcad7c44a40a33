// Names, compared where they stand.
#![tactic(auto, using(crate::proofs::Naming::name_laws))]

ghost use Rattle.std.specs.Prelude.{◌≡◌, ◌+◌, ◌≤◌, ℕ, List, length, get_or, drop};
ghost use Rattle.table.specs.Names.{name_at, names_at, found};

use std::marker::Model;

// The first names of a table, which has at most 128: a contract sees the list of them.
#[derive(Drop)]
pub struct Names<'a> {
    table: &'a [u8],
    count: u8,
}

impl<'a> Model for Names<'a> {
    ghost Value = { List (List ℕ) };

    ghost view = { λ n. names_at n.table.now 0 n.count };
}

// The name whose field the bytes begin with, as long as its length says or as the bytes are; and what stands behind it.
fn first_name(bytes: &[u8]) -> (&[u8], &[u8])
    ensures name { result.0.now ≡ name_at bytes.now 0 }
    ensures behind { result.1.now ≡ drop (3 + get_or bytes.now 2 0) bytes.now }
{
    match bytes {
        [_, _, long, rest @ ..] => rest.split_at(usize::from(*long).min(rest.len())),
        _ => (&[], &[]),
    }
}

impl<'a> Names<'a> {
    pub fn new(table: &'a [u8], count: usize) -> Self
        requires { count ≤ 128 }
        ensures { result ≡ names_at table.now 0 count }
    {
        // `as`: it is 128 at most, and `try_from` would bring a failure that cannot be
        Names {
            table,
            count: count as u8,
        }
    }

    pub fn len(&self) -> usize
        ensures { result ≡ length self.now }
    {
        usize::from(self.count)
    }

    // The number of a name, where it is one of these.
    #[inline]
    pub fn find_name(&self, name: &[u8]) -> Option<u8>
        ensures { result ≡ found self.now name.now }
    {
        let mut rest = self.table;
        for n in 0..self.count {
            let (first, behind) = first_name(rest);
            if first == name {
                return Some(n);
            }
            rest = behind;
        }
        None
    }
}
