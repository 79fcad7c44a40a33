// Tags and characters, written from the first free byte of the output on.
// Document 01, "The log": "Output is written the same way"; "Each event's bytes are written from the first free byte of the output
// onward; all other bytes stay. A first free byte past the output's end means that none is free."
#![tactic(auto, using(crate::proofs::Laid::laid_laws))]

ghost use Rattle.std.specs.Prelude.{◌≡◌, ◌+◌, ◌≤◌, length, [], ◌∷◌, ◌++◌};
ghost use Rattle.reader.specs.Form.{spelling};
ghost use Rattle.writer.specs.Bytes.{leaf_form};
ghost use Rattle.writer.specs.Item.{item_bytes};
ghost use Rattle.writer.specs.Laid.{room, laid, over};

// What is written: a tag with its name's bytes, where they stand, or a character.
#[derive(Clone, Copy)]
pub enum Item<'a> {
    Start(&'a [u8]),
    End(&'a [u8]),
    Character(u8),
}

// How many bytes a character takes.
#[tactic(auto, unfolding(crate::specs::Bytes::leaf_form))]
fn character_size(c: u8) -> usize
    ensures { result ≡ length (spelling (leaf_form c)) }
{
    match c {
        b'<' | b'>' => 4,
        b'&' => 5,
        _ => 1,
    }
}

// How many bytes an item takes.
#[tactic(auto, unfolding(crate::specs::Item::item_bytes))]
pub fn size(item: Item) -> usize
    ensures { result ≡ length (item_bytes item.entry) }
{
    match item {
        Item::Start(name) => name.len() + 2,
        Item::End(name) => name.len() + 3,
        Item::Character(c) => character_size(c),
    }
}

// Bytes from a place on.
fn put(out: &mut [u8], at: usize, bytes: &[u8])
    requires { at + length bytes.now ≤ length out.old }
    ensures { out.new ≡ over out.old at bytes.now }
{
    out[at..at + bytes.len()].copy_from_slice(bytes);
}

// A tag's bytes: what opens it, its name, and `>`.
fn tag(out: &mut [u8], front: &[u8], name: &[u8])
    requires { length (front.now ++ (name.now ++ (62 ∷ []))) ≤ length out.old }
    ensures { out.new ≡ over out.old 0 (front.now ++ (name.now ++ (62 ∷ []))) }
{
    put(out, 0, front);
    put(out, front.len(), name);
    put(out, front.len() + name.len(), b">");
}

// A character's bytes: a reference for `<`, `>` and `&`, every other leaf as its byte.
#[tactic(auto, unfolding(crate::specs::Bytes::leaf_form))]
fn character(out: &mut [u8], c: u8)
    requires { length (spelling (leaf_form c)) ≤ length out.old }
    ensures { out.new ≡ over out.old 0 (spelling (leaf_form c)) }
{
    match c {
        b'<' => put(out, 0, b"&lt;"),
        b'>' => put(out, 0, b"&gt;"),
        b'&' => put(out, 0, b"&amp;"),
        _ => put(out, 0, &[c]),
    }
}

// An item's bytes, where they have room.
#[tactic(auto, unfolding(crate::specs::Item::item_bytes))]
fn lay(out: &mut [u8], item: Item)
    requires { length (item_bytes item) ≤ length out.old }
    ensures { out.new ≡ over out.old 0 (item_bytes item.entry) }
{
    match item {
        Item::Start(name) => tag(out, b"<", name),
        Item::End(name) => tag(out, b"</", name),
        Item::Character(c) => character(out, c),
    }
}

// An item's bytes from the first byte of the output's unused tail on, where they have room there: how many they are.
pub fn write(out: &mut [u8], item: Item) -> Option<usize>
    ensures size { result ≡ room out.old 0 (item_bytes item.entry) }
    ensures bytes { out.new ≡ laid out.old 0 (item_bytes item.entry) }
{
    let long = size(item);
    if long > out.len() {
        return None;
    }
    lay(out, item);
    Some(long)
}

// The same from the first free byte of the output on. At the output's end, or past it, none is free.
pub fn write_at(out: &mut [u8], free: usize, item: Item) -> Option<usize>
    ensures size { result ≡ room out.old free (item_bytes item.entry) }
    ensures bytes { out.new ≡ laid out.old free (item_bytes item.entry) }
{
    if free > out.len() {
        return None;
    }
    write(&mut out[free..], item)
}
