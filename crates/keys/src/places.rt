// Places of a key list's table: 128 stands above the root, a number below for the path of that number, 129 for a path that is not listed.
ghost use Rattle.std.specs.Prelude.{◌≡◌, ◌+◌, ◌*◌, ◌<◌, ◌≤◌, length};
ghost use Rattle.std.proofs.Math.Seq.{slice};
ghost use Rattle.xml.specs.Bytes.{Bytes};
ghost use Rattle.keys.specs.KeyList.{above, key_names_at};
ghost use Rattle.keys.specs.Version.{◌▸◌};
ghost use Rattle.keys.specs.Table.{place_of, name_end};
ghost use Rattle.keys.specs.Placed.{Placed, OfPlace};
ghost use Rattle.keys.specs.Places.{part_at, first_below, is_child_at};

use xml::compare::same_bytes;

// A part of a text, from start up to end.
#[derive(Clone, Copy)]
pub struct Part {
    pub start: usize,
    pub end: usize,
}

// A key list: its text, and the table that was made of it, with so many paths.
#[derive(Clone, Copy)]
pub struct KeyTable<'a> {
    pub text: &'a [u8],
    pub table: &'a [u32],
    pub paths: usize,
}

impl KeyTable<'_> {
    // The name of the path number q, in the key list's text.
    pub fn key_name(&self, q: usize) -> Part
        requires { 2 * q < length self.now.table.now }
        ensures { result ≡ part_at self.now.table.now q }
    {
        let head = self.table[2 * q];
        let start = (head / 64) as usize;
        Part {
            start,
            end: start + (head % 64) as usize,
        }
    }

    // The path at a place is continued by another, or it is above the root.
    pub fn is_above(&self, place: usize) -> bool
        requires { 2 * self.now.paths ≤ length self.now.table.now }
        ensures { (text : Bytes) → OfPlace text self.now.table.now self.now.paths place (λ K p. result ≡ above K p) }
    {
        if place == 128 {
            return true;
        }
        if place >= self.paths {
            return false;
        }
        self.table[2 * place + 1] % 2 == 1
    }

    // How many key names the path at a place has.
    pub fn key_count(&self, place: usize) -> usize
        requires { 2 * self.now.paths ≤ length self.now.table.now }
        ensures { (text : Bytes) → OfPlace text self.now.table.now self.now.paths place (λ K p. result ≡ length (key_names_at K p)) }
    {
        if place >= self.paths {
            return 0;
        }
        (self.table[2 * place + 1] / 2 % 8) as usize
    }

    // The bytes of a part of the key list's text.
    pub fn part(&self, part: Part) -> &[u8]
        requires { (part.start ≤ part.end) × (part.end ≤ length self.now.text.now) }
        ensures { result.now ≡ slice part.start part.end self.now.text.now }
    {
        &self.text[part.start..part.end]
    }

    // The path number i is the one at the place with the name below.
    fn is_child(&self, i: usize, place: usize, name: &[u8]) -> bool
        requires { (2 * i + 1 < length self.now.table.now) × (name_end self.now.table.now i ≤ length self.now.text.now) }
        ensures { result ≡ is_child_at self.now.text.now self.now.table.now i place name.now }
    {
        if (self.table[2 * i + 1] / 16) as usize != place {
            return false;
        }
        same_bytes(name, self.part(self.key_name(i)))
    }

    // The place of the name below a place; 129 where there is none, as the definition `place_of` has it.
    pub fn child(&self, place: usize, name: &[u8]) -> usize
        requires { Placed self.now.text.now self.now.table.now self.now.paths place }
        ensures { OfPlace self.now.text.now self.now.table.now self.now.paths place (λ K p. result ≡ place_of K (p ▸ name.now)) }
    {
        if !self.is_above(place) {
            return 129;
        }
        let mut i = first_below(place);
        while i < self.paths {
            if self.is_child(i, place, name) {
                return i;
            }
            i += 1;
        }
        129
    }
}

// The first number that a path below a place can have: paths come after those that they continue.
fn first_below(place: usize) -> usize
    requires { place ≤ 128 }
    ensures { result ≡ first_below place }
{
    if place == 128 {
        return 0;
    }
    place + 1
}
