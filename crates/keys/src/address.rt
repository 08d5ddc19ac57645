// Addresses: read from their start, step by step, into positions in their text: an array of eight arrays of four for the key values.
// A position is start * 64 + length.
ghost use Rattle.std.specs.Prelude.{◌≡◌, [], ◌+◌, ◌<◌, ◌≤◌, length, drop, get_or};
ghost use Rattle.std.proofs.Math.Seq.{slice};
ghost use Rattle.xml.specs.Read.{name_rest};
ghost use Rattle.keys.specs.KeyList.{KeyList, key_names_at};
ghost use Rattle.keys.specs.Table.{Table};
ghost use Rattle.keys.specs.Placed.{Placed, OfPlace};
ghost use Rattle.keys.specs.AddressParts.{opener, Skipped, QuotedRead, ValueRead, ConditionsRead, StepRead, AddressParsed, Tabled, Keyed};
ghost use Rattle.keys.specs.SameStep.{KeysAsked, KeysSame, StepAsked, StepSame};

use crate::label::find_key;
use crate::places::KeyTable;
use xml::class::is_name_byte;
use xml::compare::same_bytes;
use xml::scan::byte_at;
use xml::tape::Document;

// The conditions of a step: the place behind them, and the positions of the key values.
#[derive(Clone, Copy)]
pub struct Conditions {
    pub next: usize,
    pub values: [usize; 4],
}

// A step: the place behind it, the position of its name, its place in the table and its key values.
#[derive(Clone, Copy)]
pub struct Step {
    pub next: usize,
    pub name: usize,
    pub place: usize,
    pub values: [usize; 4],
}

// The steps of an address, one at least: their number, and for each the position of its name and its place in the table.
// The positions of the key values stand beside it, in an array of eight arrays of four.
#[derive(Clone, Copy)]
pub struct Parsed {
    pub count: usize,
    pub names: [usize; 8],
    pub places: [usize; 8],
}

// How many bytes of a name or a value stand at a place, up to 33: 32 are allowed.
fn value_len(s: &[u8], at: usize) -> usize
    requires { at ≤ length s.now }
    ensures { result ≡ name_rest 33 (drop at s.now) }
{
    let rest = &s[at..s.len().min(at + 33)];
    rest.iter()
        .position(|b| !is_name_byte(*b))
        .unwrap_or(rest.len())
}

// The place behind the word, if it stands at the place; past the end of the text if not.
fn skip(s: &[u8], at: usize, word: &[u8]) -> usize
    requires { (length s.now ≤ 2560) × (at ≤ length s.now + 1) }
    ensures { Skipped s.now at word.now result }
{
    if s.len() < at {
        return at;
    }
    if s.len() - at < word.len() {
        return s.len() + 1;
    }
    if !same_bytes(&s[at..at + word.len()], word) {
        return s.len() + 1;
    }
    at + word.len()
}

// The place behind what opens condition number j: a bracket, or ` and `.
fn open_at(s: &[u8], at: usize, j: usize) -> usize
    requires { (length s.now ≤ 2560) × (at ≤ length s.now) }
    ensures { Skipped s.now at (opener j) result }
{
    if j == 0 {
        return skip(s, at, b"[");
    }
    skip(s, at, b" and ")
}

// The position of a value of 1 to 32 bytes before a quote, if one stands there.
fn value_at(s: &[u8], at: usize) -> Option<usize>
    requires { (length s.now ≤ 2560) × (at ≤ length s.now + 1) }
    ensures { QuotedRead s.now at result }
{
    if s.len() < at {
        return None;
    }
    let m = value_len(s, at);
    if m == 0 {
        return None;
    }
    if 32 < m {
        return None;
    }
    if byte_at(s, at + m) != b'"' {
        return None;
    }
    Some(at * 64 + m)
}

// Condition number j of the path at place q: the position of its value; none, where it is wrong.
fn condition(keys: &KeyTable, q: usize, j: usize, s: &[u8], at: usize) -> Option<usize>
    requires { Keyed keys.now.text.now keys.now.table.now keys.now.paths q j × (length s.now ≤ 2560) × (at ≤ length s.now) }
    ensures { OfPlace keys.now.text.now keys.now.table.now keys.now.paths q (λ K p. ValueRead (opener j) (get_or (key_names_at K p) j []) s.now at result) }
{
    let a = open_at(s, at, j);
    let key = keys.part(keys.key_name(q + 1 + j));
    let b = skip(s, a, key);
    let v = skip(s, b, b"=\"");
    value_at(s, v)
}

// The conditions of the path at place q; none, where they are wrong.
fn read_conditions(keys: &KeyTable, q: usize, s: &[u8], at: usize) -> Option<Conditions>
    requires { Placed keys.now.text.now keys.now.table.now keys.now.paths q × (length s.now ≤ 2560) × (0 < at) × (at ≤ length s.now) }
    ensures { OfPlace keys.now.text.now keys.now.table.now keys.now.paths q (λ K p. ConditionsRead (key_names_at K p) s.now at result) }
{
    let mut values = [0usize; 4];
    let count = keys.key_count(q);
    if count == 0 {
        return Some(Conditions { next: at, values });
    }
    let mut next = at;
    for j in 0..count {
        let v = condition(keys, q, j, s, next)?;
        values[j] = v;
        next = v / 64 + v % 64 + 1;
    }
    if byte_at(s, next) != b']' {
        return None;
    }
    Some(Conditions {
        next: next + 1,
        values,
    })
}

// The step at a place of the address, below the path at the place of the table; none, where it is wrong.
fn read_step(keys: &KeyTable, place: usize, s: &[u8], at: usize) -> Option<Step>
    requires { Placed keys.now.text.now keys.now.table.now keys.now.paths place × (length s.now ≤ 2560) × (at < length s.now) }
    ensures { OfPlace keys.now.text.now keys.now.table.now keys.now.paths place (λ K p. StepRead K p s.now at result) }
{
    if s[at] != b'/' {
        return None;
    }
    let m = value_len(s, at + 1);
    let q = keys.child(place, &s[at + 1..at + 1 + m]);
    if q == 129 {
        return None;
    }
    let c = read_conditions(keys, q, s, at + 1 + m)?;
    let values = c.values;
    Some(Step {
        next: c.next,
        name: (at + 1) * 64 + m,
        place: q,
        values,
    })
}

// The steps of an address, none where it is refused; the positions of their key values are put into `values`.
pub fn parse_address(keys: &KeyTable, s: &[u8], values: &mut [[usize; 4]; 8]) -> Option<Parsed>
    requires { Tabled keys.now.text.now keys.now.table.now keys.now.paths × (length s.now ≤ 2560) }
    ensures { (K : KeyList) → Table keys.now.text.now keys.now.table.now keys.now.paths K → AddressParsed K s.now result values.new }
{
    let mut found = [[0usize; 4]; 8];
    let mut names = [0usize; 8];
    let mut places = [0usize; 8];
    let mut count = 0;
    let mut place = 128;
    let mut at = 0;
    // `while` and no `for`: each turn goes on by the length of what it reads.
    while at < s.len() {
        if count == 8 {
            return None;
        }
        let Some(step) = read_step(keys, place, s, at) else {
            return None;
        };
        let read = step.values;
        found[count] = read;
        names[count] = step.name;
        places[count] = step.place;
        count += 1;
        place = step.place;
        at = step.next;
    }
    if count == 0 {
        return None;
    }
    *values = found;
    Some(Parsed {
        count,
        names,
        places,
    })
}

// The key values at these positions of an address are those of an element at the place, which holds the nodes lo to hi.
fn same_keys(
    keys: &KeyTable,
    own: usize,
    s: &[u8],
    values: [usize; 4],
    doc: &Document,
    lo: usize,
    hi: usize,
) -> bool
    requires { KeysAsked keys.now.text.now keys.now.table.now keys.now.paths own s.now values doc.now.src.now doc.now.tape.now lo hi }
    ensures { KeysSame keys.now.text.now keys.now.table.now keys.now.paths own s.now values doc.now.src.now doc.now.tape.now lo hi result }
{
    let count = keys.key_count(own);
    for j in 0..count {
        let key = keys.part(keys.key_name(own + 1 + j));
        let x = find_key(key, doc, lo, hi);
        let v = doc.view(x + 1);
        let k = values[j];
        if !same_bytes(&s[k / 64..k / 64 + k % 64], doc.part(v)) {
            return false;
        }
    }
    true
}

// Step i of an address has the label of the element p.
pub fn same_step(
    keys: &KeyTable,
    s: &[u8],
    steps: Parsed,
    values: [[usize; 4]; 8],
    i: usize,
    doc: &Document,
    p: usize,
) -> bool
    requires { StepAsked keys.now.text.now keys.now.table.now keys.now.paths s.now (get_or steps.names i 0) (get_or steps.places i 0) (get_or values i []) doc.now.src.now doc.now.tape.now p × (i < 8) }
    ensures { StepSame keys.now.text.now keys.now.table.now keys.now.paths s.now (get_or steps.names i 0) (get_or steps.places i 0) (get_or values i []) doc.now.src.now doc.now.tape.now p result }
{
    let v = doc.view(p);
    let name = steps.names[i];
    if !same_bytes(&s[name / 64..name / 64 + name % 64], doc.part(v)) {
        return false;
    }
    let own = steps.places[i];
    let asked = values[i];
    same_keys(keys, own, s, asked, doc, p + 1, v.next)
}
