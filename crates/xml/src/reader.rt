// The reader: a text onto a tape, one loop over its tokens. An open node's second cell holds the number of the open node around it,
// and one more than it (0 where there is none); its end tag puts the number of the next node there.
ghost use Rattle.std.specs.Prelude.{◌≡◌, true, ℕ, ◌+◌, ◌*◌, ◌<◌, ◌≤◌, length, get_or, set};
ghost use Rattle.xml.specs.Bytes.{is_white};
ghost use Rattle.xml.specs.TapeNew.{head_of};
ghost use Rattle.xml.specs.State.{Here, Running, Ending, Opening, Noted, Stepped, Replied};

use crate::class::is_white_byte;
use crate::scan::{byte_at, end_tag, start_tag, text_run};
use crate::stretch::{Sort, pass_bytes};
use crate::tape::view_at;
use crate::{ReadError, Start};

// How far reading has come: the place in the text, the number of nodes, and the innermost open node (one more than it, 0 for none).
#[derive(Clone, Copy)]
struct Progress {
    at: usize,
    count: usize,
    top: usize,
}

// White space, which may stand outside the root.
struct White;

impl Sort for White {
    ghost test = { is_white };

    ghost answer = { true };

    fn is_other(b: u8) -> bool {
        !is_white_byte(b)
    }

    fn goes_on(b: u8) -> bool {
        is_white_byte(b)
    }
}

// The first cell of a node.
fn head(start: usize, count: usize, kind: u32) -> u32
    requires { (start ≤ 32767) × (count ≤ 32767) × (kind < 4) }
    ensures { result ≡ head_of start count kind }
{
    (start as u32) * 131072 + (count as u32) * 4 + kind
}

// Writes the two cells of a new node, and goes on at `at` with `top` open; or there is no room for them.
fn node(
    tape: &mut [u32],
    count: usize,
    head: u32,
    next: usize,
    at: usize,
    top: usize,
) -> Result<Progress, ReadError>
    requires { (count ≤ 32768) × (next ≤ 32769) }
    ensures { Noted tape.old count head next at top tape.new result }
{
    if tape.len() < 2 * count + 2 {
        return Err(ReadError::Full);
    }
    tape[2 * count] = head;
    tape[2 * count + 1] = next as u32;
    Ok(Progress {
        at,
        count: count + 1,
        top,
    })
}

// Writes the second cell of the node p.
fn set_next(tape: &mut [u32], p: usize, next: usize)
    requires { (2 * p + 1 < length tape.old) × (next ≤ 32768) }
    ensures { tape.new ≡ set tape.old (2 * p + 1) next }
{
    tape[2 * p + 1] = next as u32;
}

// A run of text.
fn characters(
    src: &[u8],
    archive: bool,
    tape: &mut [u32],
    from: Progress,
) -> Result<Progress, ReadError>
    requires { Running archive src.now tape.old from.at from.count from.top }
    ensures { Stepped archive src.now tape.old from.at from.count tape.new result }
{
    let Progress { at, count, top } = from;
    match text_run(src, at) {
        Err(k) => Err(ReadError::Wrong(at + k)),
        Ok(k) => node(tape, count, head(at, k, 0), count + 1, at + k, top),
    }
}

// A start tag, whose `<` stands at `from.at`.
fn open_tag(
    src: &[u8],
    archive: bool,
    tape: &mut [u32],
    from: Progress,
) -> Result<Progress, ReadError>
    requires { Opening archive src.now tape.old from.at from.count from.top }
    ensures { Stepped archive src.now tape.old from.at from.count tape.new result }
{
    let Progress { at, count, top } = from;
    match start_tag(src, archive, at + 1) {
        Err(k) => Err(ReadError::Wrong(at + k)),
        Ok(Start::Opens(n)) => node(tape, count, head(at + 1, n, 1), top, at + 2 + n, count + 1),
        Ok(Start::Lone(n)) => node(tape, count, head(at + 1, n, 1), count + 1, at + 3 + n, top),
        Ok(Start::Timed(n)) => node(tape, count, head(at + 6, n, 2), top, at + 8 + n, count + 1),
    }
}

// An end tag, whose `<` stands at `from.at`.
fn close_tag(
    src: &[u8],
    archive: bool,
    tape: &mut [u32],
    from: Progress,
) -> Result<Progress, ReadError>
    requires { Ending archive src.now tape.old from.at from.count from.top }
    ensures { Stepped archive src.now tape.old from.at from.count tape.new result }
{
    let Progress { at, count, top } = from;
    let v = view_at(tape, top - 1);
    match end_tag(src, at + 2, v.start, v.end, v.kind) {
        Err(m) => Err(ReadError::Wrong(at + 2 + m)),
        Ok(m) => {
            set_next(tape, top - 1, count);
            Ok(Progress {
                at: at + 3 + m,
                count,
                top: v.next,
            })
        }
    }
}

// The token at `from.at`: text or a tag in an open node; all white space that stands there, or the root's tag, outside.
fn advance(
    src: &[u8],
    archive: bool,
    tape: &mut [u32],
    from: Progress,
) -> Result<Progress, ReadError>
    requires { Here archive src.now tape.old from.at from.count from.top }
    ensures { Stepped archive src.now tape.old from.at from.count tape.new result }
{
    let b = src[from.at];
    if b != b'<' {
        if 0 < from.top {
            return characters(src, archive, tape, from);
        }
        if is_white_byte(b) {
            return Ok(Progress {
                at: pass_bytes::<White>(src, from.at + 1, src.len()),
                count: from.count,
                top: 0,
            });
        }
        return Err(ReadError::Wrong(from.at));
    }
    if 0 < from.top {
        if byte_at(src, from.at + 1) == b'/' {
            return close_tag(src, archive, tape, from);
        }
    } else if 0 < from.count {
        return Err(ReadError::Wrong(from.at));
    }
    open_tag(src, archive, tape, from)
}

// Reads a text onto the tape, and answers the number of its nodes: a version's, or an archive's, whose `T` tags have their times.
pub fn read(src: &[u8], archive: bool, tape: &mut [u32]) -> Result<usize, ReadError>
    requires { length src.now ≤ 32768 }
    ensures { Replied archive src.now tape.old tape.new result }
{
    let mut here = Progress {
        at: 0,
        count: 0,
        top: 0,
    };
    while here.at < src.len() {
        here = advance(src, archive, tape, here)?;
    }
    if here.top != 0 || here.count == 0 {
        return Err(ReadError::Wrong(here.at));
    }
    Ok(here.count)
}
