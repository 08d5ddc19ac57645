// Runs texts through the panel's face, and writes each one's canonical form, or why it has none.
#![tactic(auto)]

ghost use Rattle.std.specs.Prelude.{◌≡◌, ◌≤◌, length};

use xml::panel::{CanonError, canonical};
use xml::reader::read;
use xml::spelling::spelled;
use xml::tape::Document;

fn cells_256() -> [u32; 256]
    ensures { 256 ≡ length result }
{
    [0; 256]
}

fn bytes_256() -> [u8; 256]
    ensures { 256 ≡ length result }
{
    [46; 256]
}

// Whether a version's text is spelled as it is written.
fn is_spelled(text: &[u8]) -> bool {
    if 16384 < text.len() {
        return false;
    }
    let mut tape = cells_256();
    match read(text, false, &mut tape) {
        Ok(hi) => spelled(
            &Document {
                src: text,
                tape: &tape,
            },
            hi,
        ),
        Err(_) => false,
    }
}

// The form of a text, `=` before it where the text is spelled as it is written and `~` where not; or the refusal, with so many cells of a
// tape and so many bytes of an output.
fn show(rt: &HostRuntime, text: &[u8], cells: usize, room: usize)
    requires cells { cells ≤ 256 }
    requires room { room ≤ 256 }
{
    let mut tape = cells_256();
    let mut out = bytes_256();
    let _ = match canonical(text, &mut tape[..cells], &mut out[..room]) {
        Ok(n) => {
            let _ = rt.print(if is_spelled(text) { "= " } else { "~ " });
            rt.write_all(&out[..n])
        }
        Err(CanonError::Long) => rt.print("! longer than 16384"),
        Err(CanonError::Narrow) => rt.print("! tape too short"),
        Err(CanonError::Wrong(p)) => print!(rt; "! wrong at {p}"),
        Err(CanonError::Short) => rt.print("! output too short"),
    };
    let _ = rt.print("\n");
}

// Texts that have a form.
fn right(rt: &HostRuntime) {
    for text in [
        "<station><light>Fl 5s</light><lamp><pos>2</pos><type>A</type><hours>40</hours></lamp></station>",
        " \t<a>1&amp;<b/> x</a>\r\n",
        "<a>&lt;]]&gt;x>&quot;&apos;&amp;</a>",
        "<a><b><c><d>deep</d></c></b><b></b></a>",
        "<T><T/></T>",
        "<a>a longer run of text, copied in one piece; then &gt; and another</a>",
    ] {
        show(rt, text.as_bytes(), 256, 256);
    }
}

// Texts that are refused, each at its first wrong byte.
fn wrong(rt: &HostRuntime) {
    for text in [
        "",
        "<a>",
        "<a></b>",
        "<a>]]></a>",
        "<a>&lx;</a>",
        "<a/><b/>",
        "<a x=\"1\"/>",
        "<T t=\"1\"></T>",
    ] {
        show(rt, text.as_bytes(), 256, 256);
    }
}

fn main(rt: HostRuntime) {
    let rt = &rt;
    right(rt);
    wrong(rt);
    // calls and no loop, as each proves what `show` requires of its numbers
    show(rt, b"<a>x<b/></a>", 11, 15);
    show(rt, b"<a>x<b/></a>", 12, 15);
    show(rt, b"<a>x<b/></a>", 12, 14);
    show(rt, &[32u8; 16385], 256, 256);
}
