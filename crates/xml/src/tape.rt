// The nodes of the tape: the one way to read a node's two cells; and cells that are cleared.
ghost use Rattle.std.specs.Prelude.{◌≡◌, ◌+◌, ◌*◌, ◌<◌, ◌≤◌, length, replicate};
ghost use Rattle.std.proofs.Math.Seq.{slice};
ghost use Rattle.xml.specs.Views.{view_at, is_run};

// The bytes start to end of the text name the node; kind 0 is a run of text, 1 an element, 2 an archive's `T`; next is the first node
// after its subtree.
#[derive(Clone, Copy)]
pub struct View {
    pub start: usize,
    pub end: usize,
    pub kind: u32,
    pub next: usize,
}

// A text, and the cells onto which it was read.
#[derive(Clone, Copy)]
pub struct Document<'a> {
    pub src: &'a [u8],
    pub tape: &'a [u32],
}

impl Document<'_> {
    // What the cells of the node p say.
    pub fn view(&self, p: usize) -> View
        requires { 2 * p + 1 < length self.now.tape.now }
        ensures { result ≡ view_at self.now.tape.now p }
    {
        view_at(self.tape, p)
    }

    // The bytes that name a node.
    pub fn part(&self, v: View) -> &[u8]
        requires { (v.start ≤ v.end) × (v.end ≤ length self.now.src.now) }
        ensures { result.now ≡ slice v.start v.end self.now.src.now }
    {
        &self.src[v.start..v.end]
    }
}

pub fn view_at(tape: &[u32], p: usize) -> View
    requires { 2 * p + 1 < length tape.now }
    ensures { result ≡ view_at tape.now p }
{
    let head = tape[2 * p];
    let start = (head / 131072) as usize;
    View {
        start,
        end: start + (head / 4 % 32768) as usize,
        kind: head % 4,
        next: tape[2 * p + 1] as usize,
    }
}

// Whether the nodes lo to hi are one run of text and nothing else.
pub fn is_run(tape: &[u32], lo: usize, hi: usize) -> bool
    requires { (lo ≤ hi) × (lo < hi → 2 * lo + 1 < length tape.now) }
    ensures { result ≡ is_run tape.now lo hi }
{
    if hi - lo != 1 {
        return false;
    }
    view_at(tape, lo).kind == 0
}

// Makes all cells zero.
pub fn clear(cells: &mut [u32])
    ensures { cells.new ≡ replicate (length cells.old) 0 }
{
    cells.fill(0);
}
