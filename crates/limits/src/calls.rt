// The calls, each writing its line.
ghost use Rattle.std.specs.Prelude.{◌≤◌, length};

use crate::line::{line, result_in, table_line, version_line};
use archive::add::add_version;
use archive::by_value::{find_mark, set_mark, step_back, step_back_to_mark};
use archive::check_keys::check_keys;
use archive::found::found;
use archive::history::give_history;
use archive::longest::longest_history;
use archive::retrieve::retrieve;
use marks::Table;
use marks::entries::blank;

// An output as long as any result.
pub type Out = [u8; 32768];

// What each call needs: where its line goes, the key list and the work cells. With one lifetime its methods are not proved.
#[derive(Drop)]
pub struct Bench<'a, 'w> {
    pub rt: &'a HostRuntime,
    pub keys: &'a [u8],
    pub work: &'w mut [u32],
}

impl Bench<'_, '_> {
    // The bench under another key list.
    pub fn under<'b>(&'b mut self, keys: &'b [u8]) -> Bench<'b, 'b> {
        Bench {
            rt: self.rt,
            keys,
            work: self.work,
        }
    }

    // The bench with other work cells.
    pub fn working_in<'b>(&'b self, work: &'b mut [u32]) -> Bench<'b, 'b> {
        Bench {
            rt: self.rt,
            keys: self.keys,
            work,
        }
    }

    // Checking the key list.
    pub fn checks(&mut self, name: &str) {
        let answer = check_keys(self.keys, self.work);
        line(self.rt, name, answer, b"");
    }

    // Founding, with no line; answers the archive.
    pub fn founds_unseen<'o>(&mut self, version: &[u8], out: &'o mut [u8]) -> &'o [u8]
        ensures { length result.now ≤ length out.old }
    {
        let answer = found(self.keys, version, out, self.work);
        result_in(answer, out)
    }

    // Founding; answers the archive.
    pub fn founds<'o>(&mut self, name: &str, version: &[u8], out: &'o mut [u8]) -> &'o [u8]
        ensures { length result.now ≤ length out.old }
    {
        let answer = found(self.keys, version, out, self.work);
        line(self.rt, name, answer, out)
    }

    // Adding, with no line; answers the archive.
    pub fn adds_unseen<'o>(&mut self, archive: &[u8], version: &[u8], out: &'o mut [u8]) -> &'o [u8]
        ensures { length result.now ≤ length out.old }
    {
        let answer = add_version(self.keys, archive, version, out, self.work);
        result_in(answer, out)
    }

    // Adding; answers the archive.
    pub fn adds<'o>(
        &mut self,
        name: &str,
        archive: &[u8],
        version: &[u8],
        out: &'o mut [u8],
    ) -> &'o [u8]
        ensures { length result.now ≤ length out.old }
    {
        let answer = add_version(self.keys, archive, version, out, self.work);
        line(self.rt, name, answer, out)
    }

    // Retrieving.
    pub fn retrieves(&mut self, name: &str, archive: &[u8], i: usize, out: &mut [u8]) {
        let answer = retrieve(self.keys, archive, i, out, self.work);
        line(self.rt, name, answer, out);
    }

    // A history.
    pub fn gives_history(&mut self, name: &str, archive: &[u8], address: &str, out: &mut [u8]) {
        let answer = give_history(self.keys, archive, address.as_bytes(), out, self.work);
        line(self.rt, name, answer, out);
    }

    // The longest history line.
    pub fn gives_longest(&mut self, name: &str, of: usize, out: &mut [u8]) {
        let answer = longest_history(of, out, self.work);
        line(self.rt, name, answer, out);
    }

    // The longest history line, with no line of its own.
    pub fn gives_longest_unseen<'o>(&mut self, of: usize, out: &'o mut [u8]) -> &'o [u8]
        ensures { length result.now ≤ length out.old }
    {
        let answer = longest_history(of, out, self.work);
        result_in(answer, out)
    }

    // Stepping back, with a table of unused entries.
    pub fn steps_back(&mut self, name: &str, archive: &[u8], i: usize, out: &mut [u8]) {
        let m = step_back(self.keys, archive, blank(32), i, out, self.work);
        line(self.rt, name, m.answer, out);
    }

    // Stepping back, with marks.
    pub fn steps_back_marked(
        &mut self,
        name: &str,
        archive: &[u8],
        t: Table,
        i: usize,
        out: &mut [u8],
    ) {
        let m = step_back(self.keys, archive, t, i, out, self.work);
        table_line(self.rt, name, m.answer, m.table, out);
    }

    // Stepping back to a mark.
    pub fn steps_back_to_mark(
        &mut self,
        name: &str,
        archive: &[u8],
        t: Table,
        mark: &str,
        out: &mut [u8],
    ) {
        let m = step_back_to_mark(self.keys, archive, t, mark.as_bytes(), out, self.work);
        table_line(self.rt, name, m.answer, m.table, out);
    }

    // Setting a mark, with no line; answers the table left.
    pub fn sets_unseen(&mut self, archive: &[u8], t: Table, mark: &[u8], i: usize) -> Table {
        set_mark(self.keys, archive, t, mark, i, self.work).table
    }

    // Setting a mark; answers the table left.
    pub fn sets(&mut self, name: &str, archive: &[u8], t: Table, mark: &str, i: usize) -> Table {
        let m = set_mark(self.keys, archive, t, mark.as_bytes(), i, self.work);
        table_line(self.rt, name, m.answer, m.table, b"");
        m.table
    }

    // Finding a mark.
    pub fn finds(&mut self, name: &str, archive: &[u8], t: Table, mark: &str) {
        let version = find_mark(self.keys, archive, t, mark.as_bytes(), self.work);
        version_line(self.rt, name, version);
    }
}
