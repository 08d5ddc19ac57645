// What the programs over the archive share: files read and replaced by name, and refusals said in the words of documents 01 and 02.
#![tactic(auto)]

ghost use Rattle.std.specs.Prelude.{◌≤◌, ◌<◌, ◌≡◌, length, IfOk, IfSome};

use std::fs::{File, OpenOptions, Permissions};
use std::io::{Cursor, ErrorKind, Read, Write};
use std::os::unix::fs::{OpenOptionsExt, PermissionsExt};
use std::random::RandomSource;
use std::{fs, io};

// Writes bytes that need not be text, as those of a file's name, to standard error.
pub fn say(rt: &HostRuntime, words: &[u8]) {
    let _ = Print::write_all(&rt.stderr(), words);
}

// The length of a result, as one of the output's: what lending the result's bytes needs. No call answers a longer one.
pub fn within(n: usize, out: &[u8]) -> usize
    ensures counts { result ≤ length out.now }
    ensures same { n ≤ length out.now → result ≡ n }
{
    if out.len() < n {
        return 0;
    }
    n
}

// The bytes that a cursor over fixed memory (nothing is allocated) has written.
pub fn written<const N: usize>(text: &Cursor<[u8; N]>) -> &[u8]
    ensures { length result.now ≤ N }
{
    text.get_ref()
        .get(..text.position() as usize)
        .unwrap_or(b"")
}

// The reason in an error's text: what stands before the system's number of it.
fn reason_in(text: &str) -> &str {
    text.split_once(" (os error ")
        .map_or(text, |(reason, _)| reason)
}

// Says what failed, which may be a file's name, and the system's reason.
pub fn say_failure(rt: &HostRuntime, what: &[u8], error: &io::Error) {
    let mut told = Cursor::new([0u8; 256]);
    let _ = write!(told, "{error}");
    let reason = reason_in(std::str::from_utf8(written(&told)).unwrap_or(""));
    say(rt, what);
    let _ = eprintln!(rt; ": {reason}");
}

// Says why a file of a name could not be read or replaced, after the program's name.
fn say_failed(rt: &HostRuntime, program: &[u8], name: &[u8], error: &io::Error) {
    say(rt, program);
    say_failure(rt, name, error);
}

// The system's number of an error: bytes that are no text.
const NO_TEXT: i32 = 84;

// A file's name as the system's calls take it here: a name that is not UTF-8 is none.
fn path_of(name: &[u8]) -> io::Result<&str> {
    std::str::from_utf8(name).map_err(|_| io::Error::from_raw_os_error(NO_TEXT))
}

// Opens the file of a name for reading.
fn open_file(rt: &HostRuntime, name: &[u8]) -> io::Result<File> {
    File::open(rt, path_of(name)?)
}

// Reads until buf is full or the input ends, and answers how many bytes were read. A `while`, as the system says how many each turn reads.
fn read_on(file: &mut File, buf: &mut [u8]) -> io::Result<usize>
    ensures { IfOk result (λ n. n ≤ length buf.new) }
{
    let mut n = 0;
    while n < buf.len() {
        let more = file.read(&mut buf[n..])?;
        if more == 0 {
            return Ok(n);
        }
        n += more;
    }
    Ok(n)
}

// Opens the file of a name, and reads it, as far as buf goes.
fn read_named<'a>(rt: &HostRuntime, name: &[u8], buf: &'a mut [u8]) -> io::Result<&'a [u8]>
    ensures { IfOk result (λ bytes. length bytes.now ≤ length buf.old) }
{
    let mut file = open_file(rt, name)?;
    let n = read_on(&mut file, buf)?;
    Ok(&buf[..n])
}

// Reads the file of a name, as far as buf goes; where that fails, says why on standard error, after the program's name.
pub fn read_file<'a>(
    rt: &HostRuntime,
    program: &[u8],
    name: &[u8],
    buf: &'a mut [u8],
) -> Option<&'a [u8]>
    ensures { IfSome result (λ bytes. length bytes.now ≤ length buf.old) }
{
    match read_named(rt, name, buf) {
        Ok(bytes) => Some(bytes),
        Err(error) => {
            say_failed(rt, program, name, &error);
            None
        }
    }
}

// Whether there is no file of a name. The empty name is not that of a missing file: it is a wrong word.
pub fn is_missing(rt: &HostRuntime, name: &[u8]) -> bool {
    !name.is_empty()
        && matches!(open_file(rt, name), Err(error) if error.kind() == ErrorKind::NotFound)
}

// Writes bytes to an open file, which all may read, waits until they have reached its device, and closes it.
fn write_whole(mut file: File, bytes: &[u8]) -> io::Result<()> {
    file.write_all(bytes)?;
    file.set_permissions(Permissions::from_mode(0o644))?;
    file.sync_all()
}

// The n-th of the bytes that a new file's name may have: `A` to `Z`, `a` to `z`, `0` to `9`.
fn letter_at(n: u8) -> u8
    requires { n < 62 }
    ensures low { 48 ≤ result }
    ensures high { result ≤ 122 }
{
    if n < 26 {
        return b'A' + n;
    }
    if n < 52 {
        return b'a' + (n - 26);
    }
    b'0' + (n - 52)
}

// Six letters, drawn by the system.
fn draw_letters(rt: &HostRuntime) -> io::Result<[u8; 6]> {
    let mut letters = [0u8; 6];
    rt.fill_bytes(&mut letters)?;
    for letter in &mut letters {
        *letter = letter_at(*letter % 62);
    }
    Ok(letters)
}

// A file's name, in fixed memory.
type Path = Cursor<[u8; 4096]>;

// A name for a new file beside the one of a name: a dot and six letters after it, as far as that fits.
fn new_name(rt: &HostRuntime, name: &[u8]) -> io::Result<Path> {
    let letters = draw_letters(rt)?;
    let mut path = Cursor::new([0u8; 4096]);
    let _ = path.write_all(name);
    let _ = path.write_all(b".");
    let _ = path.write_all(&letters);
    Ok(path)
}

// Makes a file that is not there yet, which its owner alone may read and write.
fn create_new(rt: &HostRuntime, path: &[u8]) -> io::Result<File> {
    let mut how = OpenOptions::new();
    how.read(true).write(true).create_new(true).mode(0o600);
    how.open(rt, path_of(path)?)
}

// The system's number of an error: there is a file of this name already.
const EXISTS: i32 = 17;

// How many names are tried for a new file.
const TRIES: usize = 238328;

// A new file beside the one of a name, and its own name.
#[derive(Drop)]
struct Beside {
    file: File,
    path: Path,
}

// Makes a new file beside the one of a name.
fn create_beside(rt: &HostRuntime, name: &[u8]) -> io::Result<Beside> {
    for _ in 0..TRIES {
        let path = new_name(rt, name)?;
        match create_new(rt, written(&path)) {
            Ok(file) => return Ok(Beside { file, path }),
            Err(error) if error.kind() == ErrorKind::AlreadyExists => {}
            Err(error) => return Err(error),
        }
    }
    Err(io::Error::from_raw_os_error(EXISTS))
}

// Writes a new file's bytes, and gives it the name of the old one. Where that fails, the new file goes.
fn take_place(rt: &HostRuntime, file: File, new: &str, old: &str, bytes: &[u8]) -> io::Result<()> {
    let placed = write_whole(file, bytes).and_then(|()| fs::rename(rt, new, old));
    if placed.is_err() {
        let _ = fs::remove_file(rt, new);
    }
    placed
}

// Replaces the file of a name, or makes it.
fn replace(rt: &HostRuntime, name: &[u8], bytes: &[u8]) -> io::Result<()> {
    let old = path_of(name)?;
    let Beside { file, path } = create_beside(rt, name)?;
    take_place(rt, file, path_of(written(&path))?, old, bytes)
}

// Replaces the file of a name, or makes it. The bytes go to a new file beside it, which takes the name when they are all there:
// whenever this is interrupted, the name is that of the old bytes or of the new ones. Where it fails, that is said and the old ones stay.
pub fn replace_file(rt: &HostRuntime, program: &[u8], name: &[u8], bytes: &[u8]) {
    if let Err(error) = replace(rt, name, bytes) {
        say_failed(rt, program, name, &error);
    }
}

// When a refusal is returned; none for a number that is no refusal's.
fn reason(number: u32) -> Option<&'static str> {
    Some(match number {
        1 => "work under 16,384 cells",
        2 =>
            "key list over 4,096 bytes, version over 16,384, archive over 32,768, or address over 2,560",
        3 => "key list not in the notation",
        4 => "key list breaks a rule",
        5 => "version not in the XML subset",
        6 => "version deeper than 16, over 512 nodes, or its written form over 16,384 bytes",
        7 =>
            "a path not in the list above or at a frontier, refused text, or the name `T` anywhere",
        8 => "a key child missing, repeated or illegal",
        9 => "two siblings with one name and key",
        10 => "archive not legal",
        11 => "i not in 1 to n; or adding at n = 999; or n of a longest history not in 1 to 999",
        12 => "address not of this form and list",
        13 => "result over 1,024 nodes or 32,768 bytes",
        14 => "output shorter than the result",
        15 => "a name illegal, already held when setting, or not held when using",
        16 => "setting when 32 are held",
        17 => "a lent table not of 32 entries or that breaks these rules",
        _ => return None,
    })
}

// Says a refusal on standard error: its number and when it is returned.
pub fn say_refusal(rt: &HostRuntime, number: u32) {
    let _ = match reason(number) {
        Some(reason) => eprintln!(rt; "refused {number}: {reason}"),
        None => eprintln!(rt; "refused {number}"),
    };
}
