// Document 01's demonstration: the archive of the record of one station, written after each version.
#![tactic(auto)]

ghost use Rattle.std.specs.Prelude.{◌≤◌, length, IfSome};

use archive::add::add_version;
use archive::found::found;
use files::{read_file, say_refusal, within};
use keys::refusal::Refusal;

// Writes the archive that a call gave for a version, and an LF, and answers it; or says the refusal.
fn show<'o>(
    rt: &HostRuntime,
    name: &str,
    answer: Result<usize, Refusal>,
    out: &'o [u8],
) -> Option<&'o [u8]>
    ensures { IfSome result (λ bytes. length bytes.now ≤ length out.now) }
{
    match answer {
        Ok(length) => {
            let n = within(length, out);
            let _ = rt.write_all(&out[..n]);
            let _ = rt.print("\n");
            Some(&out[..n])
        }
        Err(refusal) => {
            let _ = eprint!(rt; "demo: {name}: ");
            say_refusal(rt, refusal.number());
            None
        }
    }
}

// Asks for the archive that the version in a file gives, and shows it.
fn receive<'o, F: FnOnce(&[u8], &mut [u8]) -> Result<usize, Refusal>>(
    rt: &HostRuntime,
    name: &str,
    out: &'o mut [u8],
    ask: F,
) -> Option<&'o [u8]>
    requires { F.IsAlwaysCallable ask }
    ensures { IfSome result (λ bytes. length bytes.now ≤ length out.old) }
{
    let mut version = [0u8; 16385];
    let version = read_file(rt, b"demo: ", name.as_bytes(), &mut version)?;
    let answer = ask(version, out);
    show(rt, name, answer, out)
}

// The three versions under a key list; none where one gives no archive, which has been said.
fn run(rt: &HostRuntime, keys: &[u8]) -> Option<()> {
    let mut odd = [0u8; 32768];
    let mut even = [0u8; 32768];
    let mut work = [0u32; 16384];
    let first = receive(rt, "v1", &mut odd, |version, out| {
        found(keys, version, out, &mut work)
    })?;
    let second = receive(rt, "v2", &mut even, |version, out| {
        add_version(keys, first, version, out, &mut work)
    })?;
    receive(rt, "v3", &mut odd, |version, out| {
        add_version(keys, second, version, out, &mut work)
    })?;
    Some(())
}

fn main(rt: HostRuntime) {
    let mut keys = [0u8; 4097];
    if let Some(keys) = read_file(&rt, b"demo: ", b"keys", &mut keys) {
        let _ = run(&rt, keys);
    }
}
