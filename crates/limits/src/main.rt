// The limits of documents 01 and 02 and each refusal, run. The second implementation (tests/reference, src/bin/limits.rs) runs the same cases: its lines are the stored ones.
#![tactic(auto)]

mod calls;
mod line;
mod line_end;
mod longest;
mod mark;
mod output;
mod refusal;
mod size;
mod text;
mod vacant;
mod version;

use calls::{Bench, Out};

// The limits.
fn limit(bench: &mut Bench, a: &mut Out, b: &mut Out) {
    size::sizes(bench, a);
    output::outputs(bench, a);
    version::versions(bench, a, b);
}

// The refusals.
fn refuse(bench: &mut Bench, out: &mut Out) {
    refusal::key_refusals(bench);
    refusal::version_refusals(bench, out);
    refusal::archive_refusals(bench, out);
}

fn main(rt: HostRuntime) {
    let mut a = [0u8; 32768];
    let mut b = [0u8; 32768];
    let mut work = [0u32; 16384];
    let mut bench = Bench {
        rt: &rt,
        keys: b"(/, (s, {}))\n(/s, (f, {}))\n(/s, (k, {p}))\n",
        work: &mut work,
    };
    limit(&mut bench, &mut a, &mut b);
    refuse(&mut bench, &mut a);
    size::archive_nodes(&mut bench, &mut a, &mut b);
    mark::marks(&mut bench, &mut a);
    vacant::vacancies(&mut bench, &mut a);
    longest::lines(&mut bench, &mut a);
    line_end::line_ends(&mut bench, &mut a, &mut b);
}
