// The script program: a setup and records on standard input, a line for each event on standard output. It begins by `opening`, and goes on by
// `reading`: all that decides is said and proved in `frame` and `turns`.
#![tactic(auto)]

use script_streams::{opening, reading};

// Kept: lines like those of resume, watch and show: they differ in the two functions that they call, and a main for all would be handed both.
fn main(rt: HostRuntime) {
    let mut input = rt.stdin();
    let output = rt.stdout();
    let mut out = opening::room::<65536>();
    if let Ok(mut bench) = opening::begin(&mut input, &output, &mut out) {
        reading::serve(&mut input, &output, &mut bench, &mut out);
    }
}
