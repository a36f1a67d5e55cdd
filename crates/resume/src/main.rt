// The resume program: a saved form's length, the form and records on standard input; a line for each event on standard output, from the bench that
// the form restores to. It begins by `save_opening` and goes on by `reading`: all that decides is said and proved there and in `save_restore`. The
// status that a result has, the script `run` gives it.
#![tactic(auto)]

use script_streams::{opening, reading};

// Kept: lines like those of script: they differ in the two functions that they call, and a main for all would be handed both.
fn main(rt: HostRuntime) {
    let mut input = rt.stdin();
    let output = rt.stdout();
    let mut out = opening::room::<65536>();
    if let Ok(mut bench) = save_opening::open(&mut input, &output, &mut out) {
        reading::serve(&mut input, &output, &mut bench, &mut out);
    }
}
