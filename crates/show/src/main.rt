// The show program: a saved form's length, the form and records on standard input; on standard output a line for each present slot of the bench that
// the form restores to, and then for each record what `watch` has, or `R10` or `short`. It begins as `resume` does, by `save_opening`, and goes on as
// `watch` does, by `watch_streams`: all that decides is said and proved there and in `save_restore`. The status that a result has, the script `run`
// gives it.
#![tactic(auto)]

use script_streams::opening;

// Kept: lines like those of script: they differ in the two functions that they call, and a main for all would be handed both.
fn main(rt: HostRuntime) {
    let mut input = rt.stdin();
    let output = rt.stdout();
    let mut out = opening::room::<65536>();
    if let Ok(mut bench) = save_opening::open(&mut input, &output, &mut out) {
        let _ = watch_streams::watch(&mut input, &output, &mut bench, &mut out);
    }
}
