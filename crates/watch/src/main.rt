// The watch program: a script on standard input; on standard output the script's lines, and with them a line for each slot whose numbers changed.
// It begins as the script does, by `opening`, and goes on by `watch_streams`: all that decides is said and proved there and in `watch_text`.
#![tactic(auto)]

use script_streams::opening;

// Kept: lines like those of script: they differ in the two functions that they call, and a main for all would be handed both.
fn main(rt: HostRuntime) {
    let mut input = rt.stdin();
    let output = rt.stdout();
    let mut out = opening::room::<65536>();
    if let Ok(mut bench) = opening::begin(&mut input, &output, &mut out) {
        let _ = watch_streams::watch(&mut input, &output, &mut bench, &mut out);
    }
}
