// A bench watched, for the programs `watch` and `show`: all its slots are told, and then record by record the script's line and each slot whose
// numbers changed. What a record puts is said and proved here, and what a slot's line is in `watch_text`.
#![tactic(auto)]

ghost use Rattle.std.specs.Prelude.{◌≡◌, ◌≤◌, length, is_ok};
ghost use Rattle.watch_streams.specs.Steps.{step_of, onward};
ghost use Rattle.watch_streams.specs.Reading.{Watched};

use bus_bench::Bench;
use std::io;
use std::io::{Print, Stdin, Stdout};

// A record is run, and its line and those of the slots that it changed are put at the front of the output; of fewer bytes, with which the input ends,
// the last line is. Where what is put ends.
fn step(bench: &mut Bench, bytes: &[u8], out: &mut [u8]) -> usize
    requires { 24884 ≤ length out.old }
    ensures { (step_of bench.old bytes.now out.old ≡ (result, bench.new, out.new)) × (result ≤ length out.old) }
{
    if bytes.len() < 4 {
        return script_turns::frame::finish(bytes.len(), out);
    }
    let was = bench.bus.slots;
    let answer = bench.event(script_text::records::record_at(bytes, 0));
    let line = script_text::letters::put_line(out, 0, answer);
    watch_text::lines::put_changes(out, line, was, bench.bus.slots)
}

// Whether a next record is waited for: where what was put for this one could be told, and it was whole; or why it could not.
fn onward<E: Drop>(told: Result<(), E>, n: usize) -> Result<bool, E>
    ensures { result ≡ onward told n }
{
    told.map(|()| 4 <= n)
}

// All present slots, and then record after record, until the input ends or a write fails: what is told of a record is written before the next is
// waited for. Whether all of it is written. A proved loop has to end, so it counts to a number that no input uses up.
pub fn watch(input: &mut Stdin, to: &Stdout, bench: &mut Bench, out: &mut [u8]) -> io::Result<()>
    requires { length out.old ≡ 65536 }
    ensures { Watched bench.old out.old (is_ok result) bench.new out.new }
{
    let end = watch_text::lines::put_bench(out, bench.bus);
    to.write_all(&out[..end])?;
    let mut four = [0u8; 4];
    for _ in 0..u64::MAX {
        let n = script_streams::opening::fill(input, &mut four);
        let end = step(bench, &four[..n], out);
        if !onward(to.write_all(&out[..end]), n)? {
            return Ok(());
        }
    }
    Ok(())
}
