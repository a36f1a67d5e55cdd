// The capture program: a setup, a memory and records with the answers seen on standard input; the verdict on them as a line on standard output. It
// begins by `opening`, reads a piece at a time, hands what came to `capture_pieces`, and writes what that put at the front of the output: all that
// decides is said and proved there. The status that a verdict has, the script `run` gives it (the file statuses).
#![tactic(auto)]

ghost use Rattle.std.specs.Prelude.{◌≡◌, ◌≤◌, length};
ghost use Rattle.capture.specs.Program.{Ended, Served};

use bus_bench::Bench;
use capture_pieces::pieces;
use capture_rules::Verdict;
use rules::Bus;
use script_streams::opening;
use std::io::Stdin;

// Piece after piece, as many bytes as the buffer holds, or fewer at the input's end, until the input ends or a record differs: it goes on behind a
// full piece that agrees. A proved loop has to end, so it counts to a number that no input uses up.
fn check_records(input: &mut Stdin, bench: &mut Bench) -> Verdict
    ensures { Ended bench.old.bus bench.old.memory result }
{
    // Room for a piece: 4,096 records.
    let mut buf = opening::room::<24576>();
    let mut number = 0;
    for _ in 0..1125899906842624u64 {
        let n = opening::fill(input, &mut buf);
        let checked = pieces::piece(bench.bus, &mut bench.memory, number, &buf[..n]);
        bench.bus = checked.bus;
        number += n / pieces::RECORD;
        let verdict = pieces::closed(checked.verdict, n % pieces::RECORD);
        let on = pieces::accepted(verdict) & (n == buf.len());
        if !on {
            return verdict;
        }
    }
    Verdict::Accepted
}

// What follows the setup: the memory, then the records. Where the verdict's line ends that is then at the front of the output.
fn serve(input: &mut Stdin, bench: &mut Bench, out: &mut [u8]) -> usize
    requires { length out.old ≡ 64 }
    ensures { (result ≤ length out.new) × Served bench.old.bus out.old result out.new }
{
    let came = opening::fill(input, &mut bench.memory);
    if came < Bus::MEMORY {
        return script_text::letters::put_short(out);
    }
    let verdict = check_records(input, bench);
    capture_pieces::text::put_verdict(out, verdict)
}

fn main(rt: HostRuntime) {
    let mut input = rt.stdin();
    let output = rt.stdout();
    let mut out = [0u8; 64];
    if let Ok(mut bench) = opening::begin(&mut input, &output, &mut out) {
        let end = serve(&mut input, &mut bench, &mut out);
        opening::write(&output, &out, end);
    }
}
