// The save program: a setup and records on standard input; the bench's saved form after the records on standard output, or what stands in the way
// on standard error. It begins by `opening`, runs the records by `reading`, and writes what `answer` puts at the front of the output: all that
// decides is said and proved there and in `save_entry`. The status that a result has, the script `run` gives it.
#![tactic(auto)]

ghost use Rattle.std.specs.Prelude.{◌≡◌, ◌≤◌, length};
ghost use Rattle.save.specs.Asked.{longest_form, end_of, answer_of};
ghost use Rattle.save.specs.Program.{Served};

use bus_bench::Bench;
use rules::Answer;
use script_streams::{opening, reading};
use std::convert::Infallible;
use std::io::Stdin;

// Bytes of the longest form, that of eight slots of kind 2, in one of which a change is pending: five heads of 3, and in them 16, 4,096, 32, 120
// and 8.
const LONGEST: usize = 4287;

// The answer, put at the front of the output, and where it ends: the bench's form, for standard output; or a line, for standard error, `short` where
// bytes of a record are left over, and otherwise what the saving is refused for.
fn answer(bench: &Bench, left: usize, out: &mut [u8]) -> Result<usize, usize>
    requires { length out.old ≡ longest_form }
    ensures { answer_of bench.now left out.old ≡ (result, out.new) }
{
    if left != 0 {
        return Err(script_text::letters::put_short(out));
    }
    match save_entry::save(bench.bus, &bench.memory, out) {
        Ok(n) => Ok(n),
        Err(why) => Err(script_text::letters::put_line(out, 0, Answer::Refused(why))),
    }
}

// What follows the setup: records to the end of the input. Their lines go into a buffer of their own, and nobody reads them. Then the answer, which
// is at the front of the output.
fn serve(input: &mut Stdin, bench: &mut Bench, out: &mut [u8]) -> Result<usize, usize>
    requires { length out.old ≡ longest_form }
    ensures { (end_of result ≤ length out.new) × Served bench.old out.old result out.new }
{
    let mut lines = opening::room::<65536>();
    let Ok(held) = reading::run_records::<Infallible, _>(input, bench, |_| Ok(()), &mut lines);
    answer(bench, held, out)
}

fn main(rt: HostRuntime) {
    let mut input = rt.stdin();
    let mut out = [0u8; LONGEST];
    if let Ok(mut bench) = opening::begin(&mut input, &rt.stderr(), &mut out) {
        match serve(&mut input, &mut bench, &mut out) {
            Ok(form) => opening::write(&rt.stdout(), &out, form),
            Err(line) => opening::write(&rt.stderr(), &out, line),
        }
    }
}
