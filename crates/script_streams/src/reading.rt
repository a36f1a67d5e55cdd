// Records run, read by read to the input's end: for the programs `script` and `resume`, which write a line for each as they come, and for `plan`
// and `save`, which write none. What came goes to `turns`, and the end to `frame`: all that decides is said and proved there.
ghost use Rattle.std.specs.Prelude.{◌≡◌, length};
ghost use Rattle.std.specs.Result.{result_ok};
ghost use Rattle.script_streams.specs.Reading.{Ended, Served};

use super::opening;
use bus_bench::Bench;
use std::io::{Print, Stdin, Stdout};

// Read after read, each behind the bytes that are held, until the input ends: all records that come are run, and the lines of those that have come
// are told before more is waited for. How many bytes of a cut record are then held; or why the telling failed, after which no more is read. A proved
// loop has to end, so it counts to a number that no input uses up.
// Kept: the room's length in a clause, here and in watch_streams and plan: those that the room is lent on to take it as a slice of some length.
pub fn run_records<E, F: FnMut(&[u8]) -> Result<(), E>>(
    input: &mut Stdin,
    bench: &mut Bench,
    mut tell: F,
    out: &mut [u8],
) -> Result<usize, E>
    requires callable { F.IsAlwaysCallable tell }
    requires room { length out.old ≡ 65536 }
    ensures { Ended bench.old out.old (result_ok result) bench.new out.new }
{
    let mut buf = opening::room::<65536>();
    let mut held = 0;
    for _ in 0..u64::MAX {
        let n = opening::came(input, &mut buf[held..]);
        let turned = script_turns::turns::turn(bench, &mut buf, held, n, out);
        held = turned.held;
        tell(&out[..turned.end])?;
        if n == 0 {
            return Ok(held);
        }
    }
    Ok(held)
}

// Records served, a line for each, and at the input's end the last line. After a write that failed nothing more is written.
pub fn serve(input: &mut Stdin, to: &Stdout, bench: &mut Bench, out: &mut [u8])
    requires { length out.old ≡ 65536 }
    ensures { Served bench.old out.old bench.new out.new }
{
    if let Ok(held) = run_records(input, bench, |lines| to.write_all(lines), out) {
        let end = script_turns::frame::finish(held, out);
        opening::write(to, out, end);
    }
}
