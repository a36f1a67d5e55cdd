// The script program's turns, one for each piece of the input: the records that have come are run, and their lines put at the front of a lent
// output. The `requires` are about the sizes of the buffers and the counts in them; the program meets them, and is proved to.
ghost use Rattle.std.specs.Prelude.{◌≡◌, ◌+◌, ◌≤◌, length};
ghost use Rattle.script_turns.specs.Steps.{run_of, turn_of};

use bus_bench::Bench;
use rules::Outcome;

// Runs the whole records of some bytes, and puts their lines at the beginning of out, which has room for a line of four bytes a record;
// what stands behind the lines stays. Where the lines end.
// Kept: the bus in a local, put back at the end: tried, `bench.event(..)` for each record takes `script` 1.35 times the time, since the bus is then
// copied out of the bench and back.
fn run(bench: &mut Bench, records: &[u8], out: &mut [u8]) -> usize
    requires { length records.now ≤ length out.old }
    ensures { run_of bench.old records.now out.old ≡ (result, bench.new, out.new) }
{
    let mut x = Outcome::taken(bench.bus);
    let mut end = 0;
    for four in records.chunks_exact(4) {
        let e = script_text::records::record_at(four, 0);
        x = bus_event::event_in_range(x.bus, &mut bench.memory, e);
        end = script_text::letters::put_line(out, end, x.answer);
    }
    bench.bus = x.bus;
    end
}

// Where a turn's lines end, and how many bytes of a cut record are held at the front of the buffer.
#[derive(Clone, Copy)]
pub struct Turned {
    pub end: usize,
    pub held: usize,
}

// One turn: `held` bytes stood at the front of the buffer, and n more have come behind them. Runs the whole records among them, with their
// lines at the front of the output, and moves what is left to the front of the buffer, where the rest of it will follow.
// Kept: a buffer and how many bytes it holds: Steps.turn_of and turns/Determined.turn-decides say every byte of it, those behind the held ones too.
pub fn turn(bench: &mut Bench, buf: &mut [u8], held: usize, n: usize, out: &mut [u8]) -> Turned
    requires { (held + n ≤ length buf.old) × (length buf.old ≤ length out.old) }
    ensures { turn_of bench.old buf.old held n out.old ≡ (result, bench.new, buf.new, out.new) }
{
    let come = held + n;
    let whole = come / 4 * 4;
    let end = run(bench, &buf[..come], out);
    buf.copy_within(whole..come, 0);
    Turned {
        end,
        held: come - whole,
    }
}
