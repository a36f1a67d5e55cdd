// Lists for tests: a setup on standard input, then lists, each two bytes its number of records, the high byte first, and the records. Each is given
// as one list, with as many answer places, over the bench as the one before left it, and its lines are written: so a script cut into lists gives
// the script's lines. A list that is cut is not given, and ends with `short`; one of more than 4,096 records ends with the list program's sentence.
#![tactic(auto)]

ghost use Rattle.std.specs.Prelude.{◌≤◌, length, IfSome};

use bus_bench::Bench;
use rules::Bus;
use script_streams::opening;
use std::io::{Print, Stderr, Stdin, Stdout};

// Bytes of the longest list's records.
const MOST: usize = 16384;

// Where lists are read from, and where their lines, or a sentence, are written.
#[derive(Drop)]
struct Streams {
    input: Stdin,
    output: Stdout,
    errors: Stderr,
}

// What is said of a list that is cut, and of one that is too long; no list is then given.
fn cut(to: &Stdout) {
    let _ = to.write_all(b"short\n");
}

fn too_long(to: &Stderr) {
    let mut out = [0u8; 41];
    list_lend::text::put_too_many(&mut out);
    let _ = to.write_all(&out);
}

// How many records the next list has. At the input's end there is no list.
fn count(streams: &mut Streams) -> Option<usize> {
    let mut number = [0u8; 2];
    match opening::fill(&mut streams.input, &mut number) {
        0 => None,
        1 => {
            cut(&streams.output);
            None
        }
        _ => Some(list_lend::text::number_in(&number)),
    }
}

// The next list's records, read into the room for them, if there is one and they are whole.
fn records<'a>(streams: &mut Streams, room: &'a mut [u8; MOST]) -> Option<&'a [u8]>
    ensures { IfSome result (λ bytes. length bytes.now ≤ 16384) }
{
    let count = count(streams)?;
    if MOST / 4 < count {
        too_long(&streams.errors);
        return None;
    }
    let size = 4 * count;
    let came = opening::fill(&mut streams.input, &mut room[..size]);
    if came < size {
        cut(&streams.output);
        return None;
    }
    Some(&room[..size])
}

// Records given as one list, with as many places, and its lines written.
// Kept: bus and memory apart, and no Bench: `give_records` tells a bus of which it isn't said here that it is in range.
fn give(to: &Stdout, bus: Bus, mem: &mut [u8], records: &[u8]) -> Bus
    requires { length records.now ≤ 16384 }
{
    // A list of no events changes nothing and has no lines: no rooms are filled for it.
    if records.is_empty() {
        return bus;
    }
    let mut out = [0u8; 262140];
    let told = list_lend::lend::give_records(bus, mem, records, records.len() / 4, &mut out);
    let _ = to.write_all(&out[..told.end.min(262140)]);
    told.bus
}

// List after list, until the input ends or one is not given. Of the bus that `give_records` tells it is not proved here that it is in range, so that
// bus and memory are no `Bench` from there on.
fn give_all(streams: &mut Streams, mut bench: Bench) {
    let mut bus = bench.bus;
    let mut room = [0u8; MOST];
    for _ in 0..u64::MAX {
        let Some(bytes) = records(streams, &mut room) else {
            return;
        };
        bus = give(&streams.output, bus, &mut bench.memory, bytes);
    }
}

fn main(rt: HostRuntime) {
    let mut streams = Streams {
        input: rt.stdin(),
        output: rt.stdout(),
        errors: rt.stderr(),
    };
    let mut out = [0u8; 6];
    if let Ok(bench) = opening::begin(&mut streams.input, &streams.output, &mut out) {
        give_all(&mut streams, bench);
    }
}
