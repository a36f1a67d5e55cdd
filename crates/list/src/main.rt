// The list program: a setup, a number of answer places and records on standard input; the records given as one list, and a line for each answer
// place on standard output, or what stands in the way. Its input is bounded: so it is one read, one function, `written`, whose contract says all
// that is written for what came, and one write. The status that a result has, the script `run` gives it (the file statuses).
#![tactic(auto)]

ghost use Rattle.std.specs.Prelude.{◌≡◌, ◌≤◌, length};
ghost use Rattle.list_lend.specs.Listed.{number_in};
ghost use Rattle.list.specs.Asked.{answer_of, end_of, fronted, put_for, written_for};

use bus_bench::Bench;
use script_streams::opening;

// Bytes of one record more than a list may have; and of setup, number of places and so many records, which is all that is ever looked at.
const TOO_MANY: usize = 16388;

const INPUT: usize = 16406;

// Room for the most lines, four bytes for each of 65,535 places.
const OUTPUT: usize = 262140;

// Where what is written in the end ends in the output, at whose front it is: `Ok` for standard output, `Err` for standard error.
type Answered = Result<usize, usize>;

// Records that are whole, given as one list; where its lines, or its refusal's, end, which are then at the front of the output.
fn given(mut bench: Bench, number: &[u8], records: &[u8], out: &mut [u8]) -> usize
    requires { (2 ≤ length number.now) × (length records.now ≤ 16384) × (262140 ≤ length out.old) }
    ensures { put_for bench number.now records.now out.old ≡ (result, out.new) }
{
    let places = list_lend::text::number_in(number);
    let told = list_lend::lend::give_records(bench.bus, &mut bench.memory, records, places, out);
    told.end
}

// The answer, put at the front of the output: the sentence for too many records; `short` where the number of places or a record is cut; otherwise
// the list's lines, or what it is refused for. That two bytes say at most 65,535 is what bounds the lines.
fn answer(bench: Bench, number: &[u8], records: &[u8], out: &mut [u8]) -> Answered
    requires { (length records.now ≤ 16388) × (262140 ≤ length out.old) }
    ensures { (number_in number.now ≤ 65535) × (answer_of bench number.now records.now out.old ≡ (result, out.new)) }
{
    if records.len() == TOO_MANY {
        return Err(list_lend::text::put_too_many(out));
    }
    if (number.len() < 2) | (records.len() % 4 != 0) {
        return Ok(script_text::letters::put_short(out));
    }
    Ok(given(bench, number, records, out))
}

// All that is to be written for all that came, put at the front of the output: what a cut or a bad setup gets, or the answer to what follows it.
fn written(input: &[u8], out: &mut [u8]) -> Answered
    requires { (length input.now ≤ 16406) × (262140 ≤ length out.old) }
    ensures { (end_of result ≤ length out.new) × (fronted result out.new ≡ written_for input.now) }
{
    let head = input.len().min(16);
    let places = input.len().min(18);
    match script_turns::frame::begin(&input[..head], out) {
        Ok(bench) => answer(bench, &input[head..places], &input[places..], out),
        Err(end) => Ok(end),
    }
}

// One read, one answer, one write. Of an input that goes on behind one record too many the rest is not read: the answer is the same.
fn main(rt: HostRuntime) {
    let mut input = [0u8; INPUT];
    let mut out = [0u8; OUTPUT];
    let came = opening::fill(&mut rt.stdin(), &mut input);
    match written(&input[..came], &mut out) {
        Ok(end) => opening::write(&rt.stdout(), &out, end),
        Err(end) => opening::write(&rt.stderr(), &out, end),
    }
}
