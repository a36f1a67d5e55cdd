// The plan program: a setup, a memory, a slot, an image and records on standard input; the plan for the slot and the image, after the records, on
// standard output. It begins by `opening`, reads, runs the records by `reading`, hands what came to `plan_entry` and `plan_pages::text`, and
// writes what was put at the front of the output: all that decides is said and proved there and in `answer`. The status that a result has, the
// script `run` gives it (the file statuses).
#![tactic(auto)]

ghost use Rattle.std.specs.Prelude.{◌≡◌, ◌≤◌, length};
ghost use Rattle.plan.specs.Asked.{answer_of};
ghost use Rattle.plan.specs.Went.{Served};

use bus_bench::Bench;
use rules::SlotNo;
use script_streams::{opening, reading};
use std::convert::Infallible;
use std::io::Stdin;

// The answer, put at the front of the output, and where it ends: `short` where not all bytes of memory, slot and image came, or bytes of a record
// are left over; otherwise the plan, or what it is refused for.
fn answer(
    bench: &Bench,
    slot: SlotNo,
    image: &[u8],
    came: usize,
    left: usize,
    out: &mut [u8],
) -> usize
    requires { length out.old ≡ 65536 }
    ensures { answer_of bench.now slot image.now came left out.old ≡ (result, out.new) }
{
    if came < 4609 {
        return script_text::letters::put_short(out);
    }
    if left != 0 {
        return script_text::letters::put_short(out);
    }
    let mut records = [0u8; 4096];
    let planned = plan_entry::plan(bench.bus, &bench.memory, slot, image, &mut records);
    plan_pages::text::put_plan(out, planned, &records)
}

// What follows the setup: memory, slot and image, then records to the end of the input, which may be behind us already. Where the answer ends that
// is then at the front of the output.
fn serve(input: &mut Stdin, bench: &mut Bench, out: &mut [u8]) -> usize
    requires { length out.old ≡ 65536 }
    ensures { (result ≤ length out.new) × Served bench.old out.old result out.new }
{
    let mut slot = [0u8; 1];
    let mut image = [0u8; 512];
    let bytes = opening::fill(input, &mut bench.memory);
    let number = opening::fill(input, &mut slot);
    let wanted = opening::fill(input, &mut image);
    let came = bytes + number + wanted;
    let Ok(held) = reading::run_records::<Infallible, _>(input, bench, |_| Ok(()), out);
    answer(bench, SlotNo(slot[0]), &image, came, held, out)
}

fn main(rt: HostRuntime) {
    let mut input = rt.stdin();
    let output = rt.stdout();
    let mut out = opening::room::<65536>();
    if let Ok(mut bench) = opening::begin(&mut input, &output, &mut out) {
        let end = serve(&mut input, &mut bench, &mut out);
        opening::write(&output, &out, end);
    }
}
