// How programs begin with a saved form: its length and the form are read, the form is restored to memory as it starts, and what is then put at the
// front of the output is written. All that decides is said and proved in `begin` and in `save_restore`.
#![tactic(auto)]

ghost use Rattle.std.specs.Prelude.{◌≡◌, ◌≤◌, length};
ghost use Rattle.save_opening.specs.Opening.{form_bytes, wanted_bytes, begin_of};
ghost use Rattle.save_opening.specs.Opened.{Opened};

use bus_bench::Bench;
use rules::{Answer, Refusal};
use script_streams::opening;
use std::io::{Print, Stdin};

// The most bytes that a form's length may say.
const MOST: usize = 65535;

// The length that the first four bytes say, the highest first.
// Kept: `as`: no `usize::from` takes a u32.
fn form_bytes(head: &[u8]) -> usize
    requires { 4 ≤ length head.now }
    ensures { result ≡ form_bytes head.now }
{
    u32::from_be_bytes([head[0], head[1], head[2], head[3]]) as usize
}

// How many bytes are to be read as the form: none where its length is cut or too large.
// Kept: 0 and no Option: no byte is read then, and what it is refused for `begin` says, of what was read alone (Opening.wanted_bytes, .begin_of).
fn wanted(head: &[u8]) -> usize
    ensures { (result ≡ wanted_bytes head.now) × (result ≤ 65535) }
{
    if head.len() < 4 {
        return 0;
    }
    let size = form_bytes(head);
    if MOST < size {
        return 0;
    }
    size
}

// The beginning, from the bytes that were read as the form's length and as the form: the bench that the form restores to, over memory as it starts,
// with nothing put; or, where none follows, `short` or `R10` put at the front of the output, and where that ends.
fn begin(head: &[u8], form: &[u8], out: &mut [u8]) -> Result<Bench, usize>
    requires { 6 ≤ length out.old }
    ensures { begin_of head.now form.now out.old ≡ (result, out.new) }
{
    if head.len() < 4 {
        return Err(script_text::letters::put_short(out));
    }
    let size = form_bytes(head);
    if MOST < size {
        return Err(script_text::letters::put_line(out, 0, Answer::Refused(Refusal::WrongForm)));
    }
    if form.len() < size {
        return Err(script_text::letters::put_short(out));
    }
    let mut bench = Bench::new(bus_setup::empty_bus());
    let restored = save_restore::restore(bench.bus, &mut bench.memory, form);
    if let Answer::Refused(why) = restored.answer {
        return Err(script_text::letters::put_line(out, 0, Answer::Refused(why)));
    }
    bench.bus = restored.bus;
    Ok(bench)
}

// Reads four bytes, then as many as they say, or as many as come, begins with them, and writes `short`, `R10` or nothing. Records may follow where
// there is a bench.
// Kept: beside script_streams' begin: that one reads sixteen bytes, this one a length and a form; only the last lines are the same.
pub fn open<P: Print>(input: &mut Stdin, to: &P, out: &mut [u8]) -> Result<Bench, usize>
    requires { 6 ≤ length out.old }
    ensures { Opened out.old result out.new }
{
    let mut head = [0u8; 4];
    let n = opening::fill(input, &mut head);
    let size = wanted(&head[..n]);
    let mut form = opening::room::<65536>();
    let came = opening::fill(input, &mut form[..size]);
    let begun = begin(&head[..n], &form[..came], out);
    if let Err(end) = begun {
        opening::write(to, out, end);
    }
    begun
}
