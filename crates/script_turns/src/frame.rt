// What stands around the script program's turns: the beginning and the end. Each takes what was read and puts what is to be written at the front of a
// lent output. Their `requires` are about the sizes of the buffers; the program meets them, and is proved to.
// Kept: a lent output with its end beside it, here and in the crates above: `Frame.begin_of`, `Steps.turn_of` and their `-decides` theorems say every
// byte of the output, those behind the end too, and a program has no heap for a text of its own.
ghost use Rattle.std.specs.Prelude.{◌≡◌, ◌≤◌, length};
ghost use Rattle.script_turns.specs.Frame.{begin_of, finish_of};

use bus_bench::Bench;
use rules::Answer;

// The beginning, from the bytes that were read as setup: fewer than sixteen are a setup that is cut. The bench that records are run on, with nothing
// put; or, where none follow, `short` or `R5` put at the front of the output, and where that ends.
// Kept: room for six bytes, here and above: programs lend 6, 64, 4,287, 65,536 and 262,140 bytes, and an array's type would refuse all but one.
pub fn begin(bytes: &[u8], out: &mut [u8]) -> Result<Bench, usize>
    requires { 6 ≤ length out.old }
    ensures { begin_of bytes.now out.old ≡ (result, out.new) }
{
    if bytes.len() < 16 {
        return Err(script_text::letters::put_short(out));
    }
    match Bench::set_up(script_text::records::pairs(bytes)) {
        Ok(bench) => Ok(bench),
        Err(why) => Err(script_text::letters::put_line(out, 0, Answer::Refused(why))),
    }
}

// The input's end: `short` where bytes of a record are held, and otherwise nothing.
pub fn finish(held: usize, out: &mut [u8]) -> usize
    requires { 6 ≤ length out.old }
    ensures { finish_of held out.old ≡ (result, out.new) }
{
    if held == 0 {
        return 0;
    }
    script_text::letters::put_short(out)
}
