// How the programs that read a setup begin: it is read, and what `frame` puts at the front of the output is written; how a room is filled from the
// input, and how such a front is written. Which output it goes to, a program says.
ghost use Rattle.std.specs.Prelude.{◌≡◌, ◌≤◌, length, replicate};
ghost use Rattle.script_streams.specs.Opened.{Opened};

use bus_bench::Bench;
use std::io::{Print, Read, Stdin};

// A room of so many zeros.
pub fn room<const N: usize>() -> [u8; N]
    ensures zeros { result ≡ replicate N 0 }
    ensures long { N ≡ length result }
{
    [0; N]
}

// One read: how many bytes came, which are then at the front of the room; none where the input has ended or the read failed.
// Kept: 0 for a failed read too: programs take it for the input's end, and must-fail/opening_failed_read_counted says that it counts nothing.
pub fn came(input: &mut Stdin, room: &mut [u8]) -> usize
    ensures { result ≤ length room.new }
{
    input.read(room).unwrap_or(0)
}

// Kept: a loop by hand: std's `read_exact` doesn't say how many bytes came before the end, and `read_to_end` needs a heap.
// Read after read, until the room is full or a read brings nothing: how many bytes came, which are then at the front of the room.
pub fn fill(input: &mut Stdin, room: &mut [u8]) -> usize
    ensures { result ≤ length room.new }
{
    let mut done = 0;
    while done < room.len() {
        let n = came(input, &mut room[done..]);
        if n == 0 {
            break;
        }
        done += n;
    }
    done
}

// Writes the front of an output, as far as its end says.
pub fn write<P: Print>(to: &P, out: &[u8], end: usize)
    requires { end ≤ length out.now }
{
    let _ = to.write_all(&out[..end]);
}

// Reads sixteen bytes, or as many as come, begins with them, and writes `short`, `R5` or nothing. Records may follow where there is a bench.
// Kept: input, output, room and bench are parameters, here and above: a program makes them one by one, and few functions need all of them.
pub fn begin<P: Print>(input: &mut Stdin, to: &P, out: &mut [u8]) -> Result<Bench, usize>
    requires { 6 ≤ length out.old }
    ensures { Opened out.old result out.new }
{
    let mut pairs = [0u8; 16];
    let n = fill(input, &mut pairs);
    let begun = script_turns::frame::begin(&pairs[..n], out);
    if let Err(end) = begun {
        write(to, out, end);
    }
    begun
}
