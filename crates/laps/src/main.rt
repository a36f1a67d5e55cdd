// Laps for the benchmarks: a letter and a count on standard input, as `s 1000`, and so many laps of what the letter asks for: `s`, `r`, `c` in
// `forms`, `l`, `o` in `lists`; then `done` on standard output. So that the compiler leaves no lap out, each lap's result is the next one's input.
#![tactic(auto)]

mod count;
mod forms;
mod lists;

// Kept: the kit's io by descriptors: with std's streams laps would rest on an axiom more (os::c::rattle_errno).
// The standard streams, by their numbers.
const STDIN: i32 = 0;

const STDOUT: i32 = 1;

const STDERR: i32 = 2;

// What is done so many times.
#[derive(Clone, Copy)]
enum Lap {
    Save,
    Restore,
    Copy,
    // Sixty-four events: in one call, and one by one.
    List,
    Events,
}

// The lap that a letter asks for.
impl TryFrom<u8> for Lap {
    type Error = ();

    fn try_from(letter: u8) -> Result<Lap, ()> {
        match letter {
            b's' => Ok(Lap::Save),
            b'r' => Ok(Lap::Restore),
            b'c' => Ok(Lap::Copy),
            b'l' => Ok(Lap::List),
            b'o' => Ok(Lap::Events),
            _ => Err(()),
        }
    }
}

// What a line asks for, and how many times.
fn asked(line: &[u8]) -> Option<(Lap, u64)> {
    let (letter, count) = count::asked(line)?;
    Some((Lap::try_from(letter).ok()?, count))
}

fn usage() {
    io::write_all(
        STDERR,
        b"laps: say s, r, c, l or o, a blank and a count, as in: s 1000\n",
    );
}

fn main() {
    let mut line = [0u8; 64];
    let n = io::read_full(STDIN, &mut line);
    match asked(&line[..n]) {
        Some((Lap::Save, count)) => forms::save(count),
        Some((Lap::Restore, count)) => forms::restore(count),
        Some((Lap::Copy, count)) => forms::copy(count),
        Some((Lap::List, count)) => lists::run(count, lists::in_one_call),
        Some((Lap::Events, count)) => lists::run(count, lists::one_by_one),
        None => usage(),
    }
}
