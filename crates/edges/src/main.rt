// A bench for what no script can reach: it reads tries, hands in the states and memories that they ask for, and writes each command with what
// came of it. `stdin` says what a line may hold, and `stdout` has what document 01 asks for.
#![tactic(auto)]

mod bench; // what a command goes on from, and what each does
mod commands; // what the tries ask for
mod names; // the words of the tries
mod report; // what is told of the tries
mod state; // what they hand in: a memory, and numbers of a slot
mod words; // the words of a command

use arrayvec::ArrayVec;
use bench::Bench;
use commands::NotUnderstood;

// Kept: the kit's io by descriptors, here and in `report`: with std's streams edges would rest on an axiom more (os::c::rattle_errno).
// The descriptor of standard input.
const STDIN_FILENO: i32 = 0;

// The next byte. A zero is as the input's end.
fn next() -> Option<u8> {
    let mut one = [0];
    io::read_full(STDIN_FILENO, &mut one);
    Some(one[0]).filter(|b| *b != 0)
}

// A command's text is written as it is read; one that is too long is none that is understood. The byte behind it: a semicolon, which in a heading is
// text, or a line's end; none where the input ends.
fn read(text: &mut ArrayVec<u8, 150>) -> Option<u8> {
    for _ in 0..u64::MAX {
        let b = next()?;
        if b == b'\n' || (b == b';' && !text.as_slice().starts_with(b"#")) {
            return Some(b);
        }
        report::copy(&[b]);
        if text.try_push(b).is_err() {
            text.as_mut_slice()[0] = b'?';
        }
    }
    None
}

// What a command asks for is done. The first of a line begins anew, unless it asks for nothing.
fn run(bench: &mut Bench, is_first: bool, text: &[u8]) -> Result<(), NotUnderstood> {
    let asked = commands::asked(text);
    if is_first && !matches!(asked, Ok(None)) {
        bench.begin();
    }
    match asked? {
        Some(c) => bench.run(c),
        None => Ok(()),
    }
}

fn main() {
    let mut bench = Bench::new();
    let mut is_first = true;
    for _ in 0..u64::MAX {
        let mut text = ArrayVec::new();
        let end = read(&mut text);
        if run(&mut bench, is_first, text.as_slice()).is_err() {
            report::say(": NOT UNDERSTOOD");
        }
        let Some(b) = end else {
            return;
        };
        report::copy(&[b]);
        is_first = b != b';';
    }
}
