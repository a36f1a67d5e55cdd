// Slots' lines, put into a lent output: a slot's own, and those of all present slots whose numbers changed.
ghost use Rattle.std.specs.Prelude.{◌≡◌, ◌+◌, ◌≤◌, length, map};
ghost use Rattle.std.proofs.lemmas.List.Edits.{sets};
ghost use Rattle.script_text.specs.Quoted.{quoted};
ghost use Rattle.watch_text.specs.Numbers.{numbers_of};
ghost use Rattle.watch_text.specs.Lines.{kind_names, names, text_of, texts_of, number_texts, slot_line, change_line, change_lines, bench_lines};

use super::numbers;
use rules::{Bus, Slot};
use script_text::letters::{put, put_decimal};

// The names of a slot's numbers, in their order: first those that every slot has, then the EVENT pin's and an older module's.
const NAMES: [&str; 57] = [
    "kind",
    "length",
    "left",
    "half",
    "counter",
    "place",
    "voltage",
    "phase",
    "protection0",
    "protection1",
    "protection2",
    "protection3",
    "coming0",
    "coming1",
    "coming2",
    "coming3",
    "latch0",
    "latch1",
    "latch2",
    "latch3",
    "latch4",
    "latch5",
    "latch6",
    "latch7",
    "latch8",
    "latch9",
    "latch10",
    "latch11",
    "latch12",
    "latch13",
    "latch14",
    "latch15",
    "mark0",
    "mark1",
    "mark2",
    "mark3",
    "mark4",
    "mark5",
    "mark6",
    "mark7",
    "mark8",
    "mark9",
    "mark10",
    "mark11",
    "mark12",
    "mark13",
    "mark14",
    "mark15",
    "pointer",
    "configuration",
    "high",
    "low",
    "critical",
    "temperature",
    "resolution",
    "timeout",
    "word",
];

const PIN_NAMES: [&str; 3] = ["asserted", "level", "pending"];

const OLDER_NAMES: [&str; 3] = ["permanent", "lasting", "write-protect"];

// A number by its name, put at a place; the place after it.
#[tactic(auto, unfolding(crate::specs::Lines::text_of))]
fn put_text(out: &mut [u8], at: usize, name: &str, number: u16) -> usize
    requires { at + length (text_of name.now number) ≤ length out.old }
    ensures { (result ≡ at + length (text_of name.now number)) × (out.new ≡ sets out.old at (text_of name.now number)) }
{
    let start = put(out, at, b" ");
    let sign = put(out, start, name.as_bytes());
    let digits = put(out, sign, b"=");
    put_decimal(out, digits, usize::from(number))
}

// Numbers by their names, of which there may be fewer, or more; the place after them.
fn put_texts(out: &mut [u8], from: usize, names: &[&str], numbers: &[u16]) -> usize
    requires { from + length (texts_of (map (λ name. name.now) names.now) numbers.now) ≤ length out.old }
    ensures { (result ≡ from + length (texts_of (map (λ name. name.now) names.now) numbers.now))
        × (out.new ≡ sets out.old from (texts_of (map (λ name. name.now) names.now) numbers.now)) }
{
    let mut at = from;
    for (name, number) in names.iter().zip(numbers) {
        at = put_text(out, at, name, *number);
    }
    at
}

// Those that a slot has by its kind.
fn put_own(out: &mut [u8], at: usize, s: Slot, numbers: &[u16]) -> usize
    requires { at + length (texts_of (map quoted (kind_names s)) numbers.now) ≤ length out.old }
    ensures { (result ≡ at + length (texts_of (map quoted (kind_names s)) numbers.now))
        × (out.new ≡ sets out.old at (texts_of (map quoted (kind_names s)) numbers.now)) }
{
    if s.has_sensor() {
        put_texts(out, at, &PIN_NAMES, numbers)
    } else if s.is_older() {
        put_texts(out, at, &OLDER_NAMES, numbers)
    } else {
        at
    }
}

// All numbers of a slot with their names; the place after them.
fn put_numbers(out: &mut [u8], from: usize, s: Slot) -> usize
    requires { from + 3108 ≤ length out.old }
    ensures { (result ≡ from + length (number_texts (names s) (numbers_of s)))
        × (out.new ≡ sets out.old from (number_texts (names s) (numbers_of s))) × (result ≤ from + 3108) }
{
    let all = numbers::numbers(s);
    let own = put_texts(out, from, &NAMES, &all);
    put_own(out, own, s, &all[numbers::COMMON..])
}

// A slot's line: its number, all its numbers by their names, and the line's end.
fn put_slot(out: &mut [u8], at: usize, n: usize, s: Slot) -> usize
    requires { (n ≤ 8) × (at + 3110 ≤ length out.old) }
    ensures { (result ≡ at + length (slot_line n s)) × (out.new ≡ sets out.old at (slot_line n s)) × (result ≤ at + 3110) }
{
    let first = put_decimal(out, at, n);
    let last = put_numbers(out, first, s);
    put(out, last, b"\n")
}

// The line of a slot that is present and whose numbers are no longer what they were; of any other nothing.
#[tactic(auto, unfolding(crate::specs::Lines::change_line))]
fn put_change(out: &mut [u8], at: usize, n: usize, was: Slot, is: Slot) -> usize
    requires { (n ≤ 8) × (at + 3110 ≤ length out.old) }
    ensures { (result ≡ at + length (change_line n was is)) × (out.new ≡ sets out.old at (change_line n was is))
        × (result ≤ at + 3110) }
{
    if is.is_absent() || numbers::same_numbers(was, is) {
        return at;
    }
    put_slot(out, at, n, is)
}

// The lines of all such slots, in their order.
pub fn put_changes(out: &mut [u8], from: usize, was: [Slot; 8], is: [Slot; 8]) -> usize
    requires { from + 24880 ≤ length out.old }
    ensures { (result ≡ from + length (change_lines was is)) × (out.new ≡ sets out.old from (change_lines was is))
        × (result ≤ from + 24880) }
{
    let mut at = from;
    for (n, (was, is)) in was.iter().zip(&is).enumerate() {
        at = put_change(out, at, n, *was, *is);
    }
    at
}

// The lines of all present slots of a bus, put at the front of the output: where there was none, each has changed. Where they end.
pub fn put_bench(out: &mut [u8], bus: Bus) -> usize
    requires { 24880 ≤ length out.old }
    ensures { (result ≡ length (bench_lines bus)) × (out.new ≡ sets out.old 0 (bench_lines bus)) × (result ≤ 24880) }
{
    put_changes(out, 0, bus_setup::empty_bus().slots, bus.slots)
}
