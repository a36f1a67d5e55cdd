// What the tries of `edges` hand in: a memory, and numbers of a slot.
ghost use Rattle.std.specs.Prelude.{◌≤◌};

use super::commands::NotUnderstood;
use super::names::PHASES;
use super::words::Word;
use rules::{Older, Phase, Sensor, Slot};
use std::array;
use watch_text::numbers;

// A slot, number by number, in the order of `names::NUMBERS`. The last four a try hands in, and tells, of slots of every kind.
// Kept: a list beside that of the names, and no field for each, since a try hands numbers in by their places: by a name, and those that follow.
#[derive(Clone, Copy, PartialEq, Eq)]
pub struct Numbers(pub [u16; 61]);

impl From<Slot> for Numbers {
    fn from(s: Slot) -> Numbers {
        let told = numbers::numbers(s);
        let mut all = array::from_fn(|k| told.get(k).copied().unwrap_or(0));
        all[57] = u16::from(s.sensor.pending);
        all[58] = u16::from(s.old.permanent);
        all[59] = u16::from(s.old.lasting);
        all[60] = u16::from(s.old.pin);
        Numbers(all)
    }
}

// Kept: `as`, here and in `pattern`: a remainder bounds the number, and `From` has no narrowing.
fn low(v: u16) -> u8 {
    (v % 256) as u8
}

fn phase(n: u16) -> Phase {
    PHASES.get(usize::from(n)).map_or(Phase::Idle, |(_, p)| *p)
}

fn sensor(n: &[u16; 61]) -> Sensor {
    Sensor {
        pointer: low(n[48]),
        configuration: n[49],
        high: n[50],
        low: n[51],
        critical: n[52],
        temperature: n[53],
        resolution: low(n[54]),
        timeout: low(n[55]),
        word: n[56],
        pending: n[57] != 0,
    }
}

fn older(n: &[u16; 61]) -> Older {
    Older {
        permanent: n[58] != 0,
        lasting: n[59] != 0,
        pin: n[60] != 0,
    }
}

// The slot that has these numbers, as far as they fit.
impl From<Numbers> for Slot {
    fn from(numbers: Numbers) -> Slot {
        let n = numbers.0;
        Slot {
            kind: low(n[0]),
            length: low(n[1]),
            left: low(n[2]),
            half: low(n[3]),
            counter: low(n[4]),
            place: low(n[5]),
            voltage: n[6] != 0,
            phase: phase(n[7]),
            protection: array::from_fn(|i| n[8 + i] != 0),
            coming: array::from_fn(|i| n[12 + i] != 0),
            latch: array::from_fn(|i| low(n[16 + i])),
            marks: array::from_fn(|i| n[32 + i] != 0),
            sensor: sensor(&n),
            old: older(&n),
        }
    }
}

// The slot with one number handed in, if it fits: then it reads back as it was handed in.
fn with_number(old: Slot, at: usize, v: u16) -> Option<Slot> {
    let mut numbers = Numbers::from(old);
    *numbers.0.get_mut(at)? = v;
    let slot = Slot::from(numbers);
    if Numbers::from(slot) == numbers {
        Some(slot)
    } else {
        None
    }
}

// The slot with names and behind each the numbers that go there and to the places that follow, if all of them are understood and fit.
fn with_words(old: Slot, words: &[Word]) -> Option<Slot> {
    let mut slot = old;
    let mut at = None;
    for word in words {
        match *word {
            Word::Missing => at = None,
            Word::Name(place) => at = Some(place),
            Word::Number(v) => {
                let place = at?;
                slot = with_number(slot, place, v)?;
                at = place.checked_add(1);
            }
            Word::Unknown => return None,
        }
    }
    Some(slot)
}

// What is handed in needs a name and a number, and no more words than a command has.
pub fn hand_in(old: Slot, words: &[Word; 37]) -> Result<Slot, NotUnderstood> {
    match words {
        [_, Word::Name(_), Word::Number(_), .., Word::Missing] => with_words(
            old,
            &words[1..],
        ).ok_or(NotUnderstood),
        _ => Err(NotUnderstood),
    }
}

fn edge(i: usize) -> u8
    ensures { result ≤ 8 }
{
    match i {
        0 => 0,
        127 => 8,
        _ => 4,
    }
}

// The byte at a place: its slot in the high digit; in the low one its block, and 8 more if it is the block's last byte, 4 more if it is
// neither first nor last.
fn pattern(at: usize) -> u8 {
    let slot = (at / 512 % 16) as u8;
    let block = (at / 128 % 4) as u8;
    16 * slot + block + edge(at % 128)
}

// A memory or a shelf, filled anew.
pub fn filled() -> [u8; 8192] {
    array::from_fn(pattern)
}
