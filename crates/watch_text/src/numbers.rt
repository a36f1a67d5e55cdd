// Every number of a slot, by its place in the slot's line. specs/Numbers has them in their order.
ghost use Rattle.std.specs.Prelude.{◌≡◌, get_or};
ghost use Rattle.proof_lists.specs.Same.{same};
ghost use Rattle.watch_text.specs.Numbers.{plain_numbers, sensor_numbers, pin_numbers, older_numbers, kind_numbers, numbers_of, three, sixty};

use rules::{Older, Sensor, Slot};
use script_text::letters::put;

// How many they are at most, and how many without those that a slot has by its kind.
pub const COUNT: usize = 60;

pub const COMMON: usize = 57;

// Those that are no arrays and not the sensor's.
fn plain_numbers(s: Slot) -> [u16; 8]
    ensures { result ≡ plain_numbers s }
{
    [
        u16::from(s.kind),
        u16::from(s.length),
        u16::from(s.left),
        u16::from(s.half),
        u16::from(s.counter),
        u16::from(s.place),
        u16::from(s.voltage),
        s.phase as u16,
    ]
}

#[tactic(auto, unfolding(crate::specs::Numbers::sensor_numbers))]
fn sensor_numbers(x: Sensor) -> [u16; 9]
    ensures { result ≡ sensor_numbers x }
{
    [
        u16::from(x.pointer),
        x.configuration,
        x.high,
        x.low,
        x.critical,
        x.temperature,
        u16::from(x.resolution),
        u16::from(x.timeout),
        x.word,
    ]
}

fn pin_numbers(x: Sensor) -> [u16; 3]
    ensures { result ≡ pin_numbers x }
{
    let p = bus_sensor::pin::pin(x);
    [p.asserted, p.level, x.pending].map(u16::from)
}

fn older_numbers(x: Older) -> [u16; 3]
    ensures { result ≡ older_numbers x }
{
    [x.permanent, x.lasting, x.pin].map(u16::from)
}

// Those that a slot has by its kind, a sensor's or an older module's; noughts where it has none.
fn kind_numbers(s: Slot) -> [u16; 3]
    ensures { result ≡ three (kind_numbers s) }
{
    if s.has_sensor() {
        pin_numbers(s.sensor)
    } else if s.is_older() {
        older_numbers(s.old)
    } else {
        [0; 3]
    }
}

// All of them, noughts behind the last.
pub fn numbers(s: Slot) -> [u16; COUNT]
    ensures { result ≡ sixty (numbers_of s) }
{
    let mut all = [0; COUNT];
    let protection = put(&mut all, 0, &plain_numbers(s));
    let coming = put(&mut all, protection, &s.protection.map(u16::from));
    let latch = put(&mut all, coming, &s.coming.map(u16::from));
    let marks = put(&mut all, latch, &s.latch.map(u16::from));
    let sensor = put(&mut all, marks, &s.marks.map(u16::from));
    let kind = put(&mut all, sensor, &sensor_numbers(s.sensor));
    put(&mut all, kind, &kind_numbers(s));
    all
}

// The number at a place; behind the last there is none, and it is 0.
// Kept: by its place, which is no kind, as Numbers.numbers_of has them. Who wants more than one takes `numbers`: each call reckons all.
pub fn number(s: Slot, k: usize) -> u16
    ensures { result ≡ get_or (numbers_of s) k 0 }
{
    numbers(s).get(k).copied().unwrap_or(0)
}

// Whether two slots have the same numbers.
pub fn same_numbers(a: Slot, b: Slot) -> bool
    ensures { result ≡ same (numbers_of a) (numbers_of b) }
{
    numbers(a) == numbers(b)
}
