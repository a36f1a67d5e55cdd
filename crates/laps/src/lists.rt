// Laps of lists: sixty-four events on a bench with eight slots of kind 2, in one call each (`l`), or one by one (`o`). Each lap's bus and memory
// are the next one's input, and `done` is written only where the answers of every lap come to the same sum as those of a first.
ghost use Rattle.std.specs.Prelude.{◌≡◌, replicate};
ghost use Rattle.list_entry.specs.Lists.{events_of};
ghost use Rattle.rules.specs.declared.Answer.TheVariants.{Nothing};

use super::{STDERR, STDOUT};
use rules::{Answer, Bus, Event, Pair, SlotNo};

// The bus after some events, and the sum of what their answers weigh.
#[derive(Clone, Copy)]
pub struct Summed {
    bus: Bus,
    sum: u8,
}

// What an answer weighs in a sum.
// Kept: numbers of this program alone, by which sums differ where answers do: a From would give them to every program that has Answers.
fn weight(answer: Answer) -> u8 {
    match answer {
        Answer::Nothing => 1,
        Answer::Ack => 2,
        Answer::Nack => 3,
        Answer::Data(b) => b,
        Answer::Refused(_) => 5,
    }
}

// One lap, in one call.
pub fn in_one_call(bus: Bus, mem: &mut [u8], list: &[Event; 64]) -> Summed
    ensures { (result.bus ≡ (events_of bus mem.old list.now (replicate 64 Nothing)).0.bus)
        × (mem.new ≡ (events_of bus mem.old list.now (replicate 64 Nothing)).1) }
{
    let mut answers = [Answer::Nothing; 64];
    let done = list_entry::events(bus, mem, list, &mut answers);
    let sum = answers
        .iter()
        .fold(0u8, |sum, a| sum.wrapping_add(weight(*a)));
    Summed { bus: done.bus, sum }
}

// One lap, event by event.
pub fn one_by_one(bus: Bus, mem: &mut [u8], list: &[Event; 64]) -> Summed {
    let mut at = Summed { bus, sum: 0 };
    for e in list {
        let done = bus_event::event(at.bus, mem, *e);
        at = Summed {
            bus: done.bus,
            sum: at.sum.wrapping_add(weight(done.answer)),
        };
    }
    at
}

// A lap's events, by their kinds and values.
const LAP: [(u8, u8); 64] = [
    // A page of slot 3 is written
    (1, 0),
    (2, 0xA6),
    (2, 0x40),
    (2, b'P'),
    (2, b'L'),
    (2, b'U'),
    (2, b'N'),
    (2, b'G'),
    (2, b'E'),
    (2, b'R'),
    (2, b'H'),
    (2, b'E'),
    (2, b'N'),
    (2, b'-'),
    (2, b'I'),
    (2, b'N'),
    (2, b'-'),
    (2, b'6'),
    (2, b'4'),
    (4, 0),
    // and its cycle waited for,
    (6, 0),
    (6, 0),
    (6, 0),
    (6, 0),
    (6, 0),
    // the page is read back,
    (1, 0),
    (2, 0xA6),
    (2, 0x40),
    (1, 0),
    (2, 0xA7),
    (3, 1),
    (3, 1),
    (3, 1),
    (3, 1),
    (3, 1),
    (3, 1),
    (3, 1),
    (3, 1),
    (3, 1),
    (3, 1),
    (3, 1),
    (3, 1),
    (3, 1),
    (3, 1),
    (3, 1),
    (3, 0),
    (4, 0),
    // three events are refused,
    (0, 0),
    (3, 2),
    (8, 0x11),
    // the slot's temperature is set and its register read,
    (9, 0xC8),
    (1, 0),
    (2, 0x36),
    (2, 5),
    (1, 0),
    (2, 0x37),
    (3, 1),
    (3, 0),
    (4, 0),
    // and a control byte is for no slot.
    (1, 0),
    (2, 0xF0),
    (4, 0),
    (5, 0),
    (6, 0),
];

fn events() -> [Event; 64] {
    LAP.map(|(kind, value)| Event {
        kind,
        slot: SlotNo(3),
        value: i16::from(value),
    })
}

// The end of some laps, where each has come to its sum.
// Kept: beside forms' finish, which writes `done` out of the room that its laps have filled, so that the compiler leaves none of them out.
fn finish(right: bool) {
    if right {
        io::write_all(STDOUT, b"done\n");
    } else {
        io::write_all(STDERR, b"laps: a lap was lost\n");
    }
}

// So many laps, behind one, event by event, that says what a lap comes to.
pub fn run<F: FnMut(Bus, &mut [u8], &[Event; 64]) -> Summed>(count: u64, mut lap: F)
    requires { F.IsAlwaysCallable lap }
{
    let made = bus_setup::setup([Pair { kind: 2, length: 5 }; 8]);
    let mut mem = [0xFFu8; 4096];
    let list = events();
    let first = one_by_one(made.bus, &mut mem, &list);
    let mut at = first.bus;
    let mut right = true;
    for _ in 0..count {
        let done = lap(at, &mut mem, &list);
        at = done.bus;
        right &= done.sum == first.sum;
    }
    finish(right);
}
