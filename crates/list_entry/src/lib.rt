// A list of events in one call, on records and answer places that the caller lends: the events one by one, in order. Memory and state are judged
// once, before the first of them: no event changes how they are judged.
#![tactic(auto)]

ghost use Rattle.std.specs.Prelude.{◌≡◌, true, length};
ghost use Rattle.rules.specs.Modelled.{memory_bytes};
ghost use Rattle.rules.specs.Refusals.{in_range};
ghost use Rattle.rules.specs.Runs.{event_of};
ghost use Rattle.list_entry.specs.Lists.{standing, events_of};

use rules::{Answer, Bus, Event, Outcome, Refusal};

// Whether neither the memory's length nor the state is refused, by the rows 1 and 6.
fn stands(bus: Bus, bytes: usize) -> bool
    ensures { result ≡ standing bus bytes }
{
    (bytes == Bus::MEMORY) & bus_refusals::ranges::in_range(bus.slots)
}

// One event of a list: where memory and state stand, they are not judged again.
// Kept: a test at each event, and no closure chosen before: only where `stand` says so may event_in_range be called, and this clause shows it.
fn one(stand: bool, bus: Bus, mem: &mut [u8], e: Event) -> Outcome
    requires { stand ≡ true → (in_range bus ≡ true) × (length mem.old ≡ memory_bytes) }
    ensures { event_of bus mem.old e ≡ (result, mem.new) }
{
    if stand {
        return bus_event::event_in_range(bus, mem, e);
    }
    bus_event::event(bus, mem, e)
}

// Every event of a list, in order, each one's answer at its place; places past the end of the events stay as they are. Whatever is handed in is
// answered: where memory or state is refused, each event is. Fewer places than events are refused before all else, and nothing is changed.
pub fn events(bus: Bus, mem: &mut [u8], list: &[Event], answers: &mut [Answer]) -> Outcome
    ensures { events_of bus mem.old list.now answers.old ≡ (result, mem.new, answers.new) }
{
    if answers.len() < list.len() {
        return Outcome::refused(bus, Refusal::TooShort);
    }
    let stand = stands(bus, mem.len());
    let mut b = bus;
    for (i, e) in list.iter().enumerate() {
        let done = one(stand, b, mem, *e);
        b = done.bus;
        answers[i] = done.answer;
    }
    Outcome::taken(b)
}
