// The bus at an event: eight slots and one lent memory. The bus's fields are public: what a user wants to look at is read there.
#![tactic(auto)]

ghost use Rattle.std.specs.Prelude.{◌≡◌, true, length};
ghost use Rattle.rules.specs.Modelled.{memory_bytes};
ghost use Rattle.rules.specs.Refusals.{in_range};
ghost use Rattle.rules.specs.Runs.{event_of};

use rules::{Bus, Event, Outcome, Refusal};

// An event on a bus that is in range, with its memory: what `event` does then, without testing it. A run from setup may go on with
// this one, since every event keeps the range.
// Kept: bus and memory apart, and what is asked of both in clauses, here and in bus_slots, capture_pieces, list_entry and save_restore: callers of
// the library (docs/manual/library.md) have them apart, and what they are asked stays. Where a program owns both, bus_bench has them in one.
pub fn event_in_range(bus: Bus, mem: &mut [u8], e: Event) -> Outcome
    requires { (in_range bus ≡ true) × (length mem.old ≡ memory_bytes) }
    ensures { event_of bus mem.old e ≡ (result, mem.new) }
{
    let kind = bus_refusals::ruling::kind_at(bus.slots, e.slot);
    match bus_refusals::ruling::ruled(kind, e) {
        Ok(act) => bus_slots::every::taken(bus.slots, mem, act),
        Err(why) => Outcome::refused(bus, why),
    }
}

// One event: the next bus and the answer. Whatever is handed in is answered or refused, by the rows 1, 6, 2, 3, 4 in this order; a
// refused event changes neither bus nor memory.
pub fn event(bus: Bus, mem: &mut [u8], e: Event) -> Outcome
    ensures { event_of bus mem.old e ≡ (result, mem.new) }
{
    if mem.len() != Bus::MEMORY {
        return Outcome::refused(bus, Refusal::MemoryLength);
    }
    if !bus_refusals::ranges::in_range(bus.slots) {
        return Outcome::refused(bus, Refusal::WrongState);
    }
    event_in_range(bus, mem, e)
}
