// All slots at an act: each does its step, and the answer is made of what they show.
ghost use Rattle.std.specs.Prelude.{◌≡◌, length};
ghost use Rattle.rules.specs.Modelled.{memory_bytes};
ghost use Rattle.bus_slots.specs.Taken.{taken_then};

use super::foreseen::Change;
use super::line::Line;
use super::shown::Shown;
use super::{foreseen, shown, step};
use rules::{Act, Bus, Outcome, Slot, SlotNo};

// An act that is not refused: every slot does its step, by its number and with its own part of the memory. Slots that the act leaves
// where they are, or only moves to another phase, are most of them, and are not taken out. The bus acknowledges if one of them does; the
// lowest slot that drives a byte is read, and FFh if none does.
pub fn taken(mut slots: [Slot; 8], mem: &mut [u8], a: Act) -> Outcome
    requires { length mem.old ≡ memory_bytes }
    ensures { taken_then (record { slots = slots }) mem.old a ≡ (result, mem.new) }
{
    let line = Line::new(a);
    let mut shown = Shown {
        ack: false,
        byte: None,
    };
    for (i, slot) in slots.iter_mut().enumerate() {
        // Kept: `as`: there are eight slots, and no `u8::from` takes a usize.
        let n = SlotNo(i as u8);
        match foreseen::glance(line, n, *slot) {
            Change::Nothing => {}
            Change::To(phase) => *slot = bus_slot::phase::in_phase(phase, *slot),
            // Kept: a range of mem, and no chunks_exact_mut or as_chunks_mut zipped with the slots: tried, and no proof learns what they leave.
            Change::More => {
                let from = Slot::BYTES * i;
                let to = from + Slot::BYTES;
                let x = step::next(line, n, *slot, &mut mem[from..to]);
                *slot = x.slot;
                shown = shown::joined(shown, x.ack, x.byte);
            }
        }
    }
    let answer = shown::answer_of(line.carries, shown);
    Outcome {
        bus: Bus { slots },
        answer,
    }
}
