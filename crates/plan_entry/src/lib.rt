// The planner: the records of a script that brings one slot's memory to an image. What a plan is, and what it does on the bus, stands in the
// crate `plan_rules`.
#![tactic(auto)]

ghost use Rattle.std.specs.Prelude.{◌≡◌, ◌||◌, length};
ghost use Rattle.rules.specs.Modelled.{absent, older};
ghost use Rattle.plan_rules.specs.Effect.{Typed};
ghost use Rattle.plan_rules.specs.Plan.{plan_number, plan_of};

use rules::{Bus, Refusal, Slot, SlotNo};

// Bytes of the buffer that a plan is laid into: room for a plan that writes every page.
pub const BUFFER: usize = 4096;

// A slot that is not planned for: absent, or an older module. And what its type says of it, that its latch and its marks have sixteen elements
// each: of a parameter the check knows that, and not of an element of the bus.
fn unplanned(s: Slot) -> bool
    ensures value { result ≡ (absent s || older s) }
    ensures typed { (length s.latch ≡ 16) × (length s.marks ≡ 16) }
{
    s.is_absent() || s.is_older()
}

// A plan for a slot: script records at the front of the buffer, and their number; what stands behind them stays. Whatever is handed in is planned
// or refused, by the rows 1, 6, 3, 7 in this order.
pub fn plan(
    bus: Bus,
    memory: &[u8],
    slot: SlotNo,
    image: &[u8],
    buffer: &mut [u8],
) -> Result<usize, Refusal>
    ensures buffer_value { plan_of bus memory.now slot image.now buffer.old ≡ (result, buffer.new) }
    ensures typed { plan_number result ≡ 0 → Typed bus slot image.now }
{
    let Ok(wanted) = <&[u8; Slot::BYTES]>::try_from(image) else {
        return Err(Refusal::MemoryLength);
    };
    if memory.len() != Bus::MEMORY || buffer.len() != BUFFER {
        return Err(Refusal::MemoryLength);
    }
    let ranged = bus_refusals::ranges::in_range(bus.slots);
    if !ranged {
        return Err(Refusal::WrongState);
    }
    let at = usize::from(slot.0);
    let Some(&s) = bus.slots.get(at) else {
        return Err(Refusal::WrongSlot);
    };
    if unplanned(s) {
        return Err(Refusal::WrongSlot);
    }
    let (parts, _) = memory.as_chunks::<{ Slot::BYTES }>();
    plan_pages::slot::alone(s, slot, &parts[at], wanted, buffer)
}
