// The EVENT pin of a slot, as it stands.
#![tactic(auto)]

ghost use Rattle.std.specs.Prelude.{◌≡◌};
ghost use Rattle.rules.specs.Looked.{look_of};

use rules::{Bus, Pin, Refusal, SlotNo};

// Whether slot n's pin is asserted, and its level. Whatever is handed in is answered or refused, by the rows 6 and 3 in this order.
pub fn pin(bus: Bus, n: SlotNo) -> Result<Pin, Refusal>
    ensures { result ≡ look_of bus n }
{
    if !bus_refusals::ranges::in_range(bus.slots) {
        return Err(Refusal::WrongState);
    }
    match bus.slots.get(usize::from(n.0)) {
        Some(s) if s.has_sensor() => Ok(bus_sensor::pin::pin(s.sensor)),
        _ => Err(Refusal::WrongSlot),
    }
}
