// A control byte at one slot: whether the slot acknowledges it, and what it does then.
#![tactic(auto, unfolding(crate::proofs::Open::obey))]

ghost use Rattle.std.specs.Prelude.{◌≡◌, true, false, cond, ◌&&◌, eqb, set};
ghost use Rattle.rules.specs.Fields.{in_phase, to_come, holding};
ghost use Rattle.rules.specs.Pin.{read_of};
ghost use Rattle.rules.specs.Control.{acks_heard, obeyed};

use super::{blocks, phase};
use rules::{BlockNo, Heard, Phase, Slot, SlotNo};

// Kept: a flag beside a slot that is there either way, here and in bus_slots' Step and Shown: an ACK is a wire's level, and takes no value with it.
// A slot after a byte from the master, and whether it acknowledges.
#[derive(Clone, Copy)]
pub struct Heed {
    pub slot: Slot,
    pub ack: bool,
}

impl Heed {
    // Kept: a name for each of two constants: a call of `Heed::ack` says what a `true` among parameters would not.
    // The slot, and an ACK.
    pub fn ack(slot: Slot) -> Self
        ensures { result ≡ record { slot = slot; ack = true } }
    {
        Heed { slot, ack: true }
    }

    // The slot, and no ACK.
    pub fn nack(slot: Slot) -> Self
        ensures { result ≡ record { slot = slot; ack = false } }
    {
        Heed { slot, ack: false }
    }
}

// Which present slot acknowledges a control byte, if it is in no write cycle.
fn acks_heard(h: Heard, n: SlotNo, s: Slot) -> bool
    ensures { result ≡ acks_heard h n.0 s }
{
    match h {
        Heard::Memory { select, .. } => select == n,
        Heard::Sensor { select, .. } => (select == n) & s.has_sensor(),
        Heard::Protect(k) => s.voltage & !blocks::protects(k, s),
        Heard::ClearAll => s.voltage,
        Heard::ReadProtection(k) => !blocks::protects(k, s),
        Heard::ReadHalf => s.half == 0,
        Heard::SelectHalf(_) | Heard::ProtectForEver => true,
        Heard::Nothing => false,
    }
}

// The slot with a protect begun: block k is to come to the protection that stands, and whether that will be permanent.
fn protecting(k: BlockNo, lasting: bool, s: Slot) -> Slot
    ensures { result ≡ in_phase Phase.CommandAddress (to_come (set s.protection k.0 true) lasting s) }
{
    let coming = blocks::with_block(k, s.protection);
    phase::in_phase(Phase::CommandAddress, blocks::to_come(coming, lasting, s))
}

// The slot with a sensor read begun: both bytes are fixed.
fn fixed(s: Slot) -> Slot
    ensures { result ≡ in_phase Phase.SensorReadHigh (holding (read_of s.sensor s.sensor.pointer) s) }
{
    let word = bus_sensor::pin::read(s.sensor, s.sensor.pointer);
    phase::in_phase(Phase::SensorReadHigh, phase::holding(word, s))
}

// What the ACK of a control byte does.
fn obeyed(h: Heard, s: Slot) -> Slot
    ensures { result ≡ obeyed h s }
{
    match h {
        Heard::Memory { read: true, .. } => phase::in_phase(Phase::MemoryRead, s),
        Heard::Memory { read: false, .. } => phase::in_phase(Phase::MemoryCounter, s),
        Heard::Sensor { read: true, .. } => fixed(s),
        Heard::Sensor { read: false, .. } => phase::in_phase(Phase::SensorPointer, s),
        Heard::Protect(k) => protecting(k, false, s),
        Heard::ClearAll => phase::in_phase(
            Phase::CommandAddress,
            blocks::to_come([false; 4], false, s),
        ),
        Heard::SelectHalf(half) => phase::in_phase(Phase::HalfSelected, Slot { half, ..s }),
        Heard::ProtectForEver => protecting(BlockNo(0), true, s),
        Heard::ReadProtection(_) | Heard::ReadHalf | Heard::Nothing => phase::in_phase(
            Phase::Deaf,
            s,
        ),
    }
}

// A slot in a write cycle acknowledges no control byte.
pub fn acks_control(h: Heard, n: SlotNo, s: Slot) -> bool
    ensures { result ≡ (eqb s.left 0 && acks_heard h n.0 s) }
{
    (s.left == 0) & acks_heard(h, n, s)
}

// A control byte, which asks for h, at slot n.
pub fn controlled(h: Heard, n: SlotNo, s: Slot) -> Heed
    ensures { result ≡ record {
      slot = cond (eqb s.left 0 && acks_heard h n.0 s) (obeyed h s) (in_phase Phase.Deaf s);
      ack = eqb s.left 0 && acks_heard h n.0 s;
    } }
{
    if acks_control(h, n, s) {
        Heed::ack(obeyed(h, s))
    } else {
        Heed::nack(phase::in_phase(Phase::Deaf, s))
    }
}
