// A byte from the master at one slot: what the slot makes of it, and whether it acknowledges.
#![tactic(auto, unfolding(crate::proofs::Open::listen), using(rules::proofs::Run::Cases::byte_next))]

ghost use Rattle.std.specs.Prelude.{◌≡◌, not, leb};
ghost use Rattle.rules.specs.Control.{heard_by};
ghost use Rattle.rules.specs.Memory.{guarded, data_byte};
ghost use Rattle.rules.specs.Slot.{pointer, first_byte, second_byte};
ghost use Rattle.bus_slot.specs.Heeded.{heeded};

use super::obey::Heed;
use super::{blocks, leaving, memory, obey, phase};
use rules::{Heard, Phase, Sensor, Slot, SlotNo};

// A data byte: refused in a protected block and under the write-protect pin, else latched.
fn data_byte(b: u8, s: Slot) -> Heed
    ensures { result ≡ record { slot = data_byte b s; ack = not (guarded s) } }
{
    if blocks::guarded(s) {
        Heed::nack(phase::in_phase(Phase::Deaf, leaving::abandoned(s)))
    } else {
        Heed::ack(memory::latching(b, s))
    }
}

// A sensor write's pointer byte.
fn pointed(b: u8, s: Slot) -> Heed
    ensures { result ≡ record { slot = pointer b s; ack = leb b 9 } }
{
    if b <= 9 {
        Heed::ack(Slot {
            phase: Phase::SensorHigh,
            sensor: Sensor {
                pointer: b,
                ..s.sensor
            },
            ..s
        })
    } else {
        Heed::nack(leaving::lost(Phase::SensorPointer, s))
    }
}

// A sensor write's first byte is held.
fn first_byte(b: u8, s: Slot) -> Slot
    ensures { result ≡ first_byte b s }
{
    phase::in_phase(
        Phase::SensorLow,
        phase::holding(u16::from_be_bytes([b, 0]), s),
    )
}

// With its second byte the register changes, and nothing more is taken.
fn second_byte(b: u8, s: Slot) -> Slot
    ensures { result ≡ second_byte b s }
{
    let x = s.sensor;
    let [high, _] = x.word.to_be_bytes();
    let sensor = bus_sensor::pin::written(x, x.pointer, u16::from_be_bytes([high, b]));
    leaving::lost(Phase::SensorLow, Slot { sensor, ..s })
}

// A byte from the master at slot n; h is what it asks of this slot as a control byte.
pub fn byte(s: Slot, n: SlotNo, b: u8, h: Heard) -> Heed
    requires { h ≡ heard_by n.0 b s }
    ensures { result ≡ heeded n.0 b s }
{
    let phase = phase::standing(s);
    // Kept: an arm for each phase, as phase::traits says.
    match phase {
        Phase::Idle | Phase::Deaf => Heed::nack(s),
        Phase::Control => obey::controlled(h, n, s),
        Phase::MemoryCounter => Heed::ack(memory::loaded(b, s)),
        Phase::MemoryData => data_byte(b, s),
        Phase::HalfSelected => Heed::ack(s),
        Phase::CommandAddress => Heed::ack(phase::in_phase(Phase::CommandData, s)),
        Phase::CommandData => Heed::ack(phase::in_phase(Phase::CommandStop, s)),
        Phase::SensorPointer => pointed(b, s),
        Phase::SensorHigh => Heed::ack(first_byte(b, s)),
        Phase::SensorLow => Heed::ack(second_byte(b, s)),
        Phase::MemoryRead | Phase::CommandStop | Phase::SensorReadHigh | Phase::SensorReadLow =>
            Heed::nack(leaving::lost(phase, s)),
    }
}
