// A read at one slot: whether the slot drives a byte, which, and what it does then.
#![tactic(auto, unfolding(crate::proofs::Open::drive), using(rules::proofs::Run::Cases::read_next))]

ghost use Rattle.std.specs.Prelude.{◌≡◌, ◌/◌, ◌%◌, get_or};
ghost use Rattle.rules.specs.Modelled.{address_of};
ghost use Rattle.rules.specs.Memory.{fetched};
ghost use Rattle.rules.specs.Slot.{lost, read_in};
ghost use Rattle.bus_slot.specs.ReadOut.{read_out};

use super::{leaving, memory, phase};
use rules::{Phase, Slot};

// A slot after a read, and the byte that it drives, if it drives one.
#[derive(Clone, Copy)]
pub struct Drive {
    pub slot: Slot,
    pub byte: Option<u8>,
}

fn silent(slot: Slot) -> Drive
    ensures { result ≡ record { slot = slot; byte = None } }
{
    Drive { slot, byte: None }
}

// Kept: three functions for a driven byte: which byte it is, and where the slot then stands, is another in each; what they share is the struct.
// A memory read's byte.
fn memory_byte(s: Slot, part: &[u8], more: bool) -> Drive
    ensures { result ≡ record { slot = fetched more s; byte = Some (get_or part.now (address_of s).0 0) } }
{
    Drive {
        slot: memory::fetched(more, s),
        byte: Some(memory::byte_at(s, part)),
    }
}

// A sensor read's high byte; the low byte follows if the master acknowledges.
fn high_byte(s: Slot, more: bool) -> Drive
    ensures { result ≡ record { slot = read_in Phase.SensorReadHigh more s; byte = Some (s.sensor.word / 256) } }
{
    let [high, _] = s.sensor.word.to_be_bytes();
    let slot = if more {
        phase::in_phase(Phase::SensorReadLow, s)
    } else {
        leaving::lost(Phase::SensorReadHigh, s)
    };
    Drive {
        slot,
        byte: Some(high),
    }
}

// A sensor read's low byte; nothing more is driven.
fn low_byte(s: Slot) -> Drive
    ensures { result ≡ record { slot = lost Phase.SensorReadLow s; byte = Some (s.sensor.word % 256) } }
{
    let [_, low] = s.sensor.word.to_be_bytes();
    Drive {
        slot: leaving::lost(Phase::SensorReadLow, s),
        byte: Some(low),
    }
}

// A read; part is the slot's own 512 bytes, and more says that the master then acknowledges.
pub fn read(s: Slot, part: &[u8], more: bool) -> Drive
    ensures { result ≡ read_out more part.now s }
{
    let phase = phase::standing(s);
    // Kept: an arm for each phase, as phase::traits says.
    match phase {
        Phase::Idle | Phase::Deaf => silent(s),
        Phase::Control => silent(phase::in_phase(Phase::Deaf, s)),
        Phase::MemoryRead => memory_byte(s, part, more),
        Phase::SensorReadHigh => high_byte(s, more),
        Phase::SensorReadLow => low_byte(s),
        Phase::MemoryCounter
        | Phase::MemoryData
        | Phase::HalfSelected
        | Phase::CommandAddress
        | Phase::CommandData
        | Phase::CommandStop
        | Phase::SensorPointer
        | Phase::SensorHigh
        | Phase::SensorLow => silent(leaving::lost(phase, s)),
    }
}
