// Where a slot stands in an exchange.
#![tactic(auto, unfolding(crate::proofs::Open::phase))]

ghost use Rattle.std.specs.Prelude.{◌≡◌};
ghost use Rattle.rules.specs.Fields.{in_phase, holding};
ghost use Rattle.rules.specs.Slot.{traits, standing};

use rules::{Phase, Sensor, Slot, Traits};

// The slot in another phase.
pub fn in_phase(phase: Phase, s: Slot) -> Slot
    ensures { result ≡ in_phase phase s }
{
    Slot { phase, ..s }
}

// The slot with a register's bytes held for an exchange with its sensor.
pub fn holding(word: u16, s: Slot) -> Slot
    ensures { result ≡ holding word s }
{
    Slot {
        sensor: Sensor { word, ..s.sensor },
        ..s
    }
}

// A phase that is none of what a phase can be.
const PLAIN: Traits = Traits {
    sensor: false,
    command: false,
    takes: false,
    drives: false,
};

// Kept: an arm for each phase, here and in drive, listen and signal: document 01's tables, and the check sees that no phase is left out.
// What a phase is: of an exchange with the sensor, of a protect or clear before its stop, one that takes data bytes, one that serves
// reads.
pub fn traits(p: Phase) -> Traits
    ensures { result ≡ traits p }
{
    match p {
        Phase::MemoryData => Traits {
            takes: true,
            ..PLAIN
        },
        Phase::MemoryRead => Traits {
            drives: true,
            ..PLAIN
        },
        Phase::CommandAddress | Phase::CommandData | Phase::CommandStop => Traits {
            command: true,
            ..PLAIN
        },
        Phase::SensorPointer | Phase::SensorHigh | Phase::SensorLow => Traits {
            sensor: true,
            ..PLAIN
        },
        Phase::SensorReadHigh | Phase::SensorReadLow => Traits {
            sensor: true,
            drives: true,
            ..PLAIN
        },
        Phase::Idle | Phase::Control | Phase::Deaf | Phase::MemoryCounter | Phase::HalfSelected =>
            PLAIN,
    }
}

// The phase that the rules go by: an absent slot, and an exchange with a sensor that is not there, count as deaf.
pub fn standing(s: Slot) -> Phase
    ensures { result ≡ standing s }
{
    let t = traits(s.phase);
    if s.is_absent() | (t.sensor & !s.has_sensor()) {
        Phase::Deaf
    } else {
        s.phase
    }
}
