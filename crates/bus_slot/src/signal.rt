// What reaches every slot and carries nothing, at one slot: start, stop, timeout.
#![tactic(auto, unfolding(crate::proofs::Open::signal))]

ghost use Rattle.std.specs.Prelude.{◌≡◌};
ghost use Rattle.rules.specs.Slot.{stop_in};
ghost use Rattle.bus_slot.specs.Signals.{signalled};

use super::{cycle, leaving, phase};
use rules::{Phase, Slot};

// What a stop begins or drops, by the phase.
fn stop_in(p: Phase, s: Slot) -> Slot
    ensures { result ≡ stop_in p s }
{
    match p {
        Phase::Idle
        | Phase::Control
        | Phase::Deaf
        | Phase::MemoryCounter
        | Phase::MemoryRead
        | Phase::HalfSelected => s,
        Phase::MemoryData => cycle::data_stop(s),
        Phase::CommandAddress | Phase::CommandData => leaving::cancelled(s),
        Phase::CommandStop => cycle::command_stop(s),
        Phase::SensorPointer
        | Phase::SensorHigh
        | Phase::SensorLow
        | Phase::SensorReadHigh
        | Phase::SensorReadLow => leaving::let_go(p, s),
    }
}

// Kept: an enum of three of the acts: `signalled` (docs/TRACE, Signals.signalled) is for these, and given an Act it would have to speak of all eight.
// The events that reach every slot and carry nothing.
#[derive(Clone, Copy)]
pub enum Signal {
    Start,
    Stop,
    Timeout,
}

// A start, stop or timeout; an absent slot is left alone, as by every event.
pub fn signalled(x: Signal, s: Slot) -> Slot
    ensures { result ≡ signalled x s }
{
    if s.is_absent() {
        return s;
    }
    let p = phase::standing(s);
    match x {
        Signal::Start => phase::in_phase(Phase::Control, leaving::let_go(p, s)),
        Signal::Stop => phase::in_phase(Phase::Idle, stop_in(p, s)),
        Signal::Timeout => phase::in_phase(Phase::Idle, leaving::let_go(p, s)),
    }
}
