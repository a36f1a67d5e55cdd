// What reaches one slot alone: high voltage, temperature, the write-protect pin.
#![tactic(auto, unfolding(crate::proofs::Open::pins))]

ghost use Rattle.std.specs.Prelude.{◌≡◌, cond};
ghost use Rattle.rules.specs.Modelled.{absent};
ghost use Rattle.rules.specs.Slot.{switched, heated, shielded, applied};

use super::{leaving, phase};
use rules::{Applied, Older, Slot};

// High voltage on or off: a protect or clear that its stop has not begun is cancelled when it goes off. An older module's lasting form is not: it
// asks for the voltage at the control byte alone.
fn switched(on: bool, s: Slot) -> Slot
    ensures { result ≡ switched on s }
{
    let p = phase::standing(s);
    let t = phase::traits(p);
    let endures = s.is_older() & s.old.lasting;
    let left = if t.command & s.voltage & !on & !endures {
        leaving::lost(p, s)
    } else {
        s
    };
    Slot {
        voltage: on,
        ..left
    }
}

// A temperature, which reaches a slot with a sensor alone.
fn heated(t: i16, s: Slot) -> Slot
    ensures { result ≡ heated t s }
{
    if !s.has_sensor() {
        return s;
    }
    Slot {
        sensor: bus_sensor::pin::converted(s.sensor, t),
        ..s
    }
}

// The write-protect pin on or off, which an older module alone has.
fn shielded(on: bool, s: Slot) -> Slot
    ensures { result ≡ shielded on s }
{
    if !s.is_older() {
        return s;
    }
    Slot {
        old: Older { pin: on, ..s.old },
        ..s
    }
}

// What is applied to one slot, at that slot; an absent one is left alone.
pub fn applied(x: Applied, s: Slot) -> Slot
    ensures { result ≡ cond (absent s) s (applied x s) }
{
    if s.is_absent() {
        return s;
    }
    // Kept: an arm for each thing that is applied: their values are of two types, so that no table of functions has them all.
    match x {
        Applied::Voltage(on) => switched(on, s),
        Applied::Temperature(t) => heated(t, s),
        Applied::WriteProtect(on) => shielded(on, s),
    }
}
