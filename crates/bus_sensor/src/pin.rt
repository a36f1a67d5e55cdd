// The sensor's EVENT pin: when it is asserted and at what level, and the sensor's reads, writes and temperatures with it.
#![tactic(auto, unfolding(crate::proofs::Open::pin))]

ghost use Rattle.std.specs.Prelude.{◌≡◌};
ghost use Rattle.rules.specs.Pin.{flag_counts, asserted, pin_of, can_pend, changes, pending_after, converted_with_pin, written_with_pin, read_of};

use super::registers::bit;
use super::{registers, temperature};
use rules::{Pin, Sensor};

// Whether a flag that counts is set: any of the three, or the critical flag alone.
fn flag_counts(x: Sensor) -> bool
    ensures { result ≡ flag_counts x }
{
    let t = x.temperature;
    bit(t, 15) | !bit(x.configuration, 2) & (bit(t, 14) | bit(t, 13))
}

// Whether the pin is asserted.
pub fn asserted(x: Sensor) -> bool
    ensures { result ≡ asserted x }
{
    let c = x.configuration;
    let asks = if bit(c, 0) {
        x.pending | bit(x.temperature, 15)
    } else {
        flag_counts(x)
    };
    bit(c, 3) & asks
}

// The pin as it stands.
pub fn pin(x: Sensor) -> Pin
    ensures { result ≡ pin_of x }
{
    let asserted = asserted(x);
    let high = bit(x.configuration, 1);
    Pin {
        asserted,
        level: if asserted { high } else { !high },
    }
}

// Whether a configuration lets a change be pending.
pub fn can_pend(configuration: u16) -> bool
    ensures { result ≡ can_pend configuration }
{
    bit(configuration, 3) & bit(configuration, 0) & !bit(configuration, 2)
}

// Whether the high or the low flag is no longer what it was.
fn changes(before: u16, after: u16) -> bool
    ensures { result ≡ changes before after }
{
    before / 8192 % 4 != after / 8192 % 4
}

// The sensor after a temperature, in sixteenths: a change of flags is pending from then on, if one can be.
pub fn converted(x: Sensor, given: i16) -> Sensor
    ensures { result ≡ converted_with_pin x given }
{
    let next = temperature::converted(x, given);
    let change = changes(x.temperature, next.temperature);
    Sensor {
        pending: x.pending | can_pend(x.configuration) & change,
        ..next
    }
}

// What is pending after a write of v to register p.
fn pending_after(x: Sensor, p: u8, v: u16) -> bool
    ensures { result ≡ pending_after x p v }
{
    if p == 0x01 {
        let c = registers::configuration_after(x.configuration, v);
        x.pending & can_pend(c) & !bit(v, 5)
    } else {
        x.pending
    }
}

// The sensor after a write of v to register p.
pub fn written(x: Sensor, p: u8, v: u16) -> Sensor
    ensures { result ≡ written_with_pin x p v }
{
    let next = registers::written(x, p, v);
    Sensor {
        pending: pending_after(x, p, v),
        ..next
    }
}

// What register p reads: 01h has the pin as its bit 4.
pub fn read(x: Sensor, p: u8) -> u16
    ensures { result ≡ read_of x p }
{
    if (p == 0x01) & asserted(x) {
        x.configuration | 0x0010
    } else {
        registers::register(x, p)
    }
}
