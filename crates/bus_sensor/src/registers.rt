// The sensor's registers: what they read, what a write leaves in them.
#![tactic(auto, unfolding(crate::proofs::Open::registers))]

ghost use Rattle.std.specs.Prelude.{◌≡◌, ◌/◌, ◌%◌, ◌^◌, ◌<◌, eqb, cond};
ghost use Rattle.std.specs.Int.Bits.{bit_and};
ghost use Rattle.rules.specs.Sensor.{register_of, limit_bits, critical_locked, limits_locked, configured, written};

use rules::Sensor;

// Whether bit n of a register is 1.
pub(crate) fn bit(word: u16, n: u32) -> bool
    requires { n < 16 }
    ensures { result ≡ eqb (word / 2 ^ n % 2) 1 }
{
    (word >> n) % 2 == 1
}

// What register p reads.
// Kept: a register's number is a number and no enum, here and below: it is the master's byte, and what is above 09h reads and does nothing.
pub fn register(x: Sensor, p: u8) -> u16
    ensures { result ≡ register_of x p }
{
    match p {
        0x00 => 0x00EF,
        0x01 => x.configuration,
        0x02 => x.high,
        0x03 => x.low,
        0x04 => x.critical,
        0x05 => x.temperature,
        0x06 => 0x104A,
        0x07 => 0x2201,
        0x08 => u16::from(x.resolution),
        0x09 => u16::from(x.timeout),
        _ => 0x0000,
    }
}

// Kept: two names, each one call of `bit`: there is a lock for register 04h and one for 02h and 03h (Sensor.critical_locked, .limits_locked).
// Whether a configuration locks register 04h.
fn critical_locked(configuration: u16) -> bool
    ensures { result ≡ critical_locked configuration }
{
    bit(configuration, 7)
}

// Whether a configuration locks registers 02h and 03h.
fn limits_locked(configuration: u16) -> bool
    ensures { result ≡ limits_locked configuration }
{
    bit(configuration, 6)
}

// The configuration after a write of v: under a lock that was set before, or free.
pub fn configuration_after(old: u16, v: u16) -> u16
    ensures { result ≡ configured old v }
{
    if critical_locked(old) | limits_locked(old) {
        (old & 0x060F) | (old & v & 0x0100) | ((old | v) & 0x00C0)
    } else {
        v & 0x07CF
    }
}

// A limit after a write of v: under its lock as it was, or free.
fn limit_after(locked: bool, old: u16, v: u16) -> u16
    ensures { result ≡ cond locked old (bit_and v limit_bits) }
{
    if locked { old } else { v & 0x1FFC }
}

// Kept: sensor, number and value are parameters, here and in `pin`, as Sensor.written and Pin.read_of take them: a read has no value.
// The sensor after a write of v to register p. 00h, 05h, 06h, 07h and locked registers stay.
pub fn written(x: Sensor, p: u8, v: u16) -> Sensor
    ensures { result ≡ written x p v }
{
    let old = x.configuration;
    match p {
        0x01 => Sensor {
            configuration: configuration_after(old, v),
            ..x
        },
        0x02 => Sensor {
            high: limit_after(limits_locked(old), x.high, v),
            ..x
        },
        0x03 => Sensor {
            low: limit_after(limits_locked(old), x.low, v),
            ..x
        },
        0x04 => Sensor {
            critical: limit_after(critical_locked(old), x.critical, v),
            ..x
        },
        0x08 => Sensor {
            // Kept: `as`, here, below and in temperature::bits: a mask bounds the number, and `From` has no narrowing.
            resolution: (v & 0x0003) as u8,
            ..x
        },
        0x09 => Sensor {
            timeout: (v & 0x0001) as u8,
            ..x
        },
        _ => x,
    }
}
