// The sensor's temperature: its conversion to a step of the resolution, and the flags.
#![tactic(auto, unfolding(crate::proofs::Open::temperature))]

ghost use Rattle.std.specs.Prelude.{◌≡◌, cond, pos, ◌-ℤ◌};
ghost use Rattle.rules.specs.Sensor.{bits_of, signed_of, step_of, nearest_of, hysteresis_of, flag_of, critical_flag, high_flag, low_flag, reading, converted};

use super::registers::bit;
use rules::Sensor;

// The number of sixteenths that bits 12:0 of v hold in two's complement.
fn sixteenths(v: u16) -> i32
    ensures { result ≡ signed_of v }
{
    let low = v % 8192;
    if low < 4096 {
        i32::from(low)
    } else {
        i32::from(low) - 8192
    }
}

// Bits 12:0 of t in two's complement.
fn bits(t: i32) -> u16
    ensures { result ≡ bits_of t }
{
    // Kept: `as`: a mask bounds the number, and `From` has no narrowing.
    (t & 0x1FFF) as u16
}

// The multiple of the resolution's step that is nearest to the given number, halves upward, also below zero: half a step more, rounded down. It
// may stand above the greatest i16.
// Kept: resolution, and below the hysteresis, by their bits and no enum: both are bits of registers, which are saved and handed in as numbers.
fn stepped(given: i16, resolution: u8) -> i32
    ensures { result ≡ nearest_of (step_of resolution) given }
{
    let wide = i32::from(given);
    match resolution {
        0 => ((wide + 4) >> 3) * 8,
        1 => ((wide + 2) >> 2) * 4,
        2 => ((wide + 1) >> 1) * 2,
        _ => wide,
    }
}

// The hysteresis that a configuration asks for, in sixteenths.
fn hysteresis(configuration: u16) -> i32
    ensures { result ≡ pos (hysteresis_of configuration) }
{
    match configuration / 512 % 4 {
        0 => 0,
        1 => 24,
        2 => 48,
        _ => 96,
    }
}

// A limit less the hysteresis.
fn lowered(limit: u16, configuration: u16) -> i32
    ensures { result ≡ signed_of limit -ℤ pos (hysteresis_of configuration) }
{
    sixteenths(limit) - hysteresis(configuration)
}

// A flag after its two tests: set, else cleared, else as it was.
fn flag(set: bool, cleared: bool, was: bool) -> bool
    ensures { result ≡ flag_of set cleared was }
{
    set | (!cleared & was)
}

// Kept: three functions: which of a flag's two comparisons has the equal sign differs, as document 01 has it (Sensor.critical_flag, .low_flag).
// Bit 15 of register 05h after the number t: set when t >= critical and cleared when t < critical - h.
fn critical_flag(x: Sensor, t: i32) -> bool
    ensures { result ≡ critical_flag x t }
{
    let limit = x.critical;
    let was = bit(x.temperature, 15);
    flag(
        sixteenths(limit) <= t,
        t < lowered(limit, x.configuration),
        was,
    )
}

// Bit 14 of register 05h after the number t: set when t > high and cleared when t <= high - h.
fn high_flag(x: Sensor, t: i32) -> bool
    ensures { result ≡ high_flag x t }
{
    let limit = x.high;
    let was = bit(x.temperature, 14);
    flag(
        sixteenths(limit) < t,
        t <= lowered(limit, x.configuration),
        was,
    )
}

// Bit 13 of register 05h after the number t: set when t < low - h and cleared when t >= low.
fn low_flag(x: Sensor, t: i32) -> bool
    ensures { result ≡ low_flag x t }
{
    let limit = x.low;
    let was = bit(x.temperature, 13);
    flag(
        t < lowered(limit, x.configuration),
        sixteenths(limit) <= t,
        was,
    )
}

// The bit that a raised flag puts into its register, else 0.
fn raised(flag: bool, bit: u16) -> u16
    ensures { result ≡ cond flag bit 0 }
{
    if flag { bit } else { 0 }
}

// Register 05h after the number t: the three flags above the number's bits.
fn reading(x: Sensor, t: i32) -> u16
    ensures { result ≡ reading x t }
{
    let critical = raised(critical_flag(x, t), 32768);
    let high = raised(high_flag(x, t), 16384);
    let low = raised(low_flag(x, t), 8192);
    critical + high + low + bits(t)
}

// The sensor after a temperature, in sixteenths. In shutdown it stays.
pub fn converted(x: Sensor, given: i16) -> Sensor
    ensures { result ≡ converted x given }
{
    if bit(x.configuration, 8) {
        return x;
    }
    let t = stepped(given, x.resolution);
    Sensor {
        temperature: reading(x, t),
        ..x
    }
}
