// The fields of a saved form, and a slot's share of each: how many bytes, put into a lent output, and read from a form. What each is stands in the
// crate `save_rules`, in a table whose rows are the fields in this order (`row_of`).
// Kept: here and in `save_entry` an output and a place in it are two parameters, and each function asks for the room: `letters::put` takes them so,
// and each asks for room for its own bytes alone, so that no one fact is true of all their outputs.
ghost use Rattle.std.specs.Prelude.{◌≡◌, ◌+◌, ◌^◌, ◌<◌, ◌≤◌, eqb, length, get_or, take};
ghost use Rattle.std.proofs.lemmas.List.Edits.{sets};
ghost use Rattle.rules.specs.Modelled.{bytes_of};
ghost use Rattle.rules.specs.Fields.{with_pending};
ghost use Rattle.rules.specs.Fresh.{setup_slot};
ghost use Rattle.script_text.specs.Records.{pair_at};
ghost use Rattle.save_rules.specs.Form.{word_of, word_at, bits_of, bits_in, state_from, registers_to, sensor_bytes, sensor_from, older_byte, older_from, field_at, share_of};
ghost use Rattle.save_fields.specs.Rows.{row_of, field_of};

use rules::{Older, Pair, Sensor, Slot};
use script_text::letters::put;

// Each numbered by its tag.
#[derive(Clone, Copy, PartialEq, Eq)]
pub enum Field {
    // A slot's kind and length.
    Setup = 1,
    // Its memory: its own bytes.
    Memory,
    // Its protection, half, counter and high voltage.
    State,
    // The sensor's pointer and registers.
    Sensor,
    // Whether a change is pending in the sensor.
    Pending,
    // Whether an older slot is permanently protected, and its pin.
    Older,
}

// The bytes of an older slot.
const OLDER: usize = 256;

// How many bytes of its 512 are a slot's own.
#[tactic(auto, unfolding(crate::proofs::Open::table))]
fn own_bytes(s: &Slot) -> usize
    ensures { result ≡ bytes_of s.now.kind }
{
    if s.is_older() { OLDER } else { Slot::BYTES }
}

impl Field {
    // As they stand in the form.
    pub const ALL: [Field; 6] = [
        Field::Setup,
        Field::Memory,
        Field::State,
        Field::Sensor,
        Field::Pending,
        Field::Older,
    ];

    // Kept: a row by its number: save_rules/Form.field_at goes by it, from 6 on too, and what was promised of every number holds of this.
    // The field in a row of the table; from row 6 on, where there is none, the first, as the table has it.
    pub fn of_row(t: usize) -> Self
        ensures { result ≡ field_of t }
    {
        Self::ALL.get(t).copied().unwrap_or(Field::Setup)
    }

    #[tactic(auto, unfolding(crate::proofs::Open::table))]
    pub fn tag(self) -> u8
        ensures { result ≡ (field_at (row_of self)).tag }
    {
        self as u8
    }

    // How many fields stand before it in the table.
    pub fn row(self) -> usize
        ensures { result ≡ row_of self }
    {
        self as usize - 1
    }

    // Whether a slot needs the field: P5's every slot, the fifth one with a sensor in which a change is pending, the sixth an older one that is
    // permanently protected or has its pin on.
    #[tactic(auto, unfolding(crate::proofs::Open::table))]
    pub fn needed(self, s: &Slot) -> bool
        ensures { result ≡ (field_at (row_of self)).needed s.now }
    {
        match self {
            Field::Pending => s.has_sensor() & s.sensor.pending,
            Field::Older => s.is_older() & (s.old.permanent | s.old.pin),
            _ => true,
        }
    }

    // How many bytes a slot has in the field; its kind alone says so.
    #[tactic(auto, unfolding(crate::proofs::Open::table))]
    pub fn size(self, s: &Slot) -> usize
        ensures { result ≡ (field_at (row_of self)).size s.now.kind }
    {
        match self {
            Field::Setup => 2,
            Field::Memory if !s.is_absent() => own_bytes(s),
            Field::State if !s.is_absent() => 4,
            Field::Sensor if s.has_sensor() => 15,
            Field::Pending if s.has_sensor() => 1,
            Field::Older if s.is_older() => 1,
            _ => 0,
        }
    }

    // A slot's share, with the slot's memory, put at a place; the place after it.
    #[tactic(auto, unfolding(crate::proofs::Open::table))]
    pub fn put(self, s: &Slot, memory: &[u8], out: &mut [u8], at: usize) -> usize
        requires { at + length (share_of (row_of self) s.now memory.now) ≤ length out.old }
        ensures { (result ≡ at + length (share_of (row_of self) s.now memory.now))
            × (out.new ≡ sets out.old at (share_of (row_of self) s.now memory.now)) }
    {
        match self {
            Field::Setup => put(out, at, &[s.kind, s.length]),
            Field::Memory if !s.is_absent() => put(out, at, front(memory, own_bytes(s))),
            Field::State if !s.is_absent() => put(
                out,
                at,
                &[bits(&s.protection), s.half, s.counter, u8::from(s.voltage)],
            ),
            Field::Sensor if s.has_sensor() => put_sensor(s.sensor, out, at),
            Field::Pending if s.has_sensor() => put(out, at, &[u8::from(s.sensor.pending)]),
            Field::Older if s.is_older() => put(out, at, &[older_byte(s.old)]),
            _ => at,
        }
    }

    // A slot with what its share, from a place of a form on, says of it.
    #[tactic(auto, unfolding(crate::proofs::Open::table))]
    pub fn read(self, form: &[u8], at: usize, s: Slot) -> Slot
        requires { at ≤ 65520 }
        ensures { result ≡ (field_at (row_of self)).reads form.now at s }
    {
        match self {
            Field::Setup => read_setup(form, at),
            Field::State if !s.is_absent() => read_state(form, at, s),
            Field::Sensor if s.has_sensor() => Slot {
                sensor: sensor_at(form, at),
                ..s
            },
            Field::Pending if s.has_sensor() => Slot {
                sensor: pending_at(form, at, s.sensor),
                ..s
            },
            Field::Older if s.is_older() => Slot {
                old: older_at(form, at),
                ..s
            },
            _ => s,
        }
    }
}

// The first so many bytes of some, or all of them.
fn front(bytes: &[u8], count: usize) -> &[u8]
    ensures { result.now ≡ take count bytes.now }
{
    &bytes[..count.min(bytes.len())]
}

// A number of two bytes, the high byte first.
#[tactic(auto, unfolding(save_rules::specs::Form::word_of))]
pub fn word(v: u16) -> [u8; 2]
    ensures { result ≡ word_of v }
{
    v.to_be_bytes()
}

// Up to eight bits as a byte, the lowest first.
fn bits(on: &[bool]) -> u8
    requires { length on.now ≤ 8 }
    ensures { (result ≡ bits_of on.now) × (result < 2 ^ length on.now) }
{
    match on {
        [] => 0,
        [first, rest @ ..] => u8::from(*first) + 2 * bits(rest),
    }
}

// The lowest bits of a byte.
fn bits_in<const N: usize>(v: u8) -> [bool; N]
    requires { N ≤ 8 }
    ensures { result ≡ bits_in N v }
{
    std::array::from_fn(|k| (v >> k) % 2 == 1)
}

// Kept: by numbers here and by names in `sensor_at`: registers::written would mask what is read and keep what is locked (Form.sensor_from).
// The registers that are saved.
const SAVED: [u8; 7] = [0x01, 0x02, 0x03, 0x04, 0x05, 0x08, 0x09];

fn put_registers(x: Sensor, out: &mut [u8], at: usize) -> usize
    requires { at + 14 ≤ length out.old }
    ensures { (result ≡ at + length (registers_to 7 x)) × (out.new ≡ sets out.old at (registers_to 7 x)) }
{
    let mut end = at;
    for register in SAVED {
        end = put(
            out,
            end,
            &word(bus_sensor::registers::register(x, register)),
        );
    }
    end
}

fn put_sensor(x: Sensor, out: &mut [u8], at: usize) -> usize
    requires { at + 15 ≤ length out.old }
    ensures { (result ≡ at + length (sensor_bytes x)) × (out.new ≡ sets out.old at (sensor_bytes x)) }
{
    let registers = put(out, at, &[x.pointer]);
    put_registers(x, out, registers)
}

// Whether an older slot is permanently protected, and its pin.
fn older_byte(old: Older) -> u8
    ensures { result ≡ older_byte old }
{
    bits(&[old.permanent, old.pin])
}

// Kept: a form with a place in it, here and in save_restore, and that place's bound: it may lie behind a cut form's end, where a byte counts as 0
// (Form.word_at, .state_from), so that a slice from there on would have to be cut short first.
// The byte at a place of a form, and 0 behind its end.
pub fn byte_at(form: &[u8], at: usize) -> u8
    ensures { result ≡ get_or form.now at 0 }
{
    form.get(at).copied().unwrap_or(0)
}

// The number of two bytes there.
#[tactic(auto, unfolding(save_rules::specs::Form::word_at))]
fn word_at(form: &[u8], at: usize) -> u16
    requires { at ≤ 65536 }
    ensures { result ≡ word_at form.now at }
{
    u16::from_be_bytes([byte_at(form, at), byte_at(form, at + 1)])
}

// A fresh slot of the kind and length there.
#[tactic(auto, unfolding(script_text::specs::Records::pair_at))]
fn read_setup(form: &[u8], at: usize) -> Slot
    requires { at ≤ 65536 }
    ensures { result ≡ setup_slot (pair_at form.now at) }
{
    let kind = byte_at(form, at);
    let length = byte_at(form, at + 1);
    bus_setup::setup_slot(Pair { kind, length })
}

// A slot with the protection, half, counter and high voltage there.
fn read_state(form: &[u8], at: usize, s: Slot) -> Slot
    requires { at ≤ 65536 }
    ensures { result ≡ state_from form.now at s }
{
    let protection = bits_in(byte_at(form, at));
    let old = Older {
        lasting: false,
        ..s.old
    };
    Slot {
        half: byte_at(form, at + 1),
        counter: byte_at(form, at + 2),
        protection,
        coming: protection,
        voltage: byte_at(form, at + 3) == 1,
        old,
        ..s
    }
}

// The pointer and the registers there.
// Kept: each at its place, as Form.sensor_from has it: two of the registers are one byte of their two, so that a list would be taken apart again.
fn sensor_at(form: &[u8], at: usize) -> Sensor
    requires { at ≤ 65520 }
    ensures { result ≡ sensor_from form.now at }
{
    Sensor {
        pointer: byte_at(form, at),
        configuration: word_at(form, at + 1),
        high: word_at(form, at + 3),
        low: word_at(form, at + 5),
        critical: word_at(form, at + 7),
        temperature: word_at(form, at + 9),
        resolution: byte_at(form, at + 12),
        timeout: byte_at(form, at + 14),
        word: 0,
        pending: false,
    }
}

// A slot's sensor with what is pending there.
#[tactic(auto, unfolding(rules::specs::Fields::with_pending))]
fn pending_at(form: &[u8], at: usize, x: Sensor) -> Sensor
    ensures { result ≡ with_pending (eqb (get_or form.now at 0) 1) x }
{
    Sensor {
        pending: byte_at(form, at) == 1,
        ..x
    }
}

// What is permanent there, and the pin.
fn older_at(form: &[u8], at: usize) -> Older
    ensures { result ≡ older_from (get_or form.now at 0) }
{
    let [permanent, pin] = bits_in::<2>(byte_at(form, at));
    Older {
        permanent,
        lasting: false,
        pin,
    }
}
