// The write cycle of a slot: a stop begins it, ticks run it down, and the last of them stores.
#![tactic(auto, unfolding(crate::proofs::Open::cycle))]

ghost use Rattle.std.specs.Prelude.{◌≡◌};
ghost use Rattle.rules.specs.Memory.{any_mark, begun, command_stop, data_stop, brought, ended, put_up_to, stored, ticked_part};
ghost use Rattle.rules.specs.Slot.{slot_next};

use super::{blocks, leaving};
use rules::{Act, Address, Older, Slot};

// At least one byte is latched.
fn any_mark(marks: [bool; 16]) -> bool
    ensures { result ≡ any_mark marks }
{
    marks.iter().any(|mark| *mark)
}

// A stop that begins the write cycle, at its full length.
fn begun(s: Slot) -> Slot
    ensures { result ≡ begun s }
{
    Slot {
        left: s.length,
        place: 0,
        ..s
    }
}

// A stop after a command's two bytes: the write cycle begins, but under the write-protect pin neither cycle nor effect follows.
pub fn command_stop(s: Slot) -> Slot
    ensures { result ≡ command_stop s }
{
    if blocks::pin_on(s) {
        leaving::cancelled(s)
    } else {
        begun(s)
    }
}

// A stop after data bytes: the write cycle begins if at least one is latched. It is a page's, and brings no protection.
pub fn data_stop(s: Slot) -> Slot
    ensures { result ≡ data_stop s }
{
    if any_mark(s.marks) {
        begun(leaving::cancelled(s))
    } else {
        leaving::abandoned(s)
    }
}

// The marked bytes of the latch go to their page, which begins at `at`, as far as part has it.
fn put(part: &mut [u8], at: u16, latch: [u8; 16], marks: [bool; 16])
    ensures { part.new ≡ put_up_to latch marks at 16 part.old }
{
    for (i, mark) in marks.iter().enumerate() {
        let to = usize::from(at) + i;
        if *mark & (to < part.len()) {
            part[to] = latch[i];
        }
    }
}

// The protection that the end brings: the one to come; of an older module block 0 alone, which stays protected if that is permanent.
fn brought(s: Slot) -> [bool; 4]
    ensures { result ≡ brought s }
{
    if s.is_older() {
        [
            s.coming[0] | s.old.permanent | s.old.lasting,
            false,
            false,
            false,
        ]
    } else {
        s.coming
    }
}

// The write cycle ends: what is latched goes to part, the slot's own 512 bytes, the protection to come stands, for ever if it is a lasting one, and
// nothing more is to come.
pub fn ended(s: Slot, part: &mut [u8]) -> Slot
    ensures { (result ≡ ended s) × (part.new ≡ stored s part.old) }
{
    let Address(a) = blocks::address_of(s);
    put(part, a / 16 * 16, s.latch, s.marks);
    let protection = brought(s);
    Slot {
        left: 0,
        protection,
        coming: protection,
        latch: [0; 16],
        marks: [false; 16],
        old: Older {
            permanent: s.old.permanent | s.old.lasting,
            lasting: false,
            ..s.old
        },
        ..s
    }
}

// A tick; part is the slot's own 512 bytes, which change where a write cycle ends. An absent slot is left alone.
pub fn tick(s: Slot, part: &mut [u8]) -> Slot
    ensures { (result ≡ slot_next 0 Act.Tick s) × (part.new ≡ ticked_part s part.old) }
{
    if s.is_absent() {
        return s;
    }
    match s.left {
        0 => s,
        1 => ended(s, part),
        left => Slot {
            left: left - 1,
            ..s
        },
    }
}
