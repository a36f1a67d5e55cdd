// A power cycle at one slot, and what it still does of a write cycle that is running.
#![tactic(auto, unfolding(crate::proofs::Open::power))]

ghost use Rattle.std.specs.Prelude.{◌≡◌};
ghost use Rattle.rules.specs.Fresh.{powered};
ghost use Rattle.rules.specs.Power.{first_of, cut, cut_part};
ghost use Rattle.rules.specs.Slot.{slot_next};

use super::cycle;
use rules::{Act, Cut, Older, Slot};

// Of the latched bytes, in ascending page offset, the first so many.
fn first_of(k: Cut, marks: [bool; 16]) -> [bool; 16]
    ensures { result ≡ first_of k marks }
{
    let mut first = marks;
    let mut below = 0u8;
    for mark in first.iter_mut() {
        if *mark {
            *mark = below < k.0;
            below += 1;
        }
    }
    first
}

// A running cycle with the rest lost: of its bytes the first so many are left.
fn shortened(k: Cut, s: Slot) -> Slot
    ensures { result ≡ cut k s }
{
    Slot {
        marks: first_of(k, s.marks),
        ..s
    }
}

// Power keeps protection, permanent or not, the voltage and the write-protect pin, and all else is fresh.
fn powered(s: Slot) -> Slot
    ensures { result ≡ powered s }
{
    let fresh = Slot::fresh(s.kind, s.length);
    let protection = s.protection;
    Slot {
        protection,
        coming: protection,
        voltage: s.voltage,
        old: Older {
            permanent: s.old.permanent,
            pin: s.old.pin,
            ..fresh.old
        },
        ..fresh
    }
}

// A power cycle; part is the slot's own 512 bytes, which change where it cuts a write cycle short. Without a cycle the number has no effect, and 0
// drops a running one: no byte is stored and no protection comes. An absent slot is left alone.
pub fn cut(k: Cut, s: Slot, part: &mut [u8]) -> Slot
    ensures { (result ≡ slot_next 0 (Act.Power k) s) × (part.new ≡ cut_part k s part.old) }
{
    if s.is_absent() {
        s
    } else if (s.left == 0) | (k.0 == 0) {
        powered(s)
    } else {
        powered(cycle::ended(shortened(k, s), part))
    }
}
