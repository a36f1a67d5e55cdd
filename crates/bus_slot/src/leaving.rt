// What is let go when an exchange is left: what it held of the slot, by the phase that it is left in.
#![tactic(auto, unfolding(crate::proofs::Open::leaving))]

ghost use Rattle.std.specs.Prelude.{◌≡◌};
ghost use Rattle.rules.specs.Memory.{abandoned, cancelled};
ghost use Rattle.rules.specs.Slot.{let_go, lost};

use super::{blocks, phase};
use rules::{Phase, Slot};

// The latched bytes are abandoned; the counter stays where it stands.
pub fn abandoned(s: Slot) -> Slot
    ensures { result ≡ abandoned s }
{
    Slot {
        latch: [0; 16],
        marks: [false; 16],
        place: 0,
        ..s
    }
}

// A protect or clear is cancelled: the protection to come is the one that stands, and none will be permanent that was not.
pub fn cancelled(s: Slot) -> Slot
    ensures { result ≡ cancelled s }
{
    blocks::to_come(s.protection, false, s)
}

// Kept: by the phase's words, as Slot.let_go has it: by the phases themselves it would say again which of them have which word.
// The slot without what an exchange that is left in this phase held of it.
pub fn let_go(p: Phase, s: Slot) -> Slot
    ensures { result ≡ let_go p s }
{
    let t = phase::traits(p);
    if t.sensor {
        phase::holding(0, s)
    } else if t.command {
        cancelled(s)
    } else if t.takes {
        abandoned(s)
    } else {
        s
    }
}

// An exchange that is left in this phase, so that the slot is deaf.
pub fn lost(p: Phase, s: Slot) -> Slot
    ensures { result ≡ lost p s }
{
    phase::in_phase(Phase::Deaf, let_go(p, s))
}
