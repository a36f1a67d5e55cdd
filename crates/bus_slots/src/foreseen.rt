// What can be told of a slot's step at an act before it is done: most slots stay where they are, or only move to another phase.
#![tactic(auto, unfolding(rules::specs::Modelled::absent, crate::specs::Foreseen::Foreseen))]

ghost use Rattle.std.specs.Prelude.{◌≡◌, true, cond, ◌||◌, eqb};
ghost use Rattle.rules.specs.Control.{heard_of};
ghost use Rattle.rules.specs.Slot.{traits, standing};
ghost use Rattle.rules.specs.Modelled.{absent};
ghost use Rattle.bus_slots.specs.Foreseen.{Unheard, Foreseen};

use super::line;
use super::line::Line;
use rules::{Act, Heard, Phase, Slot, SlotNo};

// The slot stays, or moves to another phase and no more, and shows nothing; or there is more to it.
// Kept: three cases and no Option round the phase: that nothing is told is one more answer, and the loop asks for all three in one match.
#[derive(Clone, Copy)]
pub enum Change {
    Nothing,
    To(Phase),
    More,
}

// The slot is idle or deaf.
fn unheard(s: Slot) -> bool
    ensures { result ≡ true → Unheard (standing s) }
{
    matches!(bus_slot::phase::standing(s), Phase::Idle | Phase::Deaf)
}

// Of a slot whose exchange holds nothing of it a start, stop or timeout changes the phase alone.
fn at_signal(next: Phase, s: Slot) -> Change
    ensures { result ≡ cond (absent s) Change.Nothing
        (cond ((traits (standing s)).sensor || (traits (standing s)).command || (traits (standing s)).takes) Change.More (Change.To next)) }
{
    if s.is_absent() {
        return Change::Nothing;
    }
    let t = bus_slot::phase::traits(bus_slot::phase::standing(s));
    if t.sensor | t.command | t.takes {
        Change::More
    } else {
        Change::To(next)
    }
}

// A slot that does not acknowledge its control byte goes deaf; h is what that asks for by document 01.
fn at_control(b: u8, h: Heard, n: SlotNo, s: Slot) -> Change
    requires { h ≡ heard_of b }
    ensures { Foreseen result n.0 (Act.Byte b) s }
{
    match bus_slot::phase::standing(s) {
        Phase::Control if !bus_slot::obey::acks_control(bus_control::heard_by(h, n, b, s), n, s) =>
            Change::To(Phase::Deaf),
        _ => Change::More,
    }
}

// A tick touches a slot in a write cycle.
fn at_tick(n: SlotNo, s: Slot) -> Change
    ensures { Foreseen result n.0 Act.Tick s }
{
    if s.left == 0 {
        Change::Nothing
    } else {
        Change::More
    }
}

// What is applied to one slot touches the slot that it names.
fn at_one(k: SlotNo, n: SlotNo) -> Change
    ensures { result ≡ cond (eqb k.0 n.0) Change.More Change.Nothing }
{
    if k == n {
        Change::More
    } else {
        Change::Nothing
    }
}

// What can be told of slot n's step at an act.
pub fn glance(line: Line, n: SlotNo, s: Slot) -> Change
    ensures { Foreseen result n.0 line.act s }
{
    if line::carrying(line.carries) & unheard(s) {
        return Change::Nothing;
    }
    match line.act {
        Act::Start => at_signal(Phase::Control, s),
        Act::Byte(b) => at_control(b, line.heard, n, s),
        // Kept: an arm each for stop and timeout, since must-fail/foreseen_stop_leaves_the_slot_deaf changes that of the stop alone.
        Act::Stop => at_signal(Phase::Idle, s),
        Act::Timeout => at_signal(Phase::Idle, s),
        Act::Tick => at_tick(n, s),
        Act::Read(_) | Act::Power(_) => Change::More,
        Act::Apply(k, _) => at_one(k, n),
    }
}
