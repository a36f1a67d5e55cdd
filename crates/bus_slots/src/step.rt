// One slot at an event of any kind: what it does, and what it shows. It looks at no other slot.
// Kept: a slot's number n beside the slot, here and below, and no struct of both: the law's definitions take them apart, and half the functions of a
// slot need no number.
#![tactic(auto, unfolding(crate::proofs::Open::step))]

ghost use Rattle.std.specs.Prelude.{◌≡◌, false, cond};
ghost use Rattle.rules.specs.Control.{heard_of};
ghost use Rattle.rules.specs.Slot.{slot_next, acks, drives, driven, part_next};
ghost use Rattle.bus_slots.specs.Stepped.{stepped};

use super::line::Line;
use bus_slot::drive::Drive;
use bus_slot::obey::Heed;
use bus_slot::signal::Signal;
use rules::{Act, Applied, Heard, Slot, SlotNo};

// Kept: beside bus_slot's Drive and Heed: a read has no ACK, a byte from the master drives none, and a Step is what any act comes to.
// A slot after an act, whether it acknowledges, and the byte that it drives, if it drives one.
#[derive(Clone, Copy)]
pub struct Step {
    pub slot: Slot,
    pub ack: bool,
    pub byte: Option<u8>,
}

// A slot that shows nothing.
fn quiet(slot: Slot) -> Step
    ensures { result ≡ record { slot = slot; ack = false; byte = None } }
{
    Step {
        slot,
        ack: false,
        byte: None,
    }
}

// A step at a byte; h is what it asks for by document 01.
fn heeding(b: u8, h: Heard, n: SlotNo, s: Slot) -> Step
    requires { h ≡ heard_of b }
    ensures { result ≡ record { slot = slot_next n.0 (Act.Byte b) s; ack = acks n.0 b s; byte = None } }
{
    let Heed { slot, ack } = bus_slot::listen::byte(s, n, b, bus_control::heard_by(h, n, b, s));
    Step {
        slot,
        ack,
        byte: None,
    }
}

// A step at a read.
fn driving(more: bool, s: Slot, part: &[u8]) -> Step
    ensures { result ≡ record { slot = slot_next 0 (Act.Read more) s; ack = false; byte = cond (drives s) (Some (driven part.now s)) None } }
{
    let Drive { slot, byte } = bus_slot::drive::read(s, part, more);
    Step {
        slot,
        ack: false,
        byte,
    }
}

// The step at what is applied to slot k.
fn applied(k: SlotNo, x: Applied, n: SlotNo, s: Slot) -> Step
    ensures { result ≡ record { slot = slot_next n.0 (Act.Apply k x) s; ack = false; byte = None } }
{
    if k == n {
        quiet(bus_slot::pins::applied(x, s))
    } else {
        quiet(s)
    }
}

// Slot n's step at an act; part is its own 512 bytes, which a tick and a power cycle may change.
pub fn next(line: Line, n: SlotNo, s: Slot, part: &mut [u8]) -> Step
    ensures { (result ≡ stepped n.0 line.act part.old s) × (part.new ≡ part_next line.act s part.old) }
{
    // Kept: an arm for each act, here, in foreseen and in line: the law's table, and the check sees that no act is left out.
    match line.act {
        Act::Start => quiet(bus_slot::signal::signalled(Signal::Start, s)),
        Act::Byte(b) => heeding(b, line.heard, n, s),
        Act::Read(more) => driving(more, s, part),
        Act::Stop => quiet(bus_slot::signal::signalled(Signal::Stop, s)),
        Act::Timeout => quiet(bus_slot::signal::signalled(Signal::Timeout, s)),
        Act::Tick => quiet(bus_slot::cycle::tick(s, part)),
        Act::Power(k) => quiet(bus_slot::power::cut(k, s, part)),
        Act::Apply(k, x) => applied(k, x, n, s),
    }
}
