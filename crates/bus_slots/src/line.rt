// An act as every slot meets it: what it carries over the wires, and what that asks for as a control byte.
#![tactic(auto)]

ghost use Rattle.std.specs.Prelude.{◌≡◌, refl};
ghost use Rattle.rules.specs.Events.{carried};
ghost use Rattle.bus_slots.specs.Foreseen.{heard_in, carrying};

use rules::{Act, Carried, Heard};

// What an act carries over the wires.
pub fn carried(a: Act) -> Carried
    ensures { result ≡ carried a }
{
    match a {
        Act::Byte(b) => Carried::Byte(b),
        Act::Read(more) => Carried::Read(more),
        Act::Start | Act::Stop | Act::Timeout | Act::Tick | Act::Power(_) | Act::Apply(_, _) =>
            Carried::Nothing,
    }
}

// What a control byte asks for, if a byte is carried.
pub fn heard_in(c: Carried) -> Heard
    ensures { result ≡ heard_in c }
{
    match c {
        Carried::Byte(b) => bus_control::hear(b),
        Carried::Read(_) | Carried::Nothing => Heard::Nothing,
    }
}

// Whether it is a byte or a read, which concern no slot but those that listen.
pub fn carrying(c: Carried) -> bool
    ensures { result ≡ carrying c }
{
    matches!(c, Carried::Byte(_) | Carried::Read(_))
}

// An act with both, which are the same for every slot and so are found once.
#[derive(Clone, Copy)]
pub struct Line {
    pub act: Act,
    pub carries: Carried,
    pub heard: Heard,
    ghost is_carried: { carries ≡ carried act },
    ghost is_heard: { heard ≡ heard_in (carried act) },
}

impl Line {
    pub fn new(act: Act) -> Self
        ensures { result ≡ record { act = act; carries = carried act; heard = heard_in (carried act); is_carried = refl; is_heard = refl } }
    {
        let carries = carried(act);
        Line {
            act,
            carries,
            heard: heard_in(carries),
        }
    }
}
