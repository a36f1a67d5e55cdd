// What the bus shows at an act, joined from what its slots show.
ghost use Rattle.std.specs.Prelude.{◌≡◌, ◌||◌};
ghost use Rattle.std.specs.Option.{option_or, unwrap_or};
ghost use Rattle.bus_slots.specs.Shown.{answer_for};

use rules::{Answer, Carried};

// What the slots so far show: whether one acknowledges, and the byte of the first that drives one.
#[derive(Clone, Copy)]
pub struct Shown {
    pub ack: bool,
    pub byte: Option<u8>,
}

// What one slot more adds to it: whether it acknowledges, and the byte that it drives, if it drives one.
pub fn joined(t: Shown, ack: bool, byte: Option<u8>) -> Shown
    ensures { result ≡ record { ack = t.ack || ack; byte = option_or t.byte byte } }
{
    Shown {
        ack: t.ack | ack,
        byte: t.byte.or(byte),
    }
}

// What the bus shows, by what an act carries: whether a slot acknowledges, or the byte read, FFh where none drives one.
pub fn answer_of(c: Carried, t: Shown) -> Answer
    ensures { result ≡ answer_for c t.ack (unwrap_or t.byte 255) }
{
    match c {
        Carried::Byte(_) => if t.ack { Answer::Ack } else { Answer::Nack },
        Carried::Read(_) => Answer::Data(t.byte.unwrap_or(0xFF)),
        Carried::Nothing => Answer::Nothing,
    }
}
