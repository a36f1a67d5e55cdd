// What an event is refused for, by document 01's rows 2, 3 and 4, and what one that passes them is taken for.
ghost use Rattle.std.specs.Prelude.{◌≡◌, cond, pos, nat_abs, Ok, Err};
ghost use Rattle.rules.specs.Events.{is_one, act_of};
ghost use Rattle.rules.specs.Refusals.{kind_at, wrong_slot, outside, wrong_value, ruled_for};
ghost use Rattle.bus_refusals.specs.Kinds.{kinds_in, kind_of, event_with};

use rules::{Act, Applied, Cut, Event, Refusal, Slot, SlotNo};

// The kind of slot n; 0, absent, where there is no such slot.
pub fn kind_at(slots: [Slot; 8], n: SlotNo) -> u8
    ensures { result ≡ kind_at (kinds_in slots) n }
{
    slots.get(usize::from(n.0)).map_or(0, |s| s.kind)
}

// The kinds of events that there are. The number of each, by which an event names it: specs/Kinds.
#[derive(Clone, Copy)]
enum Kind {
    Start,
    Byte,
    Read,
    Stop,
    Timeout,
    Tick,
    Voltage,
    Power,
    Temperature,
    WriteProtect,
}

// Row 2: the kind is not 1 to 10.
impl TryFrom<u8> for Kind {
    type Error = Refusal;

    ghost try_from_gives = { λ n r. r ≡ kind_of n };

    fn try_from(number: u8) -> Result<Self, Refusal> {
        match number {
            1 => Ok(Kind::Start),
            2 => Ok(Kind::Byte),
            3 => Ok(Kind::Read),
            4 => Ok(Kind::Stop),
            5 => Ok(Kind::Timeout),
            6 => Ok(Kind::Tick),
            7 => Ok(Kind::Voltage),
            8 => Ok(Kind::Power),
            9 => Ok(Kind::Temperature),
            10 => Ok(Kind::WriteProtect),
            _ => Err(Refusal::UnknownKind),
        }
    }
}

// A value in a range, or row 4.
fn within(least: i16, most: i16, v: i16) -> Result<i16, Refusal>
    ensures { result ≡ cond (outside least most v) (Err Refusal.WrongValue) (Ok v) }
{
    if (v < least) | (most < v) {
        return Err(Refusal::WrongValue);
    }
    Ok(v)
}

// A number from 0 to the most that there may be, or row 4.
fn number(most: u8, v: i16) -> Result<u8, Refusal>
    ensures { result ≡ cond (outside (pos 0) (pos most) v) (Err Refusal.WrongValue) (Ok (nat_abs v)) }
{
    match u8::try_from(v) {
        Ok(n) if n <= most => Ok(n),
        _ => Err(Refusal::WrongValue),
    }
}

// On for 1, off for 0, or row 4.
fn switch(v: i16) -> Result<bool, Refusal>
    ensures { result ≡ cond (outside (pos 0) (pos 1) v) (Err Refusal.WrongValue) (Ok (is_one v)) }
{
    Ok(number(1, v)? == 1)
}

impl Kind {
    // Row 3, by the kind of the slot that the event names: a voltage for one that is not there, a temperature for one without a sensor, or a
    // write-protect pin of one that is no older module.
    // Kept: the slot's kind by its number, as the state has it; where there is no slot it is 0 (Refusals.kind_at, Refusals.wrong_slot).
    fn wrong_slot(self, kind: u8, n: SlotNo) -> bool
        ensures { result ≡ wrong_slot kind (event_with self n (pos 0)) }
    {
        match self {
            Kind::Voltage => (7 < n.0) | (kind == 0),
            Kind::Temperature => (7 < n.0) | (kind != 2),
            Kind::WriteProtect => (7 < n.0) | (kind != 3),
            _ => false,
        }
    }

    // Row 4, and what an event with a value in range does.
    fn act(self, n: SlotNo, v: i16) -> Result<Act, Refusal>
        ensures { result ≡ cond (wrong_value (event_with self n v)) (Err Refusal.WrongValue) (Ok (act_of (event_with self n v))) }
    {
        Ok(match self {
            Kind::Start => Act::Start,
            Kind::Byte => Act::Byte(number(255, v)?),
            Kind::Read => Act::Read(switch(v)?),
            Kind::Stop => Act::Stop,
            Kind::Timeout => Act::Timeout,
            Kind::Tick => Act::Tick,
            Kind::Voltage => Act::Apply(n, Applied::Voltage(switch(v)?)),
            Kind::Power => Act::Power(Cut(number(16, v)?)),
            Kind::Temperature => Act::Apply(n, Applied::Temperature(within(-640, 2000, v)?)),
            Kind::WriteProtect => Act::Apply(n, Applied::WriteProtect(switch(v)?)),
        })
    }
}

// What an event is taken for, by rows 2, 3 and 4 and the kind of the slot that it names.
pub fn ruled(kind: u8, e: Event) -> Result<Act, Refusal>
    ensures { result ≡ ruled_for kind e }
{
    let what = Kind::try_from(e.kind)?;
    if what.wrong_slot(kind, e.slot) {
        return Err(Refusal::WrongSlot);
    }
    what.act(e.slot, e.value)
}
