// The law's types, as document 01 names them. What each means, and what the bus does with them, stands in specs/, in the document's order.
#![tactic(auto)]

ghost use Rattle.std.specs.Prelude.{◌≡◌};
ghost use Rattle.rules.specs.Events.{refusal_number};
ghost use Rattle.rules.specs.Fresh.{fresh_sensor, fresh_slot};
ghost use Rattle.rules.specs.Modelled.{absent, sensing, older};

// Kept: no order: a slot's number, and a block's, is looked up or compared with the greatest, and no two are put in order.
// A slot's number, 0 to 7: the select number that it answers to.
#[derive(Clone, Copy, PartialEq, Eq)]
pub struct SlotNo(pub u8);

// A block's number in its slot, 0 to 3.
#[derive(Clone, Copy, PartialEq, Eq)]
pub struct BlockNo(pub u8);

// Kept: no methods for its block and its page: each is asked for in one function, by / as in the law (Modelled.block_of, Memory.stored).
// A byte's place in its slot, 0 to 511.
#[derive(Clone, Copy)]
pub struct Address(pub u16);

// How many of the latched bytes a power cycle still stores of a running write cycle, 0 to 16.
#[derive(Clone, Copy)]
pub struct Cut(pub u8);

// An event as the script's record has it: rubbish is welcome in every field.
// Kept: kind is a number, since one that is none of the ten is an event too, and refused by row 2 (Refusals.unknown_kind, Document/Tables.row-2).
#[derive(Clone, Copy)]
pub struct Event {
    pub kind: u8,
    pub slot: SlotNo,
    pub value: i16,
}

// What reaches one slot alone, by the slot's number: one case for each such kind of event, 7, 9 and 10.
#[derive(Clone, Copy)]
pub enum Applied {
    // High voltage on SA0, on or off.
    Voltage(bool),
    // Sixteenths of a degree.
    Temperature(i16),
    // The write-protect pin of an older module, on or off.
    WriteProtect(bool),
}

// What an event that is not refused does: one case for each kind that reaches every slot, 1 to 6 and 8, and one for those that reach one.
#[derive(Clone, Copy)]
pub enum Act {
    Start,
    Byte(u8),
    // Whether the master then acknowledges.
    Read(bool),
    Stop,
    Timeout,
    Tick,
    Power(Cut),
    Apply(SlotNo, Applied),
}

// What an act carries over the wires and gets an answer to: a byte from the master, a read, or nothing.
// Kept: no Option round the two others; the law goes by these three cases (Events.carried), and an Option of two would be matched in two steps.
#[derive(Clone, Copy)]
pub enum Carried {
    Byte(u8),
    // Whether the master then acknowledges.
    Read(bool),
    Nothing,
}

// Why an event, a setup, a plan, a saving or a reading is refused, each with the paper's number: specs/Events.
#[derive(Clone, Copy, PartialEq, Eq)]
pub enum Refusal {
    MemoryLength = 1,
    UnknownKind,
    WrongSlot,
    WrongValue,
    WrongSetup,
    WrongState,
    // A page that a plan would write lies in a protected block.
    ProtectedPage,
    // A present slot is not idle, or in a write cycle.
    Busy,
    // What was lent to be written has too little room.
    TooShort,
    // A saved form departs from what a saving gives.
    WrongForm,
}

// The paper's number of a refusal.
impl From<Refusal> for u8 {
    ghost from_gives = { λ r n. n ≡ refusal_number r };

    fn from(r: Refusal) -> u8 {
        r as u8
    }
}

// What the bus shows. The paper's letter and value of each: specs/Events.
// Kept: no Result of what is shown; document 01 has a refusal as one of the five answers, with a letter as the others have (Events.letter_of).
// Kept: no From of a refusal: where one is answered, `Answer::Refused(why)` says so in few letters.
#[derive(Clone, Copy, PartialEq, Eq)]
pub enum Answer {
    Nothing,
    Ack,
    Nack,
    Data(u8),
    Refused(Refusal),
}

// What a control byte asks for.
// Kept: Nothing is a case and no Option; "any other byte" stands in document 01's list beside the others, and slots answer to it (Control.heard_of).
#[derive(Clone, Copy)]
pub enum Heard {
    Memory { select: SlotNo, read: bool },
    Sensor { select: SlotNo, read: bool },
    Protect(BlockNo),
    ClearAll,
    ReadProtection(BlockNo),
    SelectHalf(u8),
    ReadHalf,
    // An older module's lasting form.
    ProtectForEver,
    Nothing,
}

// Where a slot stands in an exchange. Nothing but the next event depends on it.
#[derive(Clone, Copy, PartialEq, Eq)]
pub enum Phase {
    // No exchange: bytes and reads are ignored.
    Idle,
    // After a start: the next byte is the control byte.
    Control,
    // Not listening until the next start.
    Deaf,
    // Memory write: the next byte loads the counter, and the later ones are data.
    MemoryCounter,
    MemoryData,
    // Memory read.
    MemoryRead,
    // After 6Ch or 6Eh.
    HalfSelected,
    // Protect or clear: the address byte is to come, then the data byte, then the stop.
    CommandAddress,
    CommandData,
    CommandStop,
    // Sensor write: the pointer byte is to come, then the register's high byte, then its low byte.
    SensorPointer,
    SensorHigh,
    SensorLow,
    // Sensor read: the high byte is to come, then the low byte.
    SensorReadHigh,
    SensorReadLow,
}

// What a phase is; specs/Slot has the table.
// Kept: four words beside each other; a reader of a phase asks for one of them at a time, and the law's table has them so (Slot.traits).
#[derive(Clone, Copy)]
pub struct Traits {
    pub sensor: bool,
    pub command: bool,
    pub takes: bool,
    pub drives: bool,
}

// The registers that can change, and what an exchange with the sensor holds.
#[derive(Clone, Copy)]
pub struct Sensor {
    pub pointer: u8,
    pub configuration: u16,
    pub high: u16,
    pub low: u16,
    pub critical: u16,
    pub temperature: u16,
    pub resolution: u8,
    pub timeout: u8,
    // In a read the register as it was at the control byte, in a write its high byte, which came first; else 0.
    pub word: u16,
    // Of the EVENT pin: a change that nobody has cleared yet.
    pub pending: bool,
}

impl Sensor {
    // Kept: `fresh` and no Default: so a slot's is named, which takes a kind and a length (Fresh.fresh_sensor, .fresh_slot).
    // A sensor at its defaults.
    pub fn fresh() -> Self
        ensures { result ≡ fresh_sensor }
    {
        Self {
            pointer: 0,
            configuration: 0,
            high: 0,
            low: 0,
            critical: 0,
            temperature: 0,
            resolution: 1,
            timeout: 1,
            word: 0,
            pending: false,
        }
    }
}

// What an older 2-Kbit module alone has; in a slot of another kind it has no effect.
#[derive(Clone, Copy)]
pub struct Older {
    // Its protection is permanent, and will be once the running command has its way; false without one.
    pub permanent: bool,
    pub lasting: bool,
    // The write-protect pin is on.
    pub pin: bool,
}

#[derive(Clone, Copy)]
pub struct Slot {
    // 0 absent, 1 memory, 2 memory with sensor, 3 older 2-Kbit memory; any other number is refused by row 6.
    // Kept: a number and no enum, here and in Pair, since what is handed in may be rubbish, and rows 5 and 6 refuse it (Refusals.good_pair,
    // .kind_in_range; Document/Tables.row-6-kind); so are the sensor and what is an older module's alone fields of every slot.
    pub kind: u8,
    // The write cycle's length in ticks, and how many are left of the running one; 0 for none.
    // Kept: a number and no Option; document 01's state has "ticks left 0 to length" as one number, and row 6 its range (Refusals.slot_in_range).
    pub length: u8,
    pub left: u8,
    // Kept: a half, here, in Heard and in plan_pages, is 0 or 1 as a number: another may be handed in, and row 6 refuses it (Refusals.slot_in_range).
    pub half: u8,
    pub counter: u8,
    // Which blocks are protected, and which will be once the running command has its way; the same without one.
    // Kept: two lists of blocks and no list of pairs: commands and the cycle's end take one of them as a whole (Fields.to_come, Memory.brought).
    pub protection: [bool; 4],
    pub coming: [bool; 4],
    // High voltage on SA0.
    pub voltage: bool,
    pub phase: Phase,
    // The page latch: its bytes, which of them were written, and the place for the next.
    // Kept: bytes and marks beside each other, document 01's form; a byte with no mark may be handed in and is told as it is (edges hands one in),
    // and theorems on "every state" speak of it: optional bytes would leave out states.
    pub latch: [u8; 16],
    pub marks: [bool; 16],
    pub place: u8,
    pub sensor: Sensor,
    pub old: Older,
}

impl Slot {
    // Bytes of a slot, of a block and of a page.
    pub const BYTES: usize = 512;

    pub const BLOCK: usize = 128;

    pub const PAGE: usize = 16;

    // Kept: a function for each of three kinds and none of a number: the number is what their names are there to hide.
    // A slot that is not there.
    pub fn is_absent(&self) -> bool
        ensures { result ≡ absent self.now }
    {
        self.kind == 0
    }

    // A memory with a sensor.
    pub fn has_sensor(&self) -> bool
        ensures { result ≡ sensing self.now }
    {
        self.kind == 2
    }

    // An older 2-Kbit memory.
    pub fn is_older(&self) -> bool
        ensures { result ≡ older self.now }
    {
        self.kind == 3
    }

    // A slot as setup leaves it.
    pub fn fresh(kind: u8, length: u8) -> Self
        ensures { result ≡ fresh_slot kind length }
    {
        let sensor = Sensor::fresh();
        Self {
            kind,
            length,
            left: 0,
            half: 0,
            counter: 0,
            protection: [false; 4],
            coming: [false; 4],
            voltage: false,
            phase: Phase::Idle,
            latch: [0u8; 16],
            marks: [false; 16],
            place: 0,
            sensor,
            old: Older {
                permanent: false,
                lasting: false,
                pin: false,
            },
        }
    }
}

#[derive(Clone, Copy)]
pub struct Bus {
    pub slots: [Slot; 8],
}

impl Bus {
    // Bytes of the memory that a bus is lent.
    pub const MEMORY: usize = 4096;
}

// A slot's setup.
#[derive(Clone, Copy)]
pub struct Pair {
    pub kind: u8,
    pub length: u8,
}

// The EVENT pin of a slot: asserted or not, and the level of the wire, true for high.
#[derive(Clone, Copy)]
pub struct Pin {
    pub asserted: bool,
    pub level: bool,
}

// What a public entry gives back beside the lent memory.
// Kept: a bus beside the answer, and no Result of a bus, for setup, restore and lists too: a refusal has a bus, the one that was there, or that of
// a refused setup (Refusals.setup_of, save_rules/Reading.restore_of).
#[derive(Clone, Copy)]
pub struct Outcome {
    pub bus: Bus,
    pub answer: Answer,
}

impl Outcome {
    // What was asked for is done, and has led to this bus.
    pub fn taken(bus: Bus) -> Self
        ensures { result ≡ record { bus = bus; answer = Answer.Nothing } }
    {
        let answer = Answer::Nothing;
        Self { bus, answer }
    }

    // What is refused leaves the bus that was there.
    pub fn refused(bus: Bus, why: Refusal) -> Self
        ensures { result ≡ record { bus = bus; answer = Answer.Refused why } }
    {
        let answer = Answer::Refused(why);
        Self { bus, answer }
    }
}
