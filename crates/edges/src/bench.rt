// The bench of the tries: what a command goes on from, and what each command does.
use super::commands::{Below, Command, NotUnderstood, Place, Size};
use super::report::{Changes, Hex, Part, PinInWords, Rest, Shown};
use super::words::Word;
use super::{report, state};
use arrayvec::ArrayVec;
use rules::{Answer, BlockNo, Bus, Event, Pair, SlotNo};

// Kept: not bus_bench's: tries hand in states out of range and memories of any length, which the invariant of that one excludes.
#[derive(Clone, Copy)]
pub struct Bench {
    // Those of the last setup.
    pairs: [Pair; 8],
    pub bus: Bus,
    // How much of the memory is lent, and the shelf for saved forms, images and plans.
    length: Size,
    pub memory: [u8; 8192],
    shelf: [u8; 8192],
}

// A byte of the memory or of the shelf.
fn byte(bytes: &[u8; 8192], at: Place) {
    report::say(format_args!(": {}", Hex(u16::from(bytes[at.n]))));
}

impl Bench {
    // Before the first setup.
    pub fn new() -> Bench {
        let pairs = [Pair { kind: 0, length: 0 }; 8];
        Bench {
            pairs,
            bus: bus_setup::setup(pairs).bus,
            length: Size { n: 4096 },
            memory: state::filled(),
            shelf: [0; 8192],
        }
    }

    // What a try begins with: the bus of the last setup, and a memory of 4096 bytes.
    pub fn begin(&mut self) {
        self.bus = bus_setup::setup(self.pairs).bus;
        self.length = Size { n: 4096 };
        self.memory = state::filled();
        self.shelf = state::filled();
    }

    // What is lent of the memory.
    fn lent(&self) -> &[u8] {
        &self.memory[..self.length.n]
    }

    fn lent_mut(&mut self) -> &mut [u8] {
        let n = self.length.n;
        &mut self.memory[..n]
    }

    // What moves bus and memory, and what it has changed.
    fn moved<F: FnOnce(&mut Bench)>(&mut self, step: F)
        requires { F.IsAlwaysCallable step }
    {
        let before = *self;
        step(self);
        let after = &*self;
        let changes = Changes {
            before: &before,
            after,
        };
        report::say(changes);
    }

    fn act(&mut self, e: Event) {
        let bus = self.bus;
        let done = bus_event::event(bus, self.lent_mut(), e);
        self.bus = done.bus;
        report::answer(done.answer);
    }

    // The first bytes of the shelf as a form.
    fn restore(&mut self, size: Size) {
        let bus = self.bus;
        let shelf = self.shelf;
        let form = &shelf[..size.n];
        let done = save_restore::restore(bus, self.lent_mut(), form);
        self.bus = done.bus;
        report::answer(done.answer);
    }

    // Records as a list, and what then stands at its answer places: lines as the list program writes them, each behind a space instead of its end.
    fn give(&mut self, places: u8, records: ArrayVec<u8, 32>) {
        let mut text = [0u8; 262140];
        let bus = self.bus;
        let told = list_lend::lend::give_records(
            bus,
            self.lent_mut(),
            records.as_slice(),
            usize::from(places),
            &mut text,
        );
        self.bus = told.bus;
        report::say(":");
        if told.end == 0 {
            report::say(" empty");
        }
        for line in text[..told.end.min(262140)]
            .split(|b| *b == b'\n')
            .filter(|line| !line.is_empty())
        {
            report::say(" ");
            report::copy(line);
        }
    }

    // Bytes as the records of a capture: the verdict's line as the capture program writes it, but for the line's end, which is the try's own.
    fn check(&self, records: &[u8]) {
        let mut line = [0u8; 32];
        let verdict = capture_entry::check(self.pairs, self.lent(), records);
        let end = capture_pieces::text::put_verdict(&mut line, verdict);
        report::say(": ");
        report::copy(line[..end].trim_ascii_end());
    }

    fn pin(&self, n: SlotNo) {
        match bus_pin::pin(self.bus, n) {
            Ok(p) => report::say(format_args!(": {}", PinInWords(p))),
            Err(r) => report::answer(Answer::Refused(r)),
        }
    }

    // A saving into the first bytes of the shelf: the form's length or the refusal, and whether the shelf has changed.
    fn save(&mut self, room: Size) {
        let mut shelf = self.shelf;
        match save_entry::save(self.bus, self.lent(), &mut shelf[..room.n]) {
            Ok(n) => report::say(format_args!(": {n} bytes")),
            Err(r) => report::answer(Answer::Refused(r)),
        }
        report::say(Rest {
            before: &self.shelf,
            after: &shelf,
            behind: false,
        });
        self.shelf = shelf;
    }

    // A plan, laid into the first bytes of the shelf: how many records or the refusal, and whether the shelf has changed behind them. Its image stood
    // on the shelf where the slot's own bytes stand in the memory.
    fn plan(&mut self, slot: SlotNo, image: Below<4609>, room: Size) {
        let before = self.shelf;
        let mut shelf = before;
        let from = 512 * usize::from(slot.0 % 8);
        let wanted = &before[from..from + image.n];
        let mut end = 0;
        match plan_entry::plan(self.bus, self.lent(), slot, wanted, &mut shelf[..room.n]) {
            Ok(n) => {
                report::say(format_args!(": {n} records"));
                end = 4 * n.min(2048);
            }
            Err(r) => report::answer(Answer::Refused(r)),
        }
        report::say(Rest {
            before: &before[end..],
            after: &shelf[end..],
            behind: 0 < end,
        });
        self.shelf = shelf;
    }

    // The four bytes of a record on the shelf.
    fn record(&self, k: Below<2048>) {
        report::say(":");
        for b in &self.shelf[4 * k.n..4 * k.n + 4] {
            report::say(format_args!(" {}", Hex(u16::from(*b))));
        }
    }

    fn setup(&mut self, pairs: [Pair; 8]) {
        let made = bus_setup::setup(pairs);
        self.pairs = pairs;
        self.bus = made.bus;
        report::answer(made.answer);
    }

    // Numbers of a slot are handed in, if all of them are there and fit.
    fn slot(&mut self, n: Below<8>, words: [Word; 37]) -> Result<(), NotUnderstood> {
        self.bus.slots[n.n] = state::hand_in(self.bus.slots[n.n], &words)?;
        Ok(())
    }

    fn block(&self, n: SlotNo, k: BlockNo) {
        let part = bus_block::block(self.lent(), self.bus, n, k);
        report::say(format_args!(": {}", Part(part)));
    }

    pub fn run(&mut self, command: Command) -> Result<(), NotUnderstood> {
        match command {
            Command::Setup(pairs) => self.setup(pairs),
            Command::Memory(n) => self.length = n,
            Command::Slot(n, words) => self.slot(n, words)?,
            Command::Show(n) => report::say(format_args!(":{}", Shown(self.bus.slots[n.n]))),
            Command::At(at) => byte(&self.memory, at),
            Command::Block(n, k) => self.block(n, k),
            Command::Check(records) => self.check(records.as_slice()),
            Command::Save(room) => self.save(room),
            Command::Restore(size) => self.moved(|b| b.restore(size)),
            Command::Form(at) => byte(&self.shelf, at),
            Command::Put(at, b) => self.shelf[at.n] = b,
            Command::List(places, records) => self.moved(|b| b.give(places, records)),
            Command::Plan(slot, image, room) => self.plan(slot, image, room),
            Command::Record(k) => self.record(k),
            Command::Pin(n) => self.pin(n),
            Command::Event(e) => self.moved(|b| b.act(e)),
        }
        Ok(())
    }
}
