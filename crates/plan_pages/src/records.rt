// A plan's events laid as script records at the front of a lent buffer. The `requires` are about the room.
ghost use Rattle.std.specs.Prelude.{◌≡◌, [], ◌∷◌, map, ◌+◌, ◌*◌, ◌≤◌, length};
ghost use Rattle.plan_rules.specs.Plan.{byte, ticks, selecting};
ghost use Rattle.plan_rules.specs.Records.{record_of};
ghost use Rattle.plan_pages.specs.Laid.{event_of, with_laid, exchanging};

// The events that a plan is made of. What each is as a script's event: specs/Laid.
#[derive(Clone, Copy)]
pub enum Step {
    Start,
    Byte(u8),
    Stop,
    Tick,
}

impl Step {
    // As a record: kind, slot and value. The slot is 0, and the value one byte.
    #[tactic(auto, unfolding(crate::specs::Laid::event_of, plan_rules::specs::Records::record_of, plan_rules::specs::Records::word_of))]
    fn record(self) -> [u8; 4]
        ensures { result ≡ record_of (event_of self) }
    {
        match self {
            Step::Start => [1, 0, 0, 0],
            Step::Byte(b) => [2, 0, 0, b],
            Step::Stop => [4, 0, 0, 0],
            Step::Tick => [6, 0, 0, 0],
        }
    }
}

// A plan as far as it is laid: the buffer, and how many records stand at its front.
// Kept: each method asks for the room that it needs, and no fact of the type does: how many records it lays is another number for each.
#[derive(Drop)]
pub struct Plan<'a> {
    pub buffer: &'a mut [u8],
    pub count: usize,
}

impl<'a> Plan<'a> {
    // One event.
    fn put(&mut self, step: Step)
        requires { 4 * self.old.count + 4 ≤ length self.old.buffer.now }
        ensures { self.new ≡ with_laid (event_of step ∷ []) self.old }
    {
        let at = 4 * self.count;
        self.buffer[at..at + 4].copy_from_slice(&step.record());
        self.count += 1;
    }

    // So many ticks.
    pub fn ticks(&mut self, count: u8)
        requires { 4 * (self.old.count + count) ≤ length self.old.buffer.now }
        ensures { self.new ≡ with_laid (ticks count) self.old }
    {
        for _ in 0..count {
            self.put(Step::Tick);
        }
    }

    // Bytes from the master.
    fn bytes(&mut self, sent: &[u8])
        requires { 4 * (self.old.count + length sent.now) ≤ length self.old.buffer.now }
        ensures { self.new ≡ with_laid (map byte sent.now) self.old }
    {
        for b in sent {
            self.put(Step::Byte(*b));
        }
    }

    // A whole exchange: start, control byte, the bytes behind it, stop.
    pub fn exchange(&mut self, control: u8, sent: &[u8])
        requires { 4 * (self.old.count + length sent.now + 3) ≤ length self.old.buffer.now }
        ensures { self.new ≡ with_laid (exchanging control sent.now) self.old }
    {
        self.put(Step::Start);
        self.put(Step::Byte(control));
        self.bytes(sent);
        self.put(Step::Stop);
    }

    // Half 0 or 1 is selected, by a control byte with nothing behind it; where it stands already, nothing is laid.
    pub fn selecting(&mut self, stands: u8, half: u8)
        requires { (half ≤ 1) × (4 * (self.old.count + 3) ≤ length self.old.buffer.now) }
        ensures { self.new ≡ with_laid (selecting stands half) self.old }
    {
        if half != stands {
            self.exchange(0x6C + 2 * half, &[]);
        }
    }
}
