// What `edges` tells of its tries.
use super::bench::Bench;
use super::names::{NUMBERS, PHASES};
use super::state::Numbers;
use rules::{Answer, Pin, Slot};
use std::fmt;
use std::fmt::{Display, Formatter, Write};

// Kept: as in main: with std's streams edges would rest on an axiom more (os::c::rattle_errno).
// The descriptor of standard output.
const STDOUT_FILENO: i32 = 1;

// Bytes as they are, which need not be text. What cannot be written is left out, and the tries go on.
pub fn copy(bytes: &[u8]) {
    io::write_all(STDOUT_FILENO, bytes);
}

#[derive(Drop)]
struct Output;

impl fmt::Write for Output {
    fn write_str(&mut self, s: &str) -> fmt::Result {
        copy(s.as_bytes());
        Ok(())
    }
}

pub fn say<D: Display + Drop>(what: D) {
    let _ = write!(Output, "{what}");
}

pub fn answer(a: Answer) {
    say(format_args!(": {}", InWords(a)));
}

// A number of two digits, as in 5Ah, or of four, as in 07CFh.
#[derive(Clone, Copy)]
pub struct Hex(pub u16);

impl Display for Hex {
    fn fmt<W: fmt::Write>(&self, f: &mut Formatter<W>) -> fmt::Result {
        let n = self.0;
        if n < 256 {
            write!(f, "{n:02X}h")
        } else {
            write!(f, "{n:04X}h")
        }
    }
}

// An answer in words.
#[derive(Clone, Copy)]
struct InWords(Answer);

impl Display for InWords {
    fn fmt<W: fmt::Write>(&self, f: &mut Formatter<W>) -> fmt::Result {
        match self.0 {
            Answer::Nothing => write!(f, "taken"),
            Answer::Ack => write!(f, "ACK"),
            Answer::Nack => write!(f, "NACK"),
            Answer::Data(b) => write!(f, "{}", Hex(u16::from(b))),
            Answer::Refused(r) => write!(f, "refused {}", u8::from(r)),
        }
    }
}

// Whether a pin is asserted, and its level.
#[derive(Clone, Copy)]
pub struct PinInWords(pub Pin);

impl Display for PinInWords {
    fn fmt<W: fmt::Write>(&self, f: &mut Formatter<W>) -> fmt::Result {
        let asserted = if self.0.asserted {
            "asserted"
        } else {
            "released"
        };
        let level = if self.0.level { "high" } else { "low" };
        write!(f, "{asserted} {level}")
    }
}

// Which one a number is of several in a row that have one name.
fn which(at: usize, name: &str) -> usize {
    let first = NUMBERS.iter().position(|n| *n == name);
    at.saturating_sub(first.unwrap_or(at))
}

fn phase_name(n: u16) -> &'static str {
    PHASES.get(usize::from(n)).map_or("", |(name, _)| name)
}

// A slot: each number that is not 0, of several with one name which one, and a phase by its word.
#[derive(Clone, Copy)]
pub struct Shown(pub Slot);

impl Display for Shown {
    fn fmt<W: fmt::Write>(&self, f: &mut Formatter<W>) -> fmt::Result {
        let Numbers(all) = Numbers::from(self.0);
        for (at, (name, n)) in NUMBERS.iter().zip(&all).enumerate() {
            if *n == 0 {
                continue;
            }
            write!(f, " {name}")?;
            match (*name, which(at, name)) {
                ("phase", _) => write!(f, " {}", phase_name(*n))?,
                (_, 0) => write!(f, " {}", Hex(*n))?,
                (_, i) => write!(f, "+{i} {}", Hex(*n))?,
            }
        }
        Ok(())
    }
}

// What was changed: slots by their numbers, and the memory.
#[derive(Clone, Copy)]
pub struct Changes<'a> {
    pub before: &'a Bench,
    pub after: &'a Bench,
}

impl Display for Changes<'_> {
    fn fmt<W: fmt::Write>(&self, f: &mut Formatter<W>) -> fmt::Result {
        let memory = self.before.memory != self.after.memory;
        let mut none = !memory;
        write!(f, ",")?;
        for (i, (was, now)) in self
            .before
            .bus
            .slots
            .iter()
            .zip(&self.after.bus.slots)
            .enumerate()
        {
            if Numbers::from(*was) != Numbers::from(*now) {
                write!(f, " {i}")?;
                none = false;
            }
        }
        if memory {
            write!(f, " memory")?;
        }
        if none {
            write!(f, " nothing")?;
        }
        write!(f, " changed")
    }
}

// Whether the shelf has changed, behind the records where there are some.
#[derive(Clone, Copy)]
pub struct Rest<'a> {
    pub before: &'a [u8],
    pub after: &'a [u8],
    pub behind: bool,
}

impl Display for Rest<'_> {
    fn fmt<W: fmt::Write>(&self, f: &mut Formatter<W>) -> fmt::Result {
        let nothing = if self.before == self.after {
            " nothing"
        } else {
            ""
        };
        let behind = if self.behind { " behind" } else { "" };
        write!(f, ",{nothing} changed{behind}")
    }
}

// A part of a memory: how long it is, its first byte and its last.
#[derive(Clone, Copy)]
pub struct Part<'a>(pub &'a [u8]);

impl Display for Part<'_> {
    fn fmt<W: fmt::Write>(&self, f: &mut Formatter<W>) -> fmt::Result {
        let bytes = self.0;
        let n = bytes.len();
        match (bytes.first(), bytes.last()) {
            (Some(a), Some(b)) => write!(
                f,
                "{n} bytes {}..{}",
                Hex(u16::from(*a)),
                Hex(u16::from(*b))
            ),
            _ => write!(f, "empty"),
        }
    }
}
