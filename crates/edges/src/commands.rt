// The commands of the tries: each line of `stdin` says what one of them may hold.
ghost use Rattle.std.specs.Prelude.{◌<◌};

use super::names::{VERBS, Verb};
use super::words;
use super::words::Word;
use arrayvec::{ArrayVec, CapacityError};
use rules::{BlockNo, Event, Pair, SlotNo};
use std::num::TryFromIntError;

// A command is not understood, or what it hands in does not fit.
#[derive(Clone, Copy, PartialEq, Eq)]
pub struct NotUnderstood;

impl From<TryFromIntError> for NotUnderstood {
    fn from(_: TryFromIntError) -> NotUnderstood {
        NotUnderstood
    }
}

impl<T: Drop> From<CapacityError<T>> for NotUnderstood {
    fn from(_: CapacityError<T>) -> NotUnderstood {
        NotUnderstood
    }
}

// A number below another.
#[derive(Clone, Copy)]
pub struct Below<const N: usize> {
    pub n: usize,
    ghost in_range: { n < N },
}

impl<const N: usize> TryFrom<u16> for Below<N> {
    type Error = NotUnderstood;

    fn try_from(number: u16) -> Result<Below<N>, NotUnderstood> {
        let n = usize::from(number);
        if n < N {
            Ok(Below { n })
        } else {
            Err(NotUnderstood)
        }
    }
}

// How much of a memory or of the shelf.
pub type Size = Below<8193>;

// A byte's place there.
pub type Place = Below<8192>;

// A command, its numbers in range.
#[derive(Drop)]
pub enum Command {
    Setup([Pair; 8]),
    Memory(Size),
    // The slot's number, and all words: it too, and behind it what is handed in.
    Slot(Below<8>, [Word; 37]),
    Show(Below<8>),
    At(Place),
    Block(SlotNo, BlockNo),
    Check(ArrayVec<u8, 36>),
    Save(Size),
    Restore(Size),
    // On the shelf, and what is put there.
    Form(Place),
    Put(Place, u8),
    // The number of answer places, and the records.
    List(u8, ArrayVec<u8, 32>),
    // The slot, how much the image is, for which the shelf has so many bytes from every slot's place on, and the buffer.
    Plan(SlotNo, Below<4609>, Size),
    Record(Below<2048>),
    Pin(SlotNo),
    Event(Event),
}

// The numbers of a command, behind which nothing may stand.
fn numbers(words: [Word; 37]) -> Result<ArrayVec<u16, 37>, NotUnderstood> {
    let mut all = ArrayVec::new();
    let mut at_end = false;
    for word in words {
        match word {
            Word::Number(n) if !at_end => all.try_push(n)?,
            Word::Missing => at_end = true,
            _ => return Err(NotUnderstood),
        }
    }
    Ok(all)
}

// Numbers as bytes, if all of them are, and there are no more than N.
fn bytes<const N: usize>(numbers: &[u16]) -> Result<ArrayVec<u8, N>, NotUnderstood> {
    let mut all = ArrayVec::new();
    for n in numbers {
        all.try_push(u8::try_from(*n)?)?;
    }
    Ok(all)
}

// The place of the byte at an address of a slot.
fn place(slot: u16, address: u16) -> Result<Place, NotUnderstood> {
    let n = usize::from(u8::try_from(slot)? % 16);
    let a = Below::<512>::try_from(address)?;
    Ok(Below { n: 512 * n + a.n })
}

fn setup(numbers: &[u16]) -> Result<Command, NotUnderstood> {
    let all = bytes::<16>(numbers)?
        .into_inner()
        .map_err(|_| NotUnderstood)?;
    Ok(Command::Setup(script_text::records::pairs(&all)))
}

fn list(numbers: &[u16]) -> Result<Command, NotUnderstood> {
    let (places, rest) = numbers.split_first().ok_or(NotUnderstood)?;
    let records = bytes(rest)?;
    if records.as_slice().len() % 4 != 0 {
        return Err(NotUnderstood);
    }
    Ok(Command::List(u8::try_from(*places)?, records))
}

fn plan(slot: u16, image: u16, room: u16) -> Result<Command, NotUnderstood> {
    let n = SlotNo(u8::try_from(slot)?);
    Ok(Command::Plan(n, Below::try_from(image)?, Below::try_from(room)?))
}

fn event(kind: u8, slot: u8, value: u16) -> Command {
    Command::Event(Event {
        kind,
        slot: SlotNo(slot),
        value: value.cast_signed(),
    })
}

// The command of some numbers.
fn with_numbers(verb: Verb, numbers: &[u16]) -> Result<Command, NotUnderstood> {
    match (verb, numbers) {
        (Verb::Setup, _) => setup(numbers),
        (Verb::Memory, &[n]) => Ok(Command::Memory(Below::try_from(n)?)),
        (Verb::Show, &[n]) => Ok(Command::Show(Below::try_from(n)?)),
        (Verb::At, &[n, a]) => Ok(Command::At(place(n, a)?)),
        (Verb::Block, &[n, k]) => Ok(Command::Block(
            SlotNo(u8::try_from(n)?),
            BlockNo(u8::try_from(k)?),
        )),
        (Verb::Check, _) => Ok(Command::Check(bytes(numbers)?)),
        (Verb::Save, &[n]) => Ok(Command::Save(Below::try_from(n)?)),
        (Verb::Restore, &[n]) => Ok(Command::Restore(Below::try_from(n)?)),
        (Verb::Form, &[n, a]) => Ok(Command::Form(place(n, a)?)),
        (Verb::Put, &[v, n, a]) => Ok(Command::Put(place(n, a)?, u8::try_from(v)?)),
        (Verb::List, _) => list(numbers),
        (Verb::Plan, &[n, i, b]) => plan(n, i, b),
        (Verb::Record, &[k]) => Ok(Command::Record(Below::try_from(k)?)),
        (Verb::Pin, &[n]) => Ok(Command::Pin(SlotNo(u8::try_from(n)?))),
        (Verb::Event, &[k, n, v]) => Ok(event(u8::try_from(k)?, u8::try_from(n)?, v)),
        (Verb::Alone(k), []) => Ok(event(k, 0, 0)),
        (Verb::Valued(k), &[v]) => Ok(event(k, 0, v)),
        (Verb::Applied(k), &[n, v]) => Ok(event(k, u8::try_from(n)?, v)),
        _ => Err(NotUnderstood),
    }
}

// The command of some words.
fn with_words(verb: Verb, words: [Word; 37]) -> Result<Command, NotUnderstood> {
    match (verb, words) {
        (Verb::Slot, [Word::Number(n), ..]) => Ok(Command::Slot(Below::try_from(n)?, words)),
        _ => with_numbers(verb, numbers(words)?.as_slice()),
    }
}

// The command that a text is, if it asks for anything: what has no first word, or `then`, does not.
pub fn asked(text: &[u8]) -> Result<Option<Command>, NotUnderstood> {
    let Some(first) = words::first(text) else {
        return Ok(None);
    };
    if Word::from(first) == Word::Missing {
        return Ok(None);
    }
    let found = VERBS.iter().find(|(name, _)| name.as_bytes() == first);
    let (_, verb) = found.ok_or(NotUnderstood)?;
    let command = with_words(*verb, words::behind_first(text))?;
    Ok(Some(command))
}
