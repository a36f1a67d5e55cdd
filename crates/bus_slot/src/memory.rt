// The memory of a slot in an exchange: its counter, its latch, the bytes that are read.
#![tactic(auto, unfolding(crate::proofs::Open::memory))]

ghost use Rattle.std.specs.Prelude.{◌≡◌, get_or};
ghost use Rattle.rules.specs.Modelled.{address_of};
ghost use Rattle.rules.specs.Memory.{loaded, latching, fetched};

use super::blocks;
use rules::{Address, Phase, Slot};

// A memory write's first byte loads the counter.
pub fn loaded(b: u8, s: Slot) -> Slot
    ensures { result ≡ loaded b s }
{
    Slot {
        phase: Phase::MemoryData,
        counter: b,
        place: b % 16,
        ..s
    }
}

// A data byte goes into the latch at the counter's offset; the counter goes on, wrapping in its page, and the place with it.
pub fn latching(b: u8, s: Slot) -> Slot
    ensures { result ≡ latching b s }
{
    let at = usize::from(s.counter % 16);
    let mut latch = s.latch;
    let mut marks = s.marks;
    latch[at] = b;
    marks[at] = true;
    let counter = s.counter / 16 * 16 + (s.counter % 16 + 1) % 16;
    Slot {
        latch,
        marks,
        counter,
        place: counter % 16,
        ..s
    }
}

// The byte that a memory read drives: the one at the address; 0 where part is shorter than a slot's 512 bytes, or the half is none.
pub fn byte_at(s: Slot, part: &[u8]) -> u8
    ensures { result ≡ get_or part.now (address_of s).0 0 }
{
    let Address(a) = blocks::address_of(s);
    part.get(usize::from(a)).copied().unwrap_or(0)
}

// After a memory read the counter goes on in its half, and the slot reads on if the master acknowledges.
pub fn fetched(more: bool, s: Slot) -> Slot
    ensures { result ≡ fetched more s }
{
    Slot {
        phase: if more { Phase::MemoryRead } else { Phase::Deaf },
        counter: s.counter.wrapping_add(1),
        ..s
    }
}
