// A slot's blocks and what guards them, and the address that the counter points to, which lies in one of them.
#![tactic(auto, unfolding(crate::proofs::Open::blocks))]

ghost use Rattle.std.specs.Prelude.{◌≡◌, true, false, get_or, set};
ghost use Rattle.rules.specs.Fields.{to_come};
ghost use Rattle.rules.specs.Modelled.{address_of};
ghost use Rattle.rules.specs.Control.{protects};
ghost use Rattle.rules.specs.Memory.{pin_on, guarded};

use rules::{Address, BlockNo, Older, Slot};

// The address that the counter points to in the selected half.
// Kept: 256 times the half, and no from_be_bytes: the half is a number of its own and no number's high byte (Modelled.address_of).
pub fn address_of(s: Slot) -> Address
    ensures { result ≡ address_of s }
{
    Address(256 * u16::from(s.half) + u16::from(s.counter))
}

// What stands for a block; a block above 3 is not there.
fn block_at(k: usize, blocks: [bool; 4]) -> bool
    ensures { result ≡ get_or blocks k false }
{
    blocks.get(k).copied().unwrap_or(false)
}

// The blocks with one more.
// Kept: written by index, here and in cycle::put, and not through get_mut, after which a proof knows no element (tried: what is stored stays open).
pub fn with_block(k: BlockNo, blocks: [bool; 4]) -> [bool; 4]
    ensures { result ≡ set blocks k.0 true }
{
    let at = usize::from(k.0);
    let mut next = blocks;
    if at < next.len() {
        next[at] = true;
    }
    next
}

// A block is protected.
pub fn protects(k: BlockNo, s: Slot) -> bool
    ensures { result ≡ protects k s }
{
    block_at(usize::from(k.0), s.protection)
}

// The slot with a protection to come, and whether that will be permanent.
pub fn to_come(coming: [bool; 4], lasting: bool, s: Slot) -> Slot
    ensures { result ≡ to_come coming lasting s }
{
    Slot {
        coming,
        old: Older { lasting, ..s.old },
        ..s
    }
}

// An older module's write-protect pin is on; no other slot has one.
pub fn pin_on(s: Slot) -> bool
    ensures { result ≡ pin_on s }
{
    s.is_older() & s.old.pin
}

// The block of the next data byte is protected, or the write-protect pin is on.
pub fn guarded(s: Slot) -> bool
    ensures { result ≡ guarded s }
{
    let Address(a) = address_of(s);
    block_at(usize::from(a / 128), s.protection) | pin_on(s)
}
