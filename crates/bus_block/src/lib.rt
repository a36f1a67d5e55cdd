// The reader: a block as a part of the caller's memory.
#![tactic(auto)]

ghost use Rattle.std.specs.Prelude.{◌≡◌, cond, ◌+◌, ◌*◌};
ghost use Rattle.rules.specs.Reader.{no_block, block_bytes};

use rules::{BlockNo, Bus, Slot, SlotNo};

// There is no such block, of which an older module has two, or memory or bus would be refused.
fn no_block(mem: &[u8], bus: Bus, n: SlotNo, k: BlockNo) -> bool
    ensures { result ≡ no_block bus mem.now n k }
{
    // Kept: the kind by its number, which is 0 where there is no slot, as Reader.no_block has it.
    let kind = bus_refusals::ruling::kind_at(bus.slots, n);
    (mem.len() != Bus::MEMORY)
        | !bus_refusals::ranges::in_range(bus.slots)
        | (7 < n.0)
        | (kind == 0)
        | (3 < k.0)
        | (kind == 3) & (1 < k.0)
}

// The 128 bytes of a block, as a part of the caller's memory, at its place there; an empty part at the memory's beginning where there is none.
// Kept: bus, slot and block are parameters, here and in bus_pin: so the library's callers have them (docs/manual/library.md).
pub fn block(mem: &[u8], bus: Bus, n: SlotNo, k: BlockNo) -> &[u8]
    ensures { (result.now ≡ block_bytes bus mem.now n k) × (result.ref_ptr.0 ≡ mem.entry.ref_ptr.0)
        × (result.ref_ptr.1 ≡ mem.entry.ref_ptr.1 + cond (no_block bus mem.now n k) 0 (512 * n.0 + 128 * k.0)) }
{
    if no_block(mem, bus, n, k) {
        return &mem[..0];
    }
    let at = Slot::BYTES * usize::from(n.0) + Slot::BLOCK * usize::from(k.0);
    &mem[at..at + Slot::BLOCK]
}
