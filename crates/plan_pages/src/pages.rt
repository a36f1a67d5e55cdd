// A slot's pages: what five ticks leave of them, which of them differ from an image, and whether one of those lies in a protected block.
ghost use Rattle.std.specs.Prelude.{◌≡◌, true, ◌<◌, replicate};
ghost use Rattle.rules.specs.Refusals.{slot_in_range};
ghost use Rattle.rules.specs.Runs.{slot_after, part_after};
ghost use Rattle.plan_rules.specs.Plan.{five, page_count, differs, barred_before};

use rules::{Act, BlockNo, Slot};

// A slot has so many pages.
pub const COUNT: u8 = 32;

// Five ticks at one slot; part is its own 512 bytes. Whatever cycle ran is over then.
pub fn settle(s: Slot, part: &mut [u8; Slot::BYTES]) -> Slot
    ensures { (result ≡ slot_after 0 (replicate five Act.Tick) s)
        × (part.new ≡ part_after 0 (replicate five Act.Tick) s part.old) }
{
    let mut next = s;
    for _ in 0..5u8 {
        next = bus_slot::cycle::tick(next, part);
    }
    next
}

// Page p is not as the image has it.
// Kept: p with its bound, and the old bytes beside the image, here and in `writes`: plan_rules/Plan.differs, .page_at and .pages_before take them so.
pub fn differs(old: &[u8; Slot::BYTES], image: &[u8; Slot::BYTES], p: u8) -> bool
    requires { p < page_count }
    ensures { result ≡ differs old.now image.now p }
{
    let from = Slot::PAGE * usize::from(p);
    let to = from + Slot::PAGE;
    old[from..to] != image[from..to]
}

// Some of the 32 pages differs and lies in a protected block; eight pages are a block.
pub fn any_barred(s: Slot, old: &[u8; Slot::BYTES], image: &[u8; Slot::BYTES]) -> bool
    ensures { result ≡ barred_before old.now image.now s page_count }
{
    (0..COUNT).any(|p| differs(old, image, p) && bus_slot::blocks::protects(BlockNo(p / 8), s))
}
