// The pages that differ from an image, laid as records that write them. The `requires` are about the sizes and the room.
ghost use Rattle.std.specs.Prelude.{◌≡◌, true, ◌∷◌, ◌++◌, ◌+◌, ◌*◌, ◌≤◌, ◌<◌, length};
ghost use Rattle.rules.specs.Refusals.{slot_in_range};
ghost use Rattle.plan_rules.specs.Plan.{page_count, page_at, page_half, page_counter, selecting, writing, pages_before};
ghost use Rattle.plan_pages.specs.Laid.{with_laid};

use super::pages;
use super::records::Plan;
use rules::{Slot, SlotNo};

// What a page's write sends behind the control byte: the counter and the page's sixteen bytes.
fn sent(counter: u8, image: &[u8; Slot::BYTES], p: u8) -> [u8; 17]
    requires { p < page_count }
    ensures { result ≡ counter ∷ page_at p image.now }
{
    let mut all = [counter; 17];
    let from = Slot::PAGE * usize::from(p);
    let to = from + Slot::PAGE;
    all[1..].copy_from_slice(&image[from..to]);
    all
}

// One page: its half, where another one stands, then the write of the whole page and so many ticks.
// Kept: k.0 < 8 in a clause, here and in `slot`: a SlotNo may hold any byte, as an event does, and plan_entry has looked at it (`slots.get`).
fn page(plan: &mut Plan, stands: u8, k: SlotNo, image: &[u8; Slot::BYTES], p: u8, count: u8)
    requires { (k.0 < 8) × (p < page_count) × (count ≤ 5) × (4 * (plan.old.count + 28) ≤ length plan.old.buffer.now) }
    ensures { plan.new ≡ with_laid (selecting stands (page_half p) ++ writing k.0 (page_counter p) (page_at p image.now) count) plan.old }
{
    plan.selecting(stands, p / 16);
    plan.exchange(0xA0 + 2 * k.0, &sent(p % 16 * 16, image, p));
    plan.ticks(count);
}

// Those of the 32 pages that differ, in ascending order, each once. The half is selected where another one stands, and stays selected.
pub fn all_pages(
    plan: &mut Plan,
    s: Slot,
    k: SlotNo,
    old: &[u8; Slot::BYTES],
    image: &[u8; Slot::BYTES],
)
    requires { (slot_in_range s ≡ true) × (k.0 < 8) × (4 * (plan.old.count + 896) ≤ length plan.old.buffer.now) }
    ensures { plan.new ≡ with_laid (pages_before old.now image.now s k.0 page_count) plan.old }
{
    let mut half = s.half;
    // Kept: over numbers: p is the page's number, from which its half and its counter come, and no list of pages stands anywhere.
    for p in 0..pages::COUNT {
        if pages::differs(old, image, p) {
            page(plan, half, k, image, p, s.length);
            half = p / 16;
        }
    }
}
