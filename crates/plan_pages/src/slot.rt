// The plan for one slot by itself, or its refusal. The `requires` are about the buffer's size and the slot's range.
ghost use Rattle.std.specs.Prelude.{◌≡◌, true, ◌<◌, length, replicate};
ghost use Rattle.rules.specs.Refusals.{slot_in_range};
ghost use Rattle.rules.specs.Runs.{slot_after, part_after};
ghost use Rattle.plan_rules.specs.Plan.{five, buffer_bytes};
ghost use Rattle.plan_pages.specs.Alone.{alone_of};

use super::records::Plan;
use super::{pages, writes};
use rules::{Act, Refusal, Slot, SlotNo};

// The plan for slot k by itself, with its own 512 bytes: pages and protection are judged as five ticks leave them, and nothing is laid before. A
// refusal leaves the buffer as it is.
pub fn alone(
    s: Slot,
    k: SlotNo,
    part: &[u8; Slot::BYTES],
    image: &[u8; Slot::BYTES],
    buffer: &mut [u8],
) -> Result<usize, Refusal>
    requires { (slot_in_range s ≡ true) × (k.0 < 8) × (length buffer.old ≡ buffer_bytes) }
    ensures { alone_of (slot_after 0 (replicate five Act.Tick) s) k.0 (part_after 0 (replicate five Act.Tick) s part.now)
        image.now buffer.old ≡ (result, buffer.new) }
{
    let mut old = *part;
    let settled = pages::settle(s, &mut old);
    if pages::any_barred(settled, &old, image) {
        return Err(Refusal::ProtectedPage);
    }
    let mut plan = Plan { buffer, count: 0 };
    plan.ticks(5);
    writes::all_pages(&mut plan, settled, k, &old, image);
    Ok(plan.count)
}
