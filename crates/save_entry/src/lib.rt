// Saving a bench: its form, put into a lent buffer. What a form is, and what holds of it, stands in the crate `save_rules`.
#![tactic(auto)]

ghost use Rattle.std.specs.Prelude.{◌≡◌, ◌+◌, ◌≤◌, length};
ghost use Rattle.std.proofs.lemmas.List.Edits.{sets};
ghost use Rattle.std.specs.List.{list_all};
ghost use Rattle.rules.specs.Modelled.{slot_count, memory_bytes};
ghost use Rattle.save_rules.specs.Form.{field_count, shares, whole_field, field_bytes, form_to};
ghost use Rattle.save_rules.specs.Saving.{quiet, save_of};
ghost use Rattle.save_fields.specs.Rows.{row_of};

use rules::{Bus, Phase, Refusal, Slot};
use save_fields::offsets::form_length;
use save_fields::shares::{Field, word};
use script_text::letters::put;

// Absent, or idle and in no write cycle.
fn quiet(s: &Slot) -> bool
    ensures { result ≡ quiet s.now }
{
    s.is_absent() | (s.phase == Phase::Idle) & (s.left == 0)
}

// Every slot is.
fn all_quiet(slots: &[Slot; 8]) -> bool
    ensures { result ≡ list_all quiet slots.now }
{
    slots.iter().all(quiet)
}

// Kept: not bus_bench's, which owns its memory: what is saved is only lent, by callers of the library (docs/manual/library.md).
// Slots, and a memory that has all their bytes.
#[derive(Clone, Copy)]
struct Bench<'a> {
    slots: [Slot; 8],
    memory: &'a [u8],
    ghost whole: { length memory.now ≡ memory_bytes },
}

impl Bench<'_> {
    // The shares of all slots in a field, put at a place; the place after them.
    fn put_shares(&self, field: Field, out: &mut [u8], at: usize) -> usize
        requires { at + length (shares (row_of field) slot_count self.now.slots self.now.memory.now) ≤ length out.old }
        ensures { (result ≡ at + length (shares (row_of field) slot_count self.now.slots self.now.memory.now))
            × (out.new ≡ sets out.old at (shares (row_of field) slot_count self.now.slots self.now.memory.now)) }
    {
        let mut end = at;
        for (i, s) in self.slots.iter().enumerate() {
            // Kept: a range of the memory, as in bus_slots::every and save_restore: Form.shares goes by a slot's number.
            let from = Slot::BYTES * i;
            end = field.put(s, &self.memory[from..from + Slot::BYTES], out, end);
        }
        end
    }

    // The field, put at a place: tag, length, contents; the place after it.
    fn put_whole(&self, field: Field, out: &mut [u8], at: usize) -> usize
        requires { at + length (whole_field (row_of field) self.now.slots self.now.memory.now) ≤ length out.old }
        ensures { (result ≡ at + length (whole_field (row_of field) self.now.slots self.now.memory.now))
            × (out.new ≡ sets out.old at (whole_field (row_of field) self.now.slots self.now.memory.now)) }
    {
        let count = field.offset(&self.slots);
        let length = put(out, at, &[field.tag()]);
        // Kept: `as`: no `u16::from` takes a usize.
        let contents = put(out, length, &word(count as u16));
        self.put_shares(field, out, contents)
    }

    // The same if it is there at all, and otherwise nothing.
    fn put_field(&self, field: Field, out: &mut [u8], at: usize) -> usize
        requires { at + length (field_bytes (row_of field) self.now.slots self.now.memory.now) ≤ length out.old }
        ensures { (result ≡ at + length (field_bytes (row_of field) self.now.slots self.now.memory.now))
            × (out.new ≡ sets out.old at (field_bytes (row_of field) self.now.slots self.now.memory.now)) }
    {
        if field.is_there(&self.slots) {
            return self.put_whole(field, out, at);
        }
        at
    }

    // The whole form, put at the beginning; the place after it.
    fn put_form(&self, out: &mut [u8]) -> usize
        requires { length (form_to field_count self.now.slots self.now.memory.now) ≤ length out.old }
        ensures { (result ≡ length (form_to field_count self.now.slots self.now.memory.now))
            × (out.new ≡ sets out.old 0 (form_to field_count self.now.slots self.now.memory.now)) }
    {
        let mut end = 0;
        for field in Field::ALL {
            end = self.put_field(field, out, end);
        }
        end
    }
}

// The bench's form at the front of the buffer, and its length; what stands behind it stays. Whatever is handed in is saved or refused, by the rows
// 1, 6, 8, 9 in this order, and a refusal leaves the buffer as it is.
pub fn save(bus: Bus, memory: &[u8], buffer: &mut [u8]) -> Result<usize, Refusal>
    ensures { save_of bus memory.now buffer.old ≡ (result, buffer.new) }
{
    let slots = bus.slots;
    if memory.len() != Bus::MEMORY {
        return Err(Refusal::MemoryLength);
    }
    if !bus_refusals::ranges::in_range(slots) {
        return Err(Refusal::WrongState);
    }
    if !all_quiet(&slots) {
        return Err(Refusal::Busy);
    }
    if buffer.len() < form_length(&slots) {
        return Err(Refusal::TooShort);
    }
    let bench = Bench { slots, memory };
    Ok(bench.put_form(buffer))
}
