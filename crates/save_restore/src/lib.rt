// Reading a saved form: a bench restored, or the form refused. What a form is, and what holds of it, stands in the crate `save_rules`.
#![tactic(auto)]

ghost use Rattle.std.specs.Prelude.{◌≡◌, true, ◌+◌, ◌≤◌, length};
ghost use Rattle.proof_lists.specs.Same.{stands};
ghost use Rattle.rules.specs.Modelled.{slot_count, memory_bytes};
ghost use Rattle.save_rules.specs.Form.{field_count, is_there};
ghost use Rattle.save_rules.specs.Reading.{size_in, begins, tagged, read_shares, read_field, bus_in, stored_to, restore_of};
ghost use Rattle.save_fields.specs.Rows.{row_of};
ghost use Rattle.save_restore.specs.Tallied.{share_tallies, shares_tally, head_tallies, field_tallies, fields_tally};

use rules::{Bus, Outcome, Refusal, Slot};
use save_fields::offsets::form_length;
use save_fields::shares::{Field, byte_at, word};
use script_text::letters::put;

// Kept: while a form is read, form and slots are two parameters, since the slots are others after each field, and a struct of both would have to be
// made anew for each.

// Whether a form has a field: its tag stands where it would begin.
fn tagged(field: Field, form: &[u8], slots: &[Slot; 8]) -> bool
    ensures { result ≡ tagged (row_of field) form.now slots.now }
{
    byte_at(form, field.begins(slots)) == field.tag()
}

// Slots with what a field of a form says of each.
fn read_shares(field: Field, form: &[u8], slots: &[Slot; 8]) -> [Slot; 8]
    ensures { result ≡ read_shares (row_of field) form.now slots.now }
{
    let mut at = field.begins(slots) + 3;
    let mut all = *slots;
    for (i, s) in slots.iter().enumerate() {
        // Kept: by index, here and in `store`: after iter_mut or chunks_exact_mut a proof knows the length alone (as bus_slots::every found).
        all[i] = field.read(form, at, *s);
        at += field.size(s);
    }
    all
}

// A bus with that where the form has the field, and otherwise the bus as it is.
fn read_field(field: Field, form: &[u8], bus: Bus) -> Bus
    ensures { result ≡ record { slots = read_field (row_of field) form.now bus.slots } }
{
    let slots = bus.slots;
    if !tagged(field, form, &slots) {
        return bus;
    }
    Bus {
        slots: read_shares(field, form, &slots),
    }
}

// The bus that a form tells of, whether or not it may be accepted; a byte that is missing counts as 0.
fn read_form(form: &[u8]) -> Bus
    ensures { result ≡ bus_in form.now }
{
    let mut bus = bus_setup::empty_bus();
    for field in Field::ALL {
        bus = read_field(field, form, bus);
    }
    bus
}

// Whether some bytes stand at a place of a form.
fn stands(bytes: &[u8], form: &[u8], at: usize) -> bool
    requires { at + length bytes.now ≤ length form.now }
    ensures { result ≡ stands bytes.now form.now at }
{
    form[at..].starts_with(bytes)
}

// A form that is as long as that of the slots that it tells of.
#[derive(Clone, Copy)]
struct Reading<'a> {
    form: &'a [u8],
    slots: [Slot; 8],
    ghost whole: { length form.now ≡ begins field_count slots },
}

impl Reading<'_> {
    // Whether a slot's share of a field stands at a place of the form; of memory any bytes may stand there.
    fn share_tallies(&self, field: Field, s: &Slot, at: usize) -> bool
        requires { at + size_in (row_of field) s.now ≤ length self.now.form.now }
        ensures { result ≡ share_tallies (row_of field) s.now self.now.form.now at }
    {
        if field == Field::Memory {
            return true;
        }
        let mut room = [0u8; 16];
        let n = field.put(s, &[], &mut room, 0);
        stands(&room[..n], self.form, at)
    }

    // Whether the shares of all slots stand where they should, in a field that is there.
    fn shares_tally(&self, field: Field) -> bool
        requires { is_there (row_of field) self.now.slots ≡ true }
        ensures { result ≡ shares_tally (row_of field) slot_count self.now.slots self.now.form.now }
    {
        let mut at = field.begins(&self.slots) + 3;
        // Kept: a place that runs along, here, in read_shares, in store and in save_entry's put_shares: each does something else there.
        let mut ok = true;
        for s in &self.slots {
            ok = ok & self.share_tallies(field, s, at);
            at += field.size(s);
        }
        ok
    }

    // Whether the tag and the length of a field do.
    fn head_tallies(&self, field: Field) -> bool
        requires { is_there (row_of field) self.now.slots ≡ true }
        ensures { result ≡ head_tallies (row_of field) self.now.slots self.now.form.now }
    {
        // Kept: `as`: no `u16::from` takes a usize.
        let [high, low] = word(field.offset(&self.slots) as u16);
        stands(
            &[field.tag(), high, low],
            self.form,
            field.begins(&self.slots),
        )
    }

    // Whether the field does, if it is there at all.
    fn field_tallies(&self, field: Field) -> bool
        ensures { result ≡ field_tallies (row_of field) self.now.slots self.now.form.now }
    {
        if field.is_there(&self.slots) {
            return self.head_tallies(field) & self.shares_tally(field);
        }
        true
    }

    // Whether the form is what a saving of its slots gives, but for the bytes of memory, which may be any.
    fn tallies(&self) -> bool
        ensures { result ≡ fields_tally field_count self.now.slots self.now.form.now }
    {
        Field::ALL.iter().all(|field| self.field_tallies(*field))
    }

    // The form's memory of present slots, stored over theirs; absent slots' bytes stay.
    fn store(&self, memory: &mut [u8])
        requires { length memory.old ≡ memory_bytes }
        ensures { memory.new ≡ stored_to slot_count self.now.form.now self.now.slots memory.old }
    {
        let mut at = Field::Memory.begins(&self.slots) + 3;
        for (i, s) in self.slots.iter().enumerate() {
            let n = Field::Memory.size(s);
            let from = Slot::BYTES * i;
            memory[from..from + n].copy_from_slice(&self.form[at..at + n]);
            at += n;
        }
    }
}

// The bench that a form restores to, or the bus and the memory as they were. Whatever is handed in is restored or refused, by the rows 1 and 10 in
// this order; the bus that was there is not looked at.
pub fn restore(bus: Bus, memory: &mut [u8], form: &[u8]) -> Outcome
    ensures { restore_of bus memory.old form.now ≡ (result, memory.new) }
{
    if memory.len() != Bus::MEMORY {
        return Outcome::refused(bus, Refusal::MemoryLength);
    }
    let told = read_form(form);
    let slots = told.slots;
    if form.len() != form_length(&slots) {
        return Outcome::refused(bus, Refusal::WrongForm);
    }
    let read = Reading { form, slots };
    if !(bus_refusals::ranges::in_range(slots) & read.tallies()) {
        return Outcome::refused(bus, Refusal::WrongForm);
    }
    read.store(memory);
    Outcome::taken(told)
}
