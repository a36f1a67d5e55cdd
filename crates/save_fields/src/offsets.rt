// Which fields a saved form has, where they stand, and the shares in them: by the table of fields, the slots' kinds and what they need.
ghost use Rattle.std.specs.Prelude.{◌≡◌, ◌≤◌, length};
ghost use Rattle.rules.specs.Modelled.{slot_count};
ghost use Rattle.save_rules.specs.Form.{field_count, is_there};
ghost use Rattle.save_rules.specs.Reading.{offset, span, begins};
ghost use Rattle.save_fields.specs.Rows.{row_of, taken};

use super::shares::Field;
use rules::Slot;

impl Field {
    // Whether the field is there: some slot needs it.
    pub fn is_there(self, slots: &[Slot; 8]) -> bool
        ensures { result ≡ is_there (row_of self) slots.now }
    {
        slots.iter().any(|s| self.needed(s))
    }

    // How many bytes some slots have in the field, the first so many of a bench or all of them.
    pub fn offset(self, slots: &[Slot]) -> usize
        requires { length slots.now ≤ slot_count }
        ensures { result ≡ offset (row_of self) (length slots.now) slots.now }
    {
        slots.iter().map(|s| self.size(s)).sum()
    }

    // How many bytes the field takes: a tag and a length of two bytes before the shares; none if it is not there.
    pub fn span(self, slots: &[Slot; 8]) -> usize
        ensures { result ≡ span (row_of self) slots.now }
    {
        if self.is_there(slots) {
            3 + self.offset(slots)
        } else {
            0
        }
    }

    // Where the field begins: behind those before it.
    pub fn begins(self, slots: &[Slot; 8]) -> usize
        ensures { result ≡ begins (row_of self) slots.now }
    {
        taken(&Field::ALL[..self.row()], slots)
    }
}

// How many bytes some of the fields take.
fn taken(fields: &[Field], slots: &[Slot; 8]) -> usize
    requires { length fields.now ≤ field_count }
    ensures { result ≡ taken fields.now slots.now }
{
    fields.iter().map(|field| field.span(slots)).sum()
}

// How long a form is.
pub fn form_length(slots: &[Slot; 8]) -> usize
    ensures { result ≡ begins field_count slots.now }
{
    taken(&Field::ALL, slots)
}
