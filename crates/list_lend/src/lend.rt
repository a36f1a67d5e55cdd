// A list given for programs, from a script's records: their events and the answer places are lent to the entry, and what it leaves is put as lines.
// Whoever calls this lends no records.
ghost use Rattle.std.specs.Prelude.{◌≡◌, ◌/◌, ◌≤◌, length, replicate};
ghost use Rattle.list_lend.specs.Listed.{events_in, blank};
ghost use Rattle.list_lend.specs.Given.{given_of};

use super::text;
use super::text::Told;
use rules::Bus;

// The whole records of some bytes, given as one list, with so many answer places, which nothing has answered before; and what is told of it at the
// front of the output.
// Kept: bounds in clauses, and bus, memory, places and output apart: docs/manual/library.md names this function, so it asks no more than before.
pub fn give_records(bus: Bus, mem: &mut [u8], records: &[u8], places: usize, out: &mut [u8]) -> Told
    requires { (length records.now ≤ 16384) × (places ≤ 65535) × (262140 ≤ length out.old) }
    ensures { given_of bus mem.old (events_in records.now (length records.now / 4))
        (replicate places blank) out.old ≡ (result, mem.new, out.new) }
{
    let list = text::events_in(records);
    let mut unanswered = [text::BLANK; text::MOST_PLACES];
    let answers = &mut unanswered[..places];
    let done = list_entry::events(bus, mem, &list[..records.len() / 4], answers);
    text::put_list(done, answers, out)
}
