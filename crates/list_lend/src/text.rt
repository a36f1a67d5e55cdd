// What the list program gives a list from, and what it writes for what is left of it: records as events, and answer places as lines. There is room
// for 4,096 events and 65,535 answer places, which is as many as two bytes can ask for.
ghost use Rattle.std.specs.Prelude.{◌≡◌, ◌+◌, ◌*◌, ◌≤◌, length};
ghost use Rattle.std.proofs.lemmas.List.Edits.{sets};
ghost use Rattle.list_lend.specs.Listed.{events_for, number_in, place_line, place_lines, told_of, too_many_text};

use rules::{Answer, Bus, Event, Outcome, Refusal, SlotNo};

pub const MOST_EVENTS: usize = 4096;

pub const MOST_PLACES: usize = 65535;

// What stands behind the events of a list; no one is to give it.
pub const NO_EVENT: Event = Event {
    kind: 0,
    slot: SlotNo(0),
    value: 0,
};

// What a place holds before the list is given: an answer that no event gets.
pub const BLANK: Answer = Answer::Refused(Refusal::WrongSetup);

// A number of two bytes, the high byte first.
pub fn number_in(bytes: &[u8]) -> usize
    requires { 2 ≤ length bytes.now }
    ensures { (result ≡ number_in bytes.now) × (result ≤ 65535) }
{
    usize::from(u16::from_be_bytes([bytes[0], bytes[1]]))
}

// The whole records of some bytes as events, at the front of the array; behind them stand events that no one is to give.
pub fn events_in(records: &[u8]) -> [Event; MOST_EVENTS]
    requires { length records.now ≤ 16384 }
    ensures { result ≡ events_for records.now }
{
    let mut all = [NO_EVENT; MOST_EVENTS];
    for (i, record) in records.chunks_exact(4).enumerate() {
        all[i] = script_text::records::record_at(record, 0);
    }
    all
}

// A place's line, put at a place of the output; the place after it.
fn put_place(out: &mut [u8], at: usize, a: Answer) -> usize
    requires { at + 4 ≤ length out.old }
    ensures { (result ≡ at + length (place_line a)) × (out.new ≡ sets out.old at (place_line a)) }
{
    if a == BLANK {
        return script_text::letters::put(out, at, b".\n");
    }
    script_text::letters::put_line(out, at, a)
}

// The lines of the places, put at the front of the output; the place after them.
fn put_places(answers: &[Answer], out: &mut [u8]) -> usize
    requires { 4 * length answers.now ≤ length out.old }
    ensures { (result ≡ length (place_lines answers.now)) × (out.new ≡ sets out.old 0 (place_lines answers.now)) }
{
    let mut end = 0;
    for a in answers {
        end = put_place(out, end, *a);
    }
    end
}

// Kept: a lent output and where its text ends, as script_turns::frame has them: Listed.told_of and Given.given_of say every byte of the output.
// What is told of a list: the bus after it, and where its text ends.
#[derive(Clone, Copy)]
pub struct Told {
    pub bus: Bus,
    pub end: usize,
}

// What a call gave and left, put at the front of the output: the refusal's line, or a line for each answer place.
pub fn put_list(done: Outcome, answers: &[Answer], out: &mut [u8]) -> Told
    requires { (length answers.now ≤ 65535) × (262140 ≤ length out.old) }
    ensures { told_of done answers.now out.old ≡ (result, out.new) }
{
    let bus = done.bus;
    let end = match done.answer {
        Answer::Refused(_) => script_text::letters::put_line(out, 0, done.answer),
        _ => put_places(answers, out),
    };
    Told { bus, end }
}

// The sentence for a list of too many records, put at the front of the output; the place after it.
pub fn put_too_many(out: &mut [u8]) -> usize
    requires { 41 ≤ length out.old }
    ensures { (result ≡ 41) × (out.new ≡ sets out.old 0 too_many_text) }
{
    script_text::letters::put(out, 0, b"list: more than 4096 records in one list\n")
}
