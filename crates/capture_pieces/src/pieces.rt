// A capture's records, checked piece by piece: whoever reads a long capture calls `piece` for what has come, and goes on from the bus and the memory
// that it leaves for as long as all agrees. What a verdict is stands in the crate `capture_rules`.
ghost use Rattle.std.specs.Prelude.{◌≡◌, true, ◌+◌, ◌≤◌, length};
ghost use Rattle.rules.specs.Modelled.{memory_bytes};
ghost use Rattle.rules.specs.Refusals.{in_range};
ghost use Rattle.capture_rules.specs.Capture.{agrees as Capture·agrees, closed as Capture·closed};
ghost use Rattle.capture_rules.specs.Agreement.{is_accepted};
ghost use Rattle.capture_pieces.specs.Piece.{piece_of};

use capture_rules::{Seen, Verdict};
use rules::{Answer, Bus};

// Bytes of a record.
pub const RECORD: usize = 6;

// Whether the model's answer is the captured one. A refusal never is.
#[tactic(auto, unfolding(capture_rules::specs::Capture::agrees))]
fn agrees(a: Answer, s: Seen) -> bool
    ensures { result ≡ Capture·agrees a s }
{
    match a {
        Answer::Nothing => s.code == 0,
        Answer::Ack => s.code == 1,
        Answer::Nack => s.code == 2,
        Answer::Data(b) => s.code == 3 && s.byte == b,
        Answer::Refused(_) => false,
    }
}

// The bus after the records that were looked at, and the verdict on them.
#[derive(Clone, Copy)]
pub struct Checked {
    pub bus: Bus,
    pub verdict: Verdict,
}

// Checks the whole records of some bytes, where `number` records went before them: to the end, or to the first that differs, which has then been run
// as well. The `requires` hold of a setup's bus and of whatever this leaves; the numbers of all records are to be below 2^64.
// Kept: a loop beside those of turns::run and list_entry::events: this one may stop at a record, `run` puts lines, and `events` fills places.
pub fn piece(bus: Bus, mem: &mut [u8], number: usize, records: &[u8]) -> Checked
    requires { (in_range bus ≡ true) × (length mem.old ≡ memory_bytes) × (number + length records.now ≤ 18446744073709551615) }
    ensures { piece_of bus mem.old number records.now ≡ (result, mem.new) }
{
    let mut bus = bus;
    let (whole, _) = records.as_chunks::<RECORD>();
    for (i, r) in whole.iter().enumerate() {
        let e = script_text::records::record_at(r, 0);
        let seen = Seen {
            code: r[4],
            byte: r[5],
        };
        let x = bus_event::event_in_range(bus, mem, e);
        bus = x.bus;
        let model = x.answer;
        let same = agrees(model, seen);
        if !same {
            let record = number + i;
            let verdict = Verdict::Differs {
                record,
                model,
                seen,
            };
            return Checked { bus, verdict };
        }
    }
    Checked {
        bus,
        verdict: Verdict::Accepted,
    }
}

// Whether all agreed.
#[tactic(auto, unfolding(capture_rules::specs::Agreement::is_accepted))]
pub fn accepted(v: Verdict) -> bool
    ensures { result ≡ is_accepted v }
{
    matches!(v, Verdict::Accepted)
}

// The verdict on records that end with so many bytes of one that is cut.
#[tactic(auto, unfolding(capture_rules::specs::Capture::closed))]
pub fn closed(v: Verdict, left: usize) -> Verdict
    ensures { result ≡ Capture·closed left v }
{
    match v {
        Verdict::Accepted if left != 0 => Verdict::Short,
        _ => v,
    }
}
