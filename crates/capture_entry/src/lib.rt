// The checker: the verdict on a whole capture. What a verdict is, and what it says of the model, stands in the crate
// `capture_rules`; a capture that is too long to lend is checked by `capture_pieces::pieces` alone.
#![tactic(auto)]

ghost use Rattle.std.specs.Prelude.{◌≡◌};
ghost use Rattle.capture_rules.specs.Capture.{verdict_of};

use capture_pieces::pieces;
use capture_rules::Verdict;
use rules::{Answer, Bus, Pair, Refusal};

// The verdict on a capture: eight pairs, the starting memory of all slots, and records of six bytes. Whatever is handed in is judged; the memory is
// part of the capture and stays as it is, so the check runs on a copy.
pub fn check(pairs: [Pair; 8], memory: &[u8], records: &[u8]) -> Verdict
    ensures { result ≡ verdict_of pairs memory.now records.now }
{
    let Ok(memory) = <&[u8; Bus::MEMORY]>::try_from(memory) else {
        return Verdict::Refused(Refusal::MemoryLength);
    };
    let made = bus_setup::setup(pairs);
    if let Answer::Refused(x) = made.answer {
        return Verdict::Refused(x);
    }
    let mut mem = *memory;
    let checked = pieces::piece(made.bus, &mut mem, 0, records);
    pieces::closed(checked.verdict, records.len() % pieces::RECORD)
}
