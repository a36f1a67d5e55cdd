// What a capture holds beside a script's records, and what checking it comes to. What the verdict is, and what it says of the model, stands in
// specs/ and proofs/.
#![tactic(auto)]

use rules::{Answer, Refusal};

// An answer as it was captured: the code of its sort, and its byte. Rubbish is welcome in both. What they mean: specs/Capture.
// Kept: two bytes, as a chip gave them, and no enum of answers: `agrees` (specs/Capture) and `seen_text` (capture_pieces) speak of every code.
#[derive(Clone, Copy)]
pub struct Seen {
    pub code: u8,
    pub byte: u8,
}

// Kept: four cases and no Result: nothing is handed on but the verdict, so Ok would hold nothing, and Short comes of Accepted (Capture.closed).
// What checking a capture comes to.
#[derive(Clone, Copy)]
pub enum Verdict {
    Accepted,
    // The first record that differs, counted from 0; the model's answer, and the captured one.
    Differs {
        record: usize,
        model: Answer,
        seen: Seen,
    },
    // Every whole record agrees, and the last one is cut.
    Short,
    // The memory is of another length, or the setup is bad.
    Refused(Refusal),
}
