// What a plan is, and what it does on the bus: see specs/ and proofs/. No code: what comes of planning is a `Result` of how many records stand at
// the front of the buffer, or of the refusal.
#![tactic(auto)]
