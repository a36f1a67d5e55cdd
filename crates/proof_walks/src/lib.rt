// What a proof by hand that follows a function's MIR is shorter with: its locals, a reference lent again for a call, the front of an array lent.
// See proofs/. No code.
#![tactic(auto)]
