// What a saved form is, what saving and reading give, and what holds of them: all in specs/ and proofs/. There is no code here.
#![tactic(auto)]
