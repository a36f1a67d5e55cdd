// What holds of every run, over the law in `rules`: what a run from setup reaches, who changes what, and demand 3, with its definitions in specs/.
// No code.
#![tactic(auto)]
