// Laws of lists for a bus of slots, each with its part of one memory, and for loops over a short array: see specs/. No code.
#![tactic(auto)]
