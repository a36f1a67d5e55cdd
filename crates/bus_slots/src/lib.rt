// All slots at an act.
#![tactic(auto)]

pub mod every; // the one loop over the slots
pub mod foreseen; // what can be told of a slot's step at a glance
pub mod line; // what an act carries over the wires, and asks for
pub mod shown; // what the bus shows, joined from what its slots show
pub mod step; // one slot at an act of any kind
