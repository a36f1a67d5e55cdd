// What `watch` tells of a slot: its numbers, and their line.
#![tactic(auto)]

pub mod lines; // a slot's line, the lines of all whose numbers changed, and those of a whole bench
pub mod numbers; // every number of a slot, by its place in the line
