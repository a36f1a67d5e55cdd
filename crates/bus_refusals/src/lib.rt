// What is refused, and why: rows 6, 2, 3 and 4 of the table.
#![tactic(auto)]

pub mod ranges; // row 6: the range of a state
pub mod ruling; // rows 2, 3 and 4, and what an event is taken for
