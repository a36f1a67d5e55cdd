// What the programs read and write: setup and records as they come.
#![tactic(auto)]

pub mod opening; // the setup is read, and what the frame puts of it is written
pub mod reading; // records read and run to the input's end, with a line written for each, or none
