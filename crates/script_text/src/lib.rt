// The script's input and output as text.
#![tactic(auto)]

pub mod letters; // answers as lines, and numbers in decimal
pub mod records; // bytes as pairs and events
