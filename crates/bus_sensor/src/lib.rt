// The sensor of a slot: its registers, and its temperature. Each contract is an equation with the law.
#![tactic(auto)]

pub mod pin; // the EVENT pin, and reads, writes and temperatures with it
pub mod registers; // what they read, what a write leaves in them
pub mod temperature; // conversion and flags
