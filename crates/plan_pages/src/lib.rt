// The planner's work, for one slot.
#![tactic(auto)]

pub mod pages; // what five ticks leave of a slot's pages, which differ from an image, and whether one of those is protected
pub mod records; // events laid as records into a lent buffer
pub mod slot; // the plan for one slot by itself, or its refusal
pub mod text; // what the plan program writes: records as lines, or the refusal's
pub mod writes; // the pages that differ, laid as records that write them
