// The library's face: every public entry and its types under one name. What each entry promises stands in docs/PROMISES.md, how it is called in
// docs/manual/library.md.
#![tactic(auto)]

pub use bus_block::block;
pub use bus_event::{event, event_in_range};
pub use bus_pin::pin;
pub use bus_setup::setup;
pub use capture_entry::check;
pub use capture_pieces::pieces::{Checked, piece};
pub use capture_rules::{Seen, Verdict};
pub use list_entry::events;
pub use plan_entry::plan;
pub use rules::{
    Answer, BlockNo, Bus, Event, Older, Outcome, Pair, Phase, Pin, Refusal, Sensor, Slot, SlotNo,
};
pub use save_entry::save;
pub use save_restore::restore;
