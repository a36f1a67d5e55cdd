// The setup: a bus from eight kinds and lengths, and document 01's row 5, by which it is refused.
#![tactic(auto)]

ghost use Rattle.std.specs.Prelude.{◌≡◌};
ghost use Rattle.std.specs.List.{list_all};
ghost use Rattle.rules.specs.Fresh.{setup_slot};
ghost use Rattle.rules.specs.Refusals.{good_pair, empty_bus, setup_of};

use rules::{Bus, Outcome, Pair, Refusal, Slot};

// A pair that row 5 lets pass.
fn good_pair(p: Pair) -> bool
    ensures { result ≡ good_pair p }
{
    (p.kind <= 3) & ((p.kind == 0) | (1 <= p.length) & (p.length <= 5))
}

// Every pair passes row 5.
// Kept: a call of std's `all`, as is bus_refusals' in_range: what is generic in the two stands there.
fn good_pairs(pairs: [Pair; 8]) -> bool
    ensures { result ≡ list_all good_pair pairs }
{
    pairs.iter().all(|p| good_pair(*p))
}

// A fresh slot; the length of an absent one is ignored.
pub fn setup_slot(p: Pair) -> Slot
    ensures { result ≡ setup_slot p }
{
    if p.kind == 0 {
        return Slot::fresh(p.kind, 0);
    }
    Slot::fresh(p.kind, p.length)
}

// Eight absent slots: the bus of a refused setup.
pub fn empty_bus() -> Bus
    ensures { result ≡ empty_bus }
{
    let slots = [Slot::fresh(0, 0); 8];
    Bus { slots }
}

// A bus from eight kinds and lengths: fresh slots, or refusal 5 with eight absent ones.
pub fn setup(pairs: [Pair; 8]) -> Outcome
    ensures { result ≡ setup_of pairs }
{
    if !good_pairs(pairs) {
        return Outcome::refused(empty_bus(), Refusal::WrongSetup);
    }
    let slots = pairs.map(setup_slot);
    Outcome::taken(Bus { slots })
}
