// The script's bytes as what they say: the setup's pairs, and records as events.
ghost use Rattle.std.specs.Prelude.{◌≡◌, ◌+◌, ◌≤◌, length};
ghost use Rattle.script_text.specs.Records.{pair_at, pairs_of, record_at};

use rules::{Event, Pair, SlotNo};

// Kept: a place beside the bytes, here and below: Records.record_at and .pair_at take it, and with them what save_rules and plan_rules say.
// The record that begins at a place: its kind, its slot, and its value in two's complement, the high byte first.
pub fn record_at(bytes: &[u8], at: usize) -> Event
    requires { at + 4 ≤ length bytes.now }
    ensures { result ≡ record_at bytes.now at }
{
    Event {
        kind: bytes[at],
        slot: SlotNo(bytes[at + 1]),
        value: i16::from_be_bytes([bytes[at + 2], bytes[at + 3]]),
    }
}

// A pair of the setup's bytes.
fn pair_at(bytes: &[u8], at: usize) -> Pair
    requires { at + 2 ≤ length bytes.now }
    ensures { result ≡ pair_at bytes.now at }
{
    Pair {
        kind: bytes[at],
        length: bytes[at + 1],
    }
}

// The pairs of a setup's sixteen bytes.
pub fn pairs(bytes: &[u8]) -> [Pair; 8]
    requires { 16 ≤ length bytes.now }
    ensures { result ≡ pairs_of bytes.now }
{
    std::array::from_fn(|i| pair_at(bytes, 2 * i))
}
