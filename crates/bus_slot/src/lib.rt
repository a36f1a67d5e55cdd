// One slot's machine, a module for each thing that it does. A slot looks at no other slot, and each contract is an equation with the law's
// definition of the same thing.
// Kept: a slot, its number, a byte, what that asks for, a phase and the slot's part of the memory are parameters, as the law's definitions take them:
// no function needs them all, and the part is lent while the slot is copied.
#![tactic(auto)]

pub mod blocks; // a slot's blocks and their protection; the address that the counter points to
pub mod cycle; // the write cycle: begun by a stop, run down by ticks, its end
pub mod drive; // a read
pub mod leaving; // what is let go when an exchange is left
pub mod listen; // a byte from the master
pub mod memory; // the memory in an exchange: counter, latch, bytes read
pub mod obey; // a control byte
pub mod phase; // where a slot stands in an exchange
pub mod pins; // what reaches one slot alone: high voltage, temperature, the write-protect pin
pub mod power; // a power cycle, and what it still does of a running write cycle
pub mod signal; // what reaches every slot and carries nothing: start, stop, timeout
