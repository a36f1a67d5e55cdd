// A bench that a run goes on from: a bus in range, and the memory of its slots. In a clause it is the law's bench, of `rules/Runs`.
#![tactic(auto)]

ghost use Rattle.std.specs.Prelude.{◌≡◌, true};
ghost use Rattle.rules.specs.Refusals.{in_range};
ghost use Rattle.rules.specs.Runs.{next, answered};
ghost use Rattle.bus_bench.specs.Beginning.{begun, set_up_of};

use rules::{Answer, Bus, Event, Pair, Refusal};
use std::marker::Model;

#[derive(Drop)]
pub struct Bench {
    pub bus: Bus,
    pub memory: [u8; 4096],
}

impl Model for Bench {
    ghost use Rattle.std.specs.Prelude.{◌≡◌, true};
    ghost use Rattle.rules.specs.Runs.{Bench};
    ghost use Rattle.rules.specs.Refusals.{in_range};

    ghost Value = { Bench };

    ghost view = { λ b. record { bus = b.bus; memory = b.memory } };

    ghost invariant = { λ b. in_range b.bus ≡ true };
}

impl Bench {
    // A bus with its memory as it starts, FFh.
    pub fn new(bus: Bus) -> Self
        requires { in_range bus ≡ true }
        ensures { result ≡ begun bus }
    {
        let mut memory = [0u8; 4096];
        memory.fill(0xFF);
        Bench { bus, memory }
    }

    // The bench of eight kinds and lengths, or refusal 5.
    pub fn set_up(pairs: [Pair; 8]) -> Result<Self, Refusal>
        ensures { result ≡ set_up_of pairs }
    {
        let made = bus_setup::setup(pairs);
        match made.answer {
            Answer::Refused(why) => Err(why),
            _ => Ok(Self::new(made.bus)),
        }
    }

    // One event.
    pub fn event(&mut self, e: Event) -> Answer
        ensures next { self.new ≡ next e self.old }
        ensures answer { result ≡ answered e self.old }
    {
        let x = bus_event::event_in_range(self.bus, &mut self.memory, e);
        self.bus = x.bus;
        x.answer
    }
}
