//! Starting a machine, and its clock.
ghost use Rattle.std.specs.Prelude.{◌≡◌, ◌==◌, ℕ, length};
ghost use Rattle.std.specs.List.{list_all, range_with_len};
ghost use Rattle.rules.specs.Starting.{ready, start_step, tick_step};
ghost use Rattle.machine.specs.View.{net_state};
ghost use Rattle.machine.specs.Does.{Does};

use crate::machine::Machine;
use calls::call::Protocol;
use calls::refusal::Refusal;
use lanes::net::LaneNet;
use lifetimes::policy::LifetimePolicy;
use memories::memory::Memory;
use messages::answer::Answer;
use messages::request::Request;
use sizes::LANES;

/// Whether a net is empty and takes messages.
#[inline(never)]
fn is_ready<X, N: LaneNet<X>>(net: &N) -> bool
    ensures { result ≡ ready (net_state N.LaneNet net.now) }
{
    net.depth() >= 1 && lanes_empty(net)
}

/// Whether all lanes of a net are empty.
fn lanes_empty<X, N: LaneNet<X>>(net: &N) -> bool
    ensures { result ≡ list_all (λ k. length (N.LaneNet.lanes net.now k) == 0) (range_with_len 0 LANES) }
{
    (0..LANES as u32).all(|k| net.count(k) == 0)
}

impl<Q: LaneNet<Request>, R: LaneNet<Answer>, M: Memory, P: LifetimePolicy> Machine<Q, R, M, P> {
    /// Starts the machine with cores 0 to `cores` - 1, empties the bank, and sets the clock to 1. Refused
    /// (15) unless there are 1 to 16 cores, the machine was not started before, and both nets are empty and
    /// have a depth above 0.
    #[inline(always)]
    pub fn start(&mut self, cores: u32, protocol: Protocol) -> Result<(), Refusal>
        ensures { Does Q.LaneNet R.LaneNet M.Memory P.LifetimePolicy (λ s. start_step s cores protocol) self.old result self.new }
    {
        if cores == 0 || cores as usize > LANES || self.tables.count() != 0 {
            return Err(Refusal::CannotStart);
        }
        if !is_ready(&self.requests) || !is_ready(&self.answers) {
            return Err(Refusal::CannotStart);
        }
        self.tables.start(cores, protocol);
        Ok(())
    }

    /// The clock goes on by one: the clock after it. Refused (12) at the clock's last tick.
    pub fn tick(&mut self) -> Result<u32, Refusal>
        ensures { Does Q.LaneNet R.LaneNet M.Memory P.LifetimePolicy tick_step self.old result self.new }
    {
        self.tables.clock = self.tables.clock.next().ok_or(Refusal::ClockAtEnd)?;
        Ok(self.tables.clock.tick())
    }
}
