//! One call of the machine, as a value.
ghost use Rattle.rules.specs.Calls.{make_step, outcome_of};
ghost use Rattle.machine.specs.Does.{Does};

use crate::machine::Machine;
use calls::call::Call;
use calls::outcome::Outcome;
use calls::refusal::Refusal;
use lanes::net::LaneNet;
use lifetimes::policy::LifetimePolicy;
use memories::memory::Memory;
use messages::answer::Answer;
use messages::request::Request;

impl<Q: LaneNet<Request>, R: LaneNet<Answer>, M: Memory, P: LifetimePolicy> Machine<Q, R, M, P> {
    /// What a call comes to where it is not refused.
    #[inline(always)]
    fn try_make(&mut self, call: Call) -> Result<Outcome, Refusal>
        ensures { Does Q.LaneNet R.LaneNet M.Memory P.LifetimePolicy (λ s. make_step s (P.LifetimePolicy.present self.old.policy) call) self.old (outcome_of result) self.new }
    {
        let outcome = match call {
            Call::Start { cores, protocol } => {
                self.start(cores, protocol)?;
                Outcome::Started
            }
            Call::Load {
                core,
                wave,
                address,
            } => match self.load(core, wave, address)? {
                Some(value) => Outcome::Hit { address, value },
                None => Outcome::Sent,
            },
            Call::Store {
                core,
                wave,
                address,
                value,
            } => {
                self.store(core, wave, address, value)?;
                Outcome::Sent
            }
            Call::Add {
                core,
                wave,
                address,
                value,
            } => {
                self.add(core, wave, address, value)?;
                Outcome::Sent
            }
            Call::Exchange {
                core,
                wave,
                address,
                value,
            } => {
                self.exchange(core, wave, address, value)?;
                Outcome::Sent
            }
            Call::Serve { core } => {
                self.serve(core)?;
                Outcome::Served
            }
            Call::Deliver { core } => Outcome::Delivered(self.deliver(core)?),
            Call::Tick => Outcome::Ticked(self.tick()?),
            Call::Evict { address } => {
                self.evict(address)?;
                Outcome::Evicted
            }
            Call::Forget { core, address } => {
                if self.forget(core, address)? {
                    Outcome::Forgotten
                } else {
                    Outcome::NoCopy
                }
            }
        };
        Ok(outcome)
    }

    /// Makes a call: what it comes to, and what it leaves, are those of its step.
    #[inline(always)]
    pub fn make(&mut self, call: Call) -> Outcome
        ensures { Does Q.LaneNet R.LaneNet M.Memory P.LifetimePolicy (λ s. make_step s (P.LifetimePolicy.present self.old.policy) call) self.old result self.new }
    {
        self.try_make(call).unwrap_or_else(Outcome::Refused)
    }
}
