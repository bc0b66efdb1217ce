//! Delivering a core's oldest answer.
ghost use Rattle.std.specs.Prelude.{◌≡◌};
ghost use Rattle.rules.specs.Delivering.{deliver_step};
ghost use Rattle.machine.specs.Does.{Does};

use crate::machine::Machine;
use calls::outcome::Delivered;
use calls::refusal::Refusal;
use lanes::net::LaneNet;
use lifetimes::policy::LifetimePolicy;
use memories::memory::Memory;
use messages::answer::Answer;
use messages::request::Request;

impl<Q: LaneNet<Request>, R: LaneNet<Answer>, M: Memory, P: LifetimePolicy> Machine<Q, R, M, P> {
    /// A core takes its oldest answer and its oldest pending request. Checks: 1, then 6 without one of
    /// the two. A load's value becomes a copy if its stamp runs and no store or atomic of the core on
    /// the address is pending; a store's or atomic's stamp raises the wave's visible-by stamp.
    #[inline(always)]
    pub fn deliver(&mut self, core: u32) -> Result<Delivered, Refusal>
        ensures { Does Q.LaneNet R.LaneNet M.Memory P.LifetimePolicy (λ s. deliver_step s core) self.old result self.new }
    {
        self.tables.check_core(core)?;
        let answer = self.answers.oldest(core).ok_or(Refusal::NothingWaits)?;
        let delivered = self
            .tables
            .deliver(core, answer)
            .ok_or(Refusal::NothingWaits)?;
        let _ = self.answers.take(core);
        Ok(delivered)
    }
}
