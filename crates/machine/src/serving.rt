//! Serving a core's oldest request.
ghost use Rattle.std.specs.Prelude.{◌≡◌, ◌<◌};
ghost use Rattle.sizes.specs.declared.TheConstants.{LANES, WORDS};
ghost use Rattle.messages.specs.Requests.{address_of};
ghost use Rattle.rules.specs.Serving.{serve_step, turn_step};
ghost use Rattle.machine.specs.Does.{Does};

use crate::machine::Machine;
use calls::refusal::Refusal;
use lanes::net::LaneNet;
use lifetimes::policy::LifetimePolicy;
use memories::memory::Memory;
use messages::answer::Answer;
use messages::request::Request;
use rules::causes::{fault_cause, lane_cause};

impl<Q: LaneNet<Request>, R: LaneNet<Answer>, M: Memory, P: LifetimePolicy> Machine<Q, R, M, P> {
    /// A request's turn at the bank: its answer goes to its core's lane.
    #[inline(always)]
    fn turn(&mut self, core: u32, request: Request) -> Result<(), Refusal>
        requires lane { core < LANES }
        requires address { address_of request < WORDS }
        ensures { Does Q.LaneNet R.LaneNet M.Memory P.LifetimePolicy (λ s. turn_step s (P.LifetimePolicy.present self.old.policy) core request) self.old result self.new }
    {
        let answer = self
            .tables
            .serve(core, request, &self.memory, &mut self.policy)?;
        let _ = self.requests.take(core);
        let _ = self.answers.put(core, answer);
        self.tables.unmark(core);
        Ok(())
    }

    /// The bank serves a core's oldest request. Checks: 1, 6, 5 for the answer lane, 7, 8. Cause 7
    /// comes under TC-Strong, for a store or atomic on an address whose stamp runs, and marks the lane
    /// as waiting until that request is served. (Cause 2, after 6, is for an address past the memory,
    /// which a started machine has not.)
    #[inline(always)]
    pub fn serve(&mut self, core: u32) -> Result<(), Refusal>
        ensures { Does Q.LaneNet R.LaneNet M.Memory P.LifetimePolicy (λ s. serve_step s (P.LifetimePolicy.present self.old.policy) core) self.old result self.new }
    {
        self.tables.check_core(core)?;
        let request = self.requests.oldest(core).ok_or(Refusal::NothingWaits)?;
        let address = request.address();
        self.memory
            .check(address)
            .map_err(|fault| fault_cause(address, fault))?;
        self.answers.room(core).map_err(lane_cause)?;
        self.turn(core, request)
    }
}
