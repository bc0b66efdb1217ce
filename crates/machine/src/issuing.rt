//! What a core issues.
ghost use Rattle.std.specs.Prelude.{◌≡◌, ◌<◌, length};
ghost use Rattle.messages.specs.Requests.{address_of, wave_of};
ghost use Rattle.rules.specs.Issuing.{add_step, exchange_step, forget_step, load_step, send_step, store_step, write_step};
ghost use Rattle.machine.specs.Does.{Does};

use crate::machine::Machine;
use calls::refusal::Refusal;
use lanes::net::LaneNet;
use lifetimes::policy::LifetimePolicy;
use memories::memory::Memory;
use messages::answer::Answer;
use messages::request::Request;
use rules::causes::{fault_cause, lane_cause};
use sizes::WAVES;

impl<Q: LaneNet<Request>, R: LaneNet<Answer>, M: Memory, P: LifetimePolicy> Machine<Q, R, M, P> {
    /// Puts a request on its core's lane and notes it. Checks: 4, 5.
    #[inline(always)]
    fn send(&mut self, core: u32, request: Request) -> Result<(), Refusal>
        requires known { core < length self.old.tables.cores }
        requires wave { wave_of request < WAVES }
        ensures { Does Q.LaneNet R.LaneNet M.Memory P.LifetimePolicy (λ s. send_step s core request tt) self.old result self.new }
    {
        if self.tables.is_full(core) {
            return Err(Refusal::PendingFull);
        }
        self.requests.put(core, request).map_err(lane_cause)?;
        self.tables.issue(core, request);
        Ok(())
    }

    /// A wave of a core loads a word. Checks: 1, 2, 3, the hit, 4, 5. A load hits exactly if the core
    /// has a running copy and no pending request on the address, and answers its value; otherwise a
    /// request is put and noted, and no value is answered.
    #[inline(always)]
    pub fn load(&mut self, core: u32, wave: u32, address: u32) -> Result<Option<u32>, Refusal>
        ensures { Does Q.LaneNet R.LaneNet M.Memory P.LifetimePolicy (λ s. load_step s core wave address) self.old result self.new }
    {
        let size = self.memory.size();
        let issuer = self.tables.issuer(size, core, wave, address)?;
        if let Some(value) = issuer.hit(address, self.tables.clock.tick()) {
            return Ok(Some(value));
        }
        self.send(core, Request::Load { wave, address })?;
        Ok(None)
    }

    /// Issues a store or atomic. Checks: 1, 2, 3, 4, 5. The copy of the address is dropped, and the request
    /// is put and noted.
    #[inline(always)]
    fn write(&mut self, core: u32, request: Request) -> Result<(), Refusal>
        ensures { Does Q.LaneNet R.LaneNet M.Memory P.LifetimePolicy (λ s. write_step s core (wave_of request) (address_of request) request) self.old result self.new }
    {
        let size = self.memory.size();
        self.tables
            .issuer(size, core, request.wave(), request.address())?;
        self.send(core, request)
    }

    /// A wave of a core stores a word. Checks: 1, 2, 3, 4, 5. The copy of the address is dropped, and
    /// a request is put and noted.
    #[inline(always)]
    pub fn store(&mut self, core: u32, wave: u32, address: u32, value: u32) -> Result<(), Refusal>
        ensures { Does Q.LaneNet R.LaneNet M.Memory P.LifetimePolicy (λ s. store_step s core wave address value) self.old result self.new }
    {
        self.write(
            core,
            Request::Store {
                wave,
                address,
                operand: value,
            },
        )
    }

    /// A wave of a core adds to a word, modulo 2^32; the old word is answered when it is delivered.
    /// Checks and changes are those of a store.
    #[inline(always)]
    pub fn add(&mut self, core: u32, wave: u32, address: u32, addend: u32) -> Result<(), Refusal>
        ensures { Does Q.LaneNet R.LaneNet M.Memory P.LifetimePolicy (λ s. add_step s core wave address addend) self.old result self.new }
    {
        self.write(
            core,
            Request::Add {
                wave,
                address,
                operand: addend,
            },
        )
    }

    /// A wave of a core exchanges a word for another; the old word is answered when it is delivered. Checks and
    /// changes are those of a store.
    #[inline(always)]
    pub fn exchange(&mut self, core: u32, wave: u32, address: u32, word: u32) -> Result<(), Refusal>
        ensures { Does Q.LaneNet R.LaneNet M.Memory P.LifetimePolicy (λ s. exchange_step s core wave address word) self.old result self.new }
    {
        self.write(
            core,
            Request::Exchange {
                wave,
                address,
                operand: word,
            },
        )
    }

    /// A core drops its copy of an address, running or not: whether there was one. Checks: 1, 2.
    pub fn forget(&mut self, core: u32, address: u32) -> Result<bool, Refusal>
        ensures { Does Q.LaneNet R.LaneNet M.Memory P.LifetimePolicy (λ s. forget_step s core address) self.old result self.new }
    {
        self.tables.check_core(core)?;
        self.memory
            .check(address)
            .map_err(|fault| fault_cause(address, fault))?;
        Ok(self.tables.forget(core, address))
    }
}
