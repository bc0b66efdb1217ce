//! The machine's tables: the clock, the protocol, the cores and the bank.
ghost use Rattle.std.specs.Prelude.{◌≡◌, ◌<◌, ℕ, ◌+◌, ◌≤◌, Ok, Err, length, nat_le, None, Some, false, replicate, IfOk, OnOk, MatchOption, MatchResult, vec_capacity, vec_len};
ghost use Rattle.std.specs.Option.{option_map};
ghost use Rattle.sizes.specs.declared.TheConstants.{WORDS};
ghost use Rattle.lanes.specs.Lanes.{oldest};
ghost use Rattle.messages.specs.Requests.{address_of, wave_of};
ghost use Rattle.rules.specs.Bank.{line_of, with_mark};
ghost use Rattle.rules.specs.Evicting.{bank_without, kept_full};
ghost use Rattle.rules.specs.Stamps.{runs};
ghost use Rattle.rules.specs.Checks.{core_check};
ghost use Rattle.rules.specs.Cores.{copy_at, delivery, dropped, fresh_core, holds, issued};
ghost use Rattle.rules.specs.Delivering.{handed_at};
ghost use Rattle.rules.specs.Issuing.{issue_check};
ghost use Rattle.rules.specs.Serving.{turn_at};
ghost use Rattle.rules.specs.Starting.{fresh_tables, started};
ghost use Rattle.rules.specs.Transitions.{core_at, with_bank, with_core};
ghost use Rattle.bank.specs.Turns.{ComesTo, memory_word};

use bank::bank_table::Bank;
use calls::call::Protocol;
use calls::outcome::Delivered;
use calls::refusal::Refusal;
use cores::core_table::Core;
use lifetimes::policy::LifetimePolicy;
use memories::memory::Memory;
use messages::answer::Answer;
use messages::request::Request;
use rules::clock::Clock;
use rules::record::Line;
use rules::stamp::runs;
use sizes::{LANES, PENDING_REQUESTS, WAVES};
use std::alloc::{AllocError, Global};
use std::marker::Model;

/// The clock, the protocol, the cores and the bank. A machine without cores has not been started.
#[derive(Drop)]
pub struct Tables {
    protocol: Protocol,
    pub(crate) clock: Clock,
    cores: Vec<Core>,
    /// cores whose room is reserved, and that no start has taken
    spare: Vec<Core>,
    bank: Bank,
}

impl Model for Tables {
    ghost use Rattle.rules.specs.State.{TablesState};

    ghost Value = { TablesState };

    ghost use Rattle.machine.specs.TablesView.{TablesInBounds, tables_state};

    ghost view = { tables_state };

    ghost invariant = { TablesInBounds };
}

/// As many cores as there are lanes, with all their room reserved.
fn all_cores(heap: Global) -> Result<Vec<Core>, AllocError>
    ensures { IfOk result (λ v. vec_len v ≡ LANES) }
{
    (0..LANES).map(|_| Core::new(heap)).try_collect(heap)
}

/// Moves `count` cores from the spare ones to the cores, emptied.
fn enlist(cores: &mut Vec<Core>, spare: &mut Vec<Core>, count: u32)
    requires { (vec_len cores.old ≡ 0) × ((count ≤ vec_capacity cores.old) × (count ≤ vec_len spare.old)) }
    ensures items { cores.new.items ≡ replicate count fresh_core }
    ensures len { vec_len cores.new ≡ count }
    ensures room { vec_capacity cores.new ≡ vec_capacity cores.old }
    ensures left { vec_len spare.new + count ≡ vec_len spare.old }
{
    for mut core in spare.drain(..count as usize) {
        core.clear();
        cores.push_reserved(core);
    }
}

impl Tables {
    /// Tables with all their room reserved, and no cores yet: the clock at 1, and an empty bank. Later no call
    /// of the machine can fail for want of memory.
    pub fn new(heap: Global) -> Result<Tables, AllocError>
        ensures { IfOk result (λ t. t ≡ fresh_tables) }
    {
        let bank = Bank::new(heap)?;
        let cores = Vec::with_capacity(heap, LANES)?;
        let spare = all_cores(heap)?;
        Ok(Tables {
            clock: Clock::start(),
            protocol: Protocol::Strong,
            cores,
            spare,
            bank,
        })
    }

    /// Starts with `count` cores.
    #[inline(never)]
    pub(crate) fn start(&mut self, count: u32, protocol: Protocol)
        requires { (count ≤ LANES) × (length self.old.cores ≡ 0) }
        ensures { self.new ≡ started count protocol }
    {
        self.clock = Clock::start();
        self.protocol = protocol;
        enlist(&mut self.cores, &mut self.spare, count);
        self.bank.clear();
    }

    /// How many cores there are.
    pub(crate) fn count(&self) -> usize
        ensures { result ≡ length self.now.cores }
    {
        self.cores.len()
    }

    /// Cause 1, for the number of a core.
    pub(crate) fn check_core(&self, core: u32) -> Result<(), Refusal>
        ensures answer { result ≡ core_check self.now core }
        ensures known { OnOk result (core < length self.now.cores) }
        ensures lane { OnOk result (core < LANES) }
    {
        if core as usize >= self.cores.len() {
            return Err(Refusal::UnknownCore);
        }
        Ok(())
    }

    /// The core of a wave that may issue on an address of a memory of this size. Checks: cause 1, then 2,
    /// then 3.
    #[inline(always)]
    pub(crate) fn issuer(
        &self,
        size: u32,
        core: u32,
        wave: u32,
        address: u32,
    ) -> Result<&Core, Refusal>
        ensures checks { MatchResult result (λ _. issue_check self.now size core wave address ≡ Ok tt) (λ e. issue_check self.now size core wave address ≡ Err e) }
        ensures value { IfOk result (λ c. c.now ≡ core_at self.now core) }
        ensures known { OnOk result (core < length self.now.cores) }
        ensures wave { OnOk result (wave < WAVES) }
    {
        let issuer = self.cores.get(core as usize).ok_or(Refusal::UnknownCore)?;
        if wave as usize >= WAVES {
            return Err(Refusal::UnknownCore);
        }
        if address >= size {
            return Err(Refusal::UnknownAddress);
        }
        if issuer.is_fenced(wave) {
            return Err(Refusal::FenceOpen);
        }
        Ok(issuer)
    }

    /// Whether no more requests of a core can be pending.
    pub(crate) fn is_full(&self, core: u32) -> bool
        requires { core < length self.now.cores }
        ensures { result ≡ nat_le PENDING_REQUESTS (length (core_at self.now core).pending) }
    {
        self.cores[core as usize].is_full()
    }

    /// Notes a request of a core; a store or atomic drops the copy of its address.
    pub(crate) fn issue(&mut self, core: u32, request: Request)
        requires known { core < length self.old.cores }
        requires room { length (core_at self.old core).pending < PENDING_REQUESTS }
        requires wave { wave_of request < WAVES }
        ensures { self.new ≡ with_core self.old core (issued (core_at self.old core) request) }
    {
        self.cores[core as usize].issue(request);
    }

    /// Drops a core's copy of an address, running or not: whether there was one.
    pub(crate) fn forget(&mut self, core: u32, address: u32) -> bool
        requires { core < length self.old.cores }
        ensures there { result ≡ holds (copy_at (core_at self.old core) address) address }
        ensures after { self.new ≡ with_core self.old core (dropped (core_at self.old core) address) }
    {
        self.cores[core as usize].forget(address)
    }

    /// Takes the oldest pending request of a core, does what the answer to it changes, and tells what is
    /// handed to the core. Without a pending request nothing changes.
    #[inline(always)]
    pub(crate) fn deliver(&mut self, core: u32, answer: Answer) -> Option<Delivered>
        requires { core < length self.old.cores }
        ensures delivered { result ≡ option_map (λ request. delivery request answer) (oldest (core_at self.old core).pending) }
        ensures after { MatchOption (oldest (core_at self.old core).pending) (self.new ≡ self.old) (λ request. self.new ≡ handed_at self.old core request answer) }
    {
        let clock = self.clock.tick();
        self.cores[core as usize].deliver(clock, answer)
    }

    /// The line of an address.
    pub(crate) fn line(&self, address: u32) -> Option<Line>
        ensures { result ≡ line_of self.now.bank address }
    {
        self.bank.line(address)
    }

    /// Cause 10, for a line that is to leave.
    pub(crate) fn is_kept_full(&self, line: Line) -> bool
        ensures { result ≡ kept_full self.now.bank self.now.clock line }
    {
        self.bank.is_kept_full(line, self.clock.tick())
    }

    /// The line of an address leaves the bank, and its running stamp is kept: whether it runs.
    pub(crate) fn evict(&mut self, address: u32, line: Line) -> bool
        requires known { address < WORDS }
        requires there { line_of self.old.bank address ≡ Some line }
        requires room { kept_full self.old.bank self.old.clock line ≡ false }
        ensures left { result ≡ runs line.stamp self.old.clock }
        ensures after { self.new ≡ with_bank self.old (bank_without self.old.bank self.old.clock address line) }
    {
        let clock = self.clock.tick();
        self.bank.evict(address, line, clock);
        runs(line.stamp, clock)
    }

    /// A request's turn at the bank.
    #[inline(always)]
    pub(crate) fn serve<M: Memory, P: LifetimePolicy>(
        &mut self,
        core: u32,
        request: Request,
        memory: &M,
        policy: &mut P,
    ) -> Result<Answer, Refusal>
        requires lane { core < LANES }
        requires address { address_of request < WORDS }
        ensures turn { ComesTo P.LifetimePolicy (turn_at self.old (P.LifetimePolicy.present policy.old) (memory_word M.Memory memory.now (address_of request)) core request) result self.new.bank policy.old policy.new }
        ensures rest { self.new ≡ with_bank self.old self.new.bank }
    {
        let (protocol, clock) = (self.protocol, self.clock);
        self.bank
            .serve(protocol, clock, core, request, memory, policy)
    }

    /// Takes the waiting mark of a core's lane away.
    pub(crate) fn unmark(&mut self, core: u32)
        requires { core < LANES }
        ensures { self.new ≡ with_bank self.old (with_mark self.old.bank core None) }
    {
        self.bank.mark(core, None);
    }
}
