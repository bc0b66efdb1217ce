//! A request's turn at the bank: the last checks, and serving it.
ghost use Rattle.std.specs.Prelude.{◌≡◌, ◌<◌, true, None, Some, Ok, Err, OnOk, MatchOption};
ghost use Rattle.sizes.specs.declared.TheConstants.{LANES, LINES, WORDS};
ghost use Rattle.messages.specs.Requests.{address_of};
ghost use Rattle.rules.specs.Bank.{kept_stamp, line_count, line_of, with_line};
ghost use Rattle.rules.specs.Serving.{admission, carried, first_word, line_served, must_wait, new_line, served, turn_on};
ghost use Rattle.bank.specs.Turns.{ComesTo, memory_word};

use crate::bank_table::Bank;
use crate::leases::{lease, write};
use calls::call::Protocol;
use calls::refusal::Refusal;
use lifetimes::policy::LifetimePolicy;
use memories::memory::{Fault, Memory};
use messages::answer::Answer;
use messages::request::Request;
use rules::causes::fault_cause;
use rules::clock::Clock;
use rules::record::Line;
use rules::stamp::runs;

/// Under TC-Strong a store or atomic waits for the lease to end.
fn must_wait(protocol: Protocol, request: Request) -> bool
    ensures { result ≡ must_wait protocol request }
{
    protocol == Protocol::Strong && request.writes()
}

/// What a fault comes to: an unreadable block travels on as an answer, and an address past the memory
/// is refused.
fn carry(request: Request, fault: Fault) -> Result<Answer, Refusal>
    ensures { result ≡ carried request (Err fault) }
{
    match fault {
        Fault::Unreadable { block } => Ok(Answer::Fault {
            wave: request.wave(),
            address: request.address(),
            block,
        }),
        Fault::UnknownAddress => Err(fault_cause(request.address(), fault)),
    }
}

impl Bank {
    /// A request's turn: the last checks, 7 and 8, and then serving. Cause 7 comes under TC-Strong,
    /// for a store or atomic on an address whose stamp runs, and marks the lane as waiting.
    #[inline(always)]
    pub fn serve<M: Memory, P: LifetimePolicy>(
        &mut self,
        protocol: Protocol,
        clock: Clock,
        lane: u32,
        request: Request,
        memory: &M,
        policy: &mut P,
    ) -> Result<Answer, Refusal>
        requires lane { lane < LANES }
        requires address { address_of request < WORDS }
        ensures { ComesTo P.LifetimePolicy (turn_on self.old protocol clock (P.LifetimePolicy.present policy.old) (memory_word M.Memory memory.now (address_of request)) lane request (line_of self.old (address_of request))) result self.new policy.old policy.new }
    {
        let line = self.line(request.address());
        self.admit(line, protocol, clock.tick(), lane, request)?;
        let reply = match line {
            Some(line) => Ok(self.serve_found(line, clock, request, policy)),
            None => self.serve_missing(clock, request, memory, policy),
        };
        reply.or_else(|fault| carry(request, fault))
    }

    /// Whether a request can be served whose address has this line, or none. Where the lease still
    /// runs, the lane is marked as waiting on the address.
    fn admit(
        &mut self,
        line: Option<Line>,
        protocol: Protocol,
        clock: u32,
        lane: u32,
        request: Request,
    ) -> Result<(), Refusal>
        requires { lane < LANES }
        ensures answer { result ≡ (admission self.old protocol clock lane request line).answer }
        ensures after { self.new ≡ (admission self.old protocol clock lane request line).bank }
        ensures same { OnOk result (self.new ≡ self.old) }
        ensures room { OnOk result (MatchOption line (line_count self.old < LINES) (λ _. Unit {0})) }
    {
        let address = request.address();
        if must_wait(protocol, request) && runs(self.stamp(line, address, clock), clock) {
            self.mark(lane, Some(address));
            return Err(Refusal::LeaseRuns);
        }
        if line.is_none() && self.is_full() {
            return Err(Refusal::BankFull);
        }
        Ok(())
    }

    /// Serves a request on the line of its address.
    fn serve_found<P: LifetimePolicy>(
        &mut self,
        mut line: Line,
        clock: Clock,
        request: Request,
        policy: &mut P,
    ) -> Answer
        requires { line_of self.old (address_of request) ≡ Some line }
        ensures { ComesTo P.LifetimePolicy (line_served self.old clock (P.LifetimePolicy.present policy.old) true line request) (Ok result) self.new policy.old policy.new }
    {
        let answer = self.serve_line(&mut line, true, clock, request, policy);
        self.set_line(request.address(), line);
        answer
    }

    /// Serves a request on a new line.
    fn serve_missing<M: Memory, P: LifetimePolicy>(
        &mut self,
        clock: Clock,
        request: Request,
        memory: &M,
        policy: &mut P,
    ) -> Result<Answer, Fault>
        requires known { address_of request < WORDS }
        requires missing { line_of self.old (address_of request) ≡ None }
        requires room { line_count self.old < LINES }
        ensures { ComesTo P.LifetimePolicy (served self.old clock (P.LifetimePolicy.present policy.old) (memory_word M.Memory memory.now (address_of request)) request None) result self.new policy.old policy.new }
    {
        let mut line = self.new_line(clock, request, memory)?;
        let answer = self.serve_line(&mut line, false, clock, request, policy);
        self.make_line(request.address(), line);
        Ok(answer)
    }

    /// An unchanged line for a request, with its address's stamp: from memory's word or, without a look
    /// at memory, from what a store writes.
    fn new_line<M: Memory>(&self, clock: Clock, request: Request, memory: &M) -> Result<Line, Fault>
        ensures { result ≡ new_line (kept_stamp self.now clock (address_of request)) (first_word request (memory_word M.Memory memory.now (address_of request))) }
    {
        let address = request.address();
        let value = match request {
            Request::Store { operand, .. } => operand,
            _ => memory.read(address)?,
        };
        Ok(Line {
            value,
            stamp: self.kept_stamp(address, clock.tick()),
            changed: false,
        })
    }

    /// Serves a request on a line: the answer. An add works modulo 2^32. `met` says that the line was there
    /// before, which only the event of a load asks.
    #[inline(always)]
    fn serve_line<P: LifetimePolicy>(
        &self,
        line: &mut Line,
        met: bool,
        clock: Clock,
        request: Request,
        policy: &mut P,
    ) -> Answer
        ensures { ComesTo P.LifetimePolicy (line_served self.now clock (P.LifetimePolicy.present policy.old) met line.old request) (Ok result) (with_line self.now (address_of request) (Some line.new)) policy.old policy.new }
    {
        let wave = request.wave();
        let address = request.address();
        let value = line.value;
        let stamp = match request {
            Request::Load { .. } => { lease(line, met, self.is_waited_on(address), clock, policy) }
            Request::Add { operand, .. } => write(line, value.wrapping_add(operand), clock, policy),
            Request::Store { operand, .. } | Request::Exchange { operand, .. } => {
                write(line, operand, clock, policy)
            }
        };
        match request {
            Request::Load { .. } => Answer::Load {
                wave,
                address,
                value,
                stamp,
            },
            Request::Store { .. } => Answer::Store {
                wave,
                address,
                stamp,
            },
            Request::Add { .. } | Request::Exchange { .. } => Answer::Atomic {
                wave,
                address,
                value,
                stamp,
            },
        }
    }
}
