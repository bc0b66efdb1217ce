//! The tables of one core.
ghost use Rattle.std.specs.Prelude.{◌≡◌, ℕ, ◌<◌, length, IfOk, IfSome, MatchOption, nat_le};
ghost use Rattle.std.specs.List.{list_any};
ghost use Rattle.std.specs.Option.{option_map};
ghost use Rattle.lanes.specs.Lanes.{oldest};
ghost use Rattle.messages.specs.Requests.{wave_of};
ghost use Rattle.rules.specs.Cores.{copy_at, fresh_core, holds, fenced, on, writes_on, running_value, hit, dropped, issued, took, filled, raised, handed, delivery};

use crate::delivery::delivery;
use calls::outcome::Delivered;
use messages::answer::Answer;
use messages::request::Request;
use rules::record::LeasedCopy;
use rules::stamp::runs;
use sizes::{COPY_PLACES, PENDING_REQUESTS, WAVES};
use std::alloc::{AllocError, Global};
use std::collections::VecDeque;
use std::marker::Model;

/// What a core keeps for a wave: its visible-by stamp, and whether its fence is open.
#[derive(Clone, Copy)]
struct Wave {
    visible: u32,
    fenced: bool,
}

/// A wave that has issued nothing.
const FRESH: Wave = Wave {
    visible: 0,
    fenced: false,
};

/// One core: its copies, its pending requests (oldest first), and its waves.
#[derive(Drop)]
pub struct Core {
    copies: [Option<LeasedCopy>; COPY_PLACES],
    pending: VecDeque<Request>,
    waves: [Wave; WAVES],
}

impl Model for Core {
    ghost use Rattle.rules.specs.State.{CoreState};

    ghost Value = { CoreState };

    ghost use Rattle.cores.specs.CoreView.{CoreInBounds, core_state};

    ghost view = { core_state };

    ghost invariant = { CoreInBounds };
}

/// The value of a copy of the address that runs.
#[inline(always)]
fn running_value(copy: Option<LeasedCopy>, address: u32, clock: u32) -> Option<u32>
    ensures { result ≡ running_value copy clock address }
{
    let copy = copy?;
    if copy.address != address || !runs(copy.stamp, clock) {
        return None;
    }
    Some(copy.value)
}

impl Core {
    /// A core with all its room reserved.
    pub fn new(heap: Global) -> Result<Core, AllocError>
        ensures { IfOk result (λ c. c ≡ fresh_core) }
    {
        let pending = VecDeque::with_capacity(heap, PENDING_REQUESTS)?;
        Ok(Core {
            copies: [None; COPY_PLACES],
            pending,
            waves: [FRESH; WAVES],
        })
    }

    /// Empties the core.
    pub fn clear(&mut self)
        ensures { self.new ≡ fresh_core }
    {
        self.copies = [None; COPY_PLACES];
        self.pending.clear();
        self.waves = [FRESH; WAVES];
    }

    /// Whether no more requests can be pending.
    pub fn is_full(&self) -> bool
        ensures { result ≡ nat_le PENDING_REQUESTS (length self.now.pending) }
    {
        self.pending.len() >= PENDING_REQUESTS
    }

    /// Whether a wave's fence is open.
    pub fn is_fenced(&self, wave: u32) -> bool
        ensures { result ≡ fenced self.now wave }
    {
        self.waves
            .get(wave as usize)
            .is_some_and(|wave| wave.fenced)
    }

    /// Looks through the pending requests for one on the address.
    #[inline(never)]
    fn find_on(&self, address: u32) -> bool
        ensures { result ≡ list_any (on address) self.now.pending }
    {
        self.pending
            .iter()
            .any(|request| request.address() == address)
    }

    /// Whether a request on the address is pending. Mostly none is pending at all.
    #[inline(always)]
    fn any_on(&self, address: u32) -> bool
        ensures { result ≡ list_any (on address) self.now.pending }
    {
        !self.pending.is_empty() && self.find_on(address)
    }

    /// Looks through the pending requests for a store or atomic on the address.
    #[inline(never)]
    fn find_write_on(&self, address: u32) -> bool
        ensures { result ≡ list_any (writes_on address) self.now.pending }
    {
        self.pending
            .iter()
            .any(|request| request.writes() && request.address() == address)
    }

    /// Whether a store or atomic on the address is pending. Mostly none is pending at all.
    #[inline(always)]
    fn any_write_on(&self, address: u32) -> bool
        ensures { result ≡ list_any (writes_on address) self.now.pending }
    {
        !self.pending.is_empty() && self.find_write_on(address)
    }

    /// The value of a running copy, where no request on the address is pending.
    #[inline(always)]
    pub fn hit(&self, address: u32, clock: u32) -> Option<u32>
        ensures { result ≡ hit self.now clock address }
    {
        let copy = self.copies[address as usize % COPY_PLACES];
        let value = running_value(copy, address, clock)?;
        if self.any_on(address) {
            return None;
        }
        Some(value)
    }

    /// Drops the copy of an address, running or not: whether there was one.
    pub fn forget(&mut self, address: u32) -> bool
        ensures there { result ≡ holds (copy_at self.old address) address }
        ensures after { self.new ≡ dropped self.old address }
    {
        let place = address as usize % COPY_PLACES;
        let there = self.copies[place].is_some_and(|copy| copy.address == address);
        if there {
            self.copies[place] = None;
        }
        there
    }

    /// Notes a request as the youngest pending one; a store or atomic first drops the copy of its
    /// address.
    pub fn issue(&mut self, request: Request)
        requires room { length self.old.pending < PENDING_REQUESTS }
        requires known { wave_of request < WAVES }
        ensures { self.new ≡ issued self.old request }
    {
        if request.writes() {
            let _ = self.forget(request.address());
        }
        self.pending.push_back_reserved(request);
    }

    /// Takes the oldest pending request.
    fn take(&mut self) -> Option<Request>
        ensures taken { result ≡ oldest self.old.pending }
        ensures after { self.new ≡ took self.old }
        ensures known { IfSome result (λ request. wave_of request < WAVES) }
    {
        self.pending.pop_front()
    }

    /// Makes a copy of a load's value, if its stamp runs and no store or atomic on the address is
    /// pending.
    fn fill(&mut self, copy: LeasedCopy, clock: u32)
        ensures { self.new ≡ filled self.old clock copy.address copy.value copy.stamp }
    {
        if runs(copy.stamp, clock) && !self.any_write_on(copy.address) {
            self.copies[copy.address as usize % COPY_PLACES] = Some(copy);
        }
    }

    /// Raises a wave's visible-by stamp to the larger.
    #[tactic(auto, using(crate::proofs::Waves::stamp_set, crate::proofs::Waves::stamp_at, crate::proofs::Waves::fences_stay))]
    fn raise(&mut self, wave: u32, stamp: u32)
        requires { wave < WAVES }
        ensures { self.new ≡ raised self.old wave stamp }
    {
        let wave = wave as usize;
        self.waves[wave].visible = self.waves[wave].visible.max(stamp);
    }

    /// Does what an answer to the request changes.
    fn hand(&mut self, clock: u32, request: Request, answer: Answer)
        requires { wave_of request < WAVES }
        ensures { self.new ≡ handed self.old clock request answer }
    {
        match answer {
            Answer::Load { value, stamp, .. } => {
                let address = request.address();
                self.fill(
                    LeasedCopy {
                        address,
                        value,
                        stamp,
                    },
                    clock,
                );
            }
            Answer::Store { stamp, .. } | Answer::Atomic { stamp, .. } => {
                self.raise(request.wave(), stamp);
            }
            Answer::Fault { .. } => {}
        }
    }

    /// Takes the oldest pending request, does what the answer to it changes, and tells what is handed to the
    /// core. Without a pending request nothing changes.
    pub fn deliver(&mut self, clock: u32, answer: Answer) -> Option<Delivered>
        ensures delivered { result ≡ option_map (λ request. delivery request answer) (oldest self.old.pending) }
        ensures after { MatchOption (oldest self.old.pending) (self.new ≡ self.old) (λ request. self.new ≡ handed (took self.old) clock request answer) }
    {
        let request = self.take()?;
        self.hand(clock, request, answer);
        Some(delivery(request, answer))
    }
}
