//! The tables of the bank.
ghost use Rattle.std.specs.Prelude.{◌≡◌, ℕ, ◌<◌, IfOk, IsSome, None, Some, nat_le, replicate};
ghost use Rattle.sizes.specs.declared.TheConstants.{WORDS};
ghost use Rattle.rules.specs.Bank.{fresh_bank, live, line_of, line_count, kept_stamp, stamp_of, with_line, with_kept, with_mark, waited_on};

use rules::record::Line;
use rules::stamp::runs;
use sizes::{LANES, LINES, WORDS};
use std::alloc::{AllocError, Global};
use std::marker::Model;

/// The bank: a place for each address, with its line and with its kept stamp, and for each lane the
/// address on which its oldest request was told to wait.
#[derive(Drop)]
pub struct Bank {
    pub(crate) line_count: usize,
    pub(crate) lines: Vec<Option<Line>>,
    /// 0 where no stamp is kept
    pub(crate) kept: Vec<u32>,
    pub(crate) kept_count: usize,
    pub(crate) waiting: [Option<u32>; LANES],
    /// how many lanes wait
    pub(crate) waiting_count: usize,
}

impl Model for Bank {
    ghost use Rattle.rules.specs.State.{BankState};

    ghost Value = { BankState };

    ghost use Rattle.bank.specs.BankView.{BankInBounds, bank_state};

    ghost view = { bank_state };

    ghost invariant = { BankInBounds };
}

/// A stamp that runs, else 0: ticks begin at 1, so the rules and the answers have 0 for none.
pub(crate) fn live(stamp: u32, clock: u32) -> u32
    ensures { result ≡ live stamp clock }
{
    if runs(stamp, clock) { stamp } else { 0 }
}

impl Bank {
    /// A bank with all its room.
    pub fn new(heap: Global) -> Result<Bank, AllocError>
        ensures { IfOk result (λ b. b ≡ fresh_bank) }
    {
        Ok(Bank {
            lines: vec![in heap; None; WORDS]?,
            line_count: 0,
            kept: vec![in heap; 0u32; WORDS]?,
            kept_count: 0,
            waiting: [None; LANES],
            waiting_count: 0,
        })
    }

    /// Empties the bank. Mostly there is nothing to empty, and then no place is gone through.
    pub fn clear(&mut self)
        ensures { self.new ≡ fresh_bank }
    {
        self.clear_lines();
        self.clear_kept();
        self.waiting = [None; LANES];
        self.waiting_count = 0;
    }

    /// Takes all lines away.
    fn clear_lines(&mut self)
        ensures lines { self.new.lines ≡ replicate WORDS None }
        ensures kept { self.new.kept ≡ self.old.kept }
        ensures waiting { self.new.waiting ≡ self.old.waiting }
    {
        if self.line_count != 0 {
            self.lines.fill(None);
            self.line_count = 0;
        }
    }

    /// Takes all kept stamps away.
    fn clear_kept(&mut self)
        ensures lines { self.new.lines ≡ self.old.lines }
        ensures kept { self.new.kept ≡ replicate WORDS 0 }
        ensures waiting { self.new.waiting ≡ self.old.waiting }
    {
        if self.kept_count != 0 {
            self.kept.fill(0);
            self.kept_count = 0;
        }
    }

    /// The line of an address, by its fields, so that no padding is copied.
    pub fn line(&self, address: u32) -> Option<Line>
        ensures { result ≡ line_of self.now address }
    {
        let Line {
            value,
            stamp,
            changed,
        } = (*self.lines.get(address as usize)?)?;
        Some(Line {
            value,
            stamp,
            changed,
        })
    }

    /// Whether no more lines can be made.
    pub(crate) fn is_full(&self) -> bool
        ensures { result ≡ nat_le LINES (line_count self.now) }
    {
        self.line_count >= LINES
    }

    /// The running kept stamp of an address, else 0.
    pub(crate) fn kept_stamp(&self, address: u32, clock: u32) -> u32
        ensures { result ≡ kept_stamp self.now clock address }
    {
        self.kept
            .get(address as usize)
            .map_or(0, |stamp| live(*stamp, clock))
    }

    /// The stamp of an address whose line this is, or that has none.
    pub(crate) fn stamp(&self, line: Option<Line>, address: u32, clock: u32) -> u32
        ensures { result ≡ stamp_of self.now clock address line }
    {
        match line {
            Some(line) => line.stamp,
            None => self.kept_stamp(address, clock),
        }
    }

    /// Looks through the lanes for one that waits on an address.
    #[inline(never)]
    fn find_waiter(&self, address: u32) -> bool
        ensures { result ≡ waited_on self.now address }
    {
        self.waiting.contains(&Some(address))
    }

    /// Whether a lane waits on an address. Mostly none waits at all.
    #[inline(always)]
    pub(crate) fn is_waited_on(&self, address: u32) -> bool
        ensures { result ≡ waited_on self.now address }
    {
        self.waiting_count != 0 && self.find_waiter(address)
    }

    /// Sets the line of an address that has one.
    pub(crate) fn set_line(&mut self, address: u32, line: Line)
        requires { IsSome (line_of self.old address) }
        ensures { self.new ≡ with_line self.old address (Some line) }
    {
        self.lines[address as usize] = Some(line);
    }

    /// Makes the line of an address that has none; its kept stamp goes.
    pub(crate) fn make_line(&mut self, address: u32, line: Line)
        requires known { address < WORDS }
        requires missing { line_of self.old address ≡ None }
        requires room { line_count self.old < LINES }
        ensures { self.new ≡ with_line (with_kept self.old address 0) address (Some line) }
    {
        let place = address as usize;
        self.kept_count -= usize::from(self.kept[place] >= 1);
        self.kept[place] = 0;
        self.lines[place] = Some(line);
        self.line_count += 1;
    }

    /// Marks a lane as waiting on an address, or on none.
    pub fn mark(&mut self, lane: u32, on: Option<u32>)
        requires { lane < LANES }
        ensures { self.new ≡ with_mark self.old lane on }
    {
        let lane = lane as usize;
        let others = self.waiting_count - usize::from(self.waiting[lane].is_some());
        self.waiting_count = others + usize::from(on.is_some());
        self.waiting[lane] = on;
    }
}
