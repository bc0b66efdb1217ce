//! A line leaves the bank.
ghost use Rattle.std.specs.Prelude.{◌≡◌, ◌≤◌, ◌<◌, ℕ, IsSome, Some, None, false, map, count_by, nat_le, vec_len};
ghost use Rattle.rules.specs.Stamps.{runs};
ghost use Rattle.rules.specs.Bank.{live, line_of, kept_count, with_kept, with_line};
ghost use Rattle.rules.specs.Evicting.{bank_without, kept_full, kept_running, kept_swept};

use crate::bank_table::{Bank, live};
use rules::record::Line;
use rules::stamp::runs;
use sizes::{KEPT_STAMPS, WORDS};

/// How many stamps are not 0.
fn count(stamps: &[u32]) -> usize
    ensures { result ≡ count_by (nat_le 1) stamps.now }
{
    stamps.iter().filter(|stamp| **stamp >= 1).count()
}

/// Stamps that are over become 0.
fn zero_over(stamps: &mut [u32], clock: u32)
    ensures { stamps.new ≡ map (λ t. live t clock) stamps.old }
{
    for stamp in stamps.iter_mut() {
        *stamp = live(*stamp, clock);
    }
}

/// Stamps that are over become 0: how many are left.
fn sweep(stamps: &mut [u32], clock: u32) -> usize
    ensures after { stamps.new ≡ map (λ t. live t clock) stamps.old }
    ensures left { result ≡ count_by (nat_le 1) stamps.new }
    ensures kept { result ≤ count_by (nat_le 1) stamps.old }
    ensures running { result ≤ count_by (λ t. runs t clock) stamps.old }
{
    zero_over(stamps, clock);
    count(stamps)
}

/// How many stamps run.
fn count_running(stamps: &[u32], clock: u32) -> usize
    ensures { result ≡ count_by (λ t. runs t clock) stamps.now }
{
    stamps.iter().filter(|stamp| runs(**stamp, clock)).count()
}

impl Bank {
    /// Cause 10: the line's stamp runs, and as many kept stamps run as may be kept. Stamps are looked at only
    /// where so many are kept.
    pub fn is_kept_full(&self, line: Line, clock: u32) -> bool
        requires { 1 ≤ clock }
        ensures { result ≡ kept_full self.now clock line }
    {
        runs(line.stamp, clock)
            && self.kept_count >= KEPT_STAMPS
            && count_running(&self.kept, clock) >= KEPT_STAMPS
    }

    /// Where as many stamps are kept as may be, those that are over go.
    fn sweep(&mut self, clock: u32)
        ensures after { self.new ≡ record { lines = self.old.lines; kept = kept_swept self.old clock; waiting = self.old.waiting } }
        ensures room { KEPT_STAMPS ≤ kept_count self.new → KEPT_STAMPS ≤ kept_running self.old clock }
    {
        if self.kept_count >= KEPT_STAMPS {
            self.kept_count = sweep(&mut self.kept, clock);
        }
    }

    /// Keeps a stamp of an address, or none, which is 0.
    fn keep(&mut self, address: u32, stamp: u32)
        requires known { address < WORDS }
        requires room { 1 ≤ stamp → kept_count self.old < KEPT_STAMPS }
        ensures { self.new ≡ with_kept self.old address stamp }
    {
        let place = address as usize;
        let others = self.kept_count - usize::from(self.kept[place] >= 1);
        self.kept_count = others + usize::from(stamp >= 1);
        self.kept[place] = stamp;
    }

    /// The line of an address goes.
    fn remove_line(&mut self, address: u32)
        requires { IsSome (line_of self.old address) }
        ensures { self.new ≡ with_line self.old address None }
    {
        self.lines[address as usize] = None;
        self.line_count -= 1;
    }

    /// The line of an address goes, and its running stamp is kept.
    pub fn evict(&mut self, address: u32, line: Line, clock: u32)
        requires known { address < WORDS }
        requires there { line_of self.old address ≡ Some line }
        requires room { kept_full self.old clock line ≡ false }
        ensures { self.new ≡ bank_without self.old clock address line }
    {
        self.sweep(clock);
        self.keep(address, live(line.stamp, clock));
        self.remove_line(address);
    }
}
