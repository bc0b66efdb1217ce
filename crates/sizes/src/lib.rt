//! The sizes of the hardware. Every bound of the rules is one of these numbers, in the code and in the
//! definitions that contracts cite.
#![tactic(auto)]

ghost use Rattle.sizes.specs.Numbers.{Numbers};

/// Lanes of a net, numbered from 0: one for each core, so it is the most cores of a machine too.
pub const LANES: usize = 16;

/// The most messages that a lane of any net takes.
pub const LANE_DEPTH: usize = 64;

/// Waves of a core, numbered from 0.
pub const WAVES: usize = 48;

/// Places for copies in a core: address a goes to place a modulo this.
pub const COPY_PLACES: usize = 64;

/// The most requests of a core that are pending.
pub const PENDING_REQUESTS: usize = 32;

/// The most lines of the bank.
pub const LINES: usize = 256;

/// The most kept stamps of the bank.
pub const KEPT_STAMPS: usize = 128;

/// The most words of a memory: addresses lie below it.
pub const WORDS: usize = 4096;

/// The longest lifetime of a lease, in ticks.
pub const LONGEST_LIFETIME: u32 = 4096;

/// The clock's last tick. A lease of the longest lifetime from it ends at the largest stamp, 2^32 - 1.
pub const LAST_TICK: u32 = 4294963199;

/// Each size is the number that the rules name: 16 lanes of at most 64 messages, 48 waves, 64 places for copies and 32
/// pending requests a core, 256 lines, 128 kept stamps, 4,096 words, lifetimes of at most 4,096 ticks, and
/// 4,294,963,199 as the last tick.
pub fn numbers()
    ensures { Numbers }
{}
