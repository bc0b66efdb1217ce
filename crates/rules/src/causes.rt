//! The causes for which a net or a memory refuses.
ghost use Rattle.std.specs.Prelude.{◌≡◌};
ghost use Rattle.rules.specs.Checks.{fault_cause, lane_cause};

use calls::refusal::Refusal;
use lanes::net::LaneError;
use memories::memory::Fault;

/// The cause for which a net takes no message: 1 above its last lane, 5 where the lane is full.
pub fn lane_cause(error: LaneError) -> Refusal
    ensures { result ≡ lane_cause error }
{
    match error {
        LaneError::UnknownLane => Refusal::UnknownCore,
        LaneError::LaneFull => Refusal::LaneFull,
    }
}

/// The cause for which a memory neither reads nor writes at an address: 2 past its size, 11 with block and
/// address where the word cannot be read.
pub fn fault_cause(address: u32, fault: Fault) -> Refusal
    ensures { result ≡ fault_cause address fault }
{
    match fault {
        Fault::UnknownAddress => Refusal::UnknownAddress,
        Fault::Unreadable { block } => Refusal::Unreadable { block, address },
    }
}
