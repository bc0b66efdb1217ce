//! Two nets, one behind the other.
ghost use Rattle.std.specs.Prelude.{◌≡◌, ℕ, ◌+◌, ◌<◌, ◌≤◌, length};
ghost use Rattle.hops.specs.HopLaws.{hop_bare, hop_shallow};
ghost use Rattle.hops.specs.Hops.{SameNets, hop_depth, hop_lanes, hop_loan};

use lanes::net::{LaneError, LaneNet};
use sizes::LANE_DEPTH;

/// A far net and a near net of the same messages. A message is put into the near one, and moves on
/// to the far one.
#[derive(Drop)]
pub struct Hop<F, N> {
    far: F,
    near: N,
}

impl<F, N> Hop<F, N> {
    /// One net of two.
    pub fn new(far: F, near: N) -> Hop<F, N>
        ensures far { result.far ≡ far }
        ensures near { result.near ≡ near }
    {
        Hop { far, near }
    }

    /// The two nets again.
    pub fn into_parts(self) -> (F, N)
        ensures far { result.0 ≡ self.far }
        ensures near { result.1 ≡ self.near }
    {
        let Hop { far, near } = self;
        (far, near)
    }

    /// Moves messages on until the near net takes one, or is empty.
    fn make_room<M: Drop>(&mut self, lane: u32)
    where
        F: LaneNet<M>,
        N: LaneNet<M>,
        requires { length (hop_lanes F.LaneNet N.LaneNet self.old lane) < F.LaneNet.depth self.old.far + N.LaneNet.depth self.old.near }
        ensures lanes { (j : ℕ) → hop_lanes F.LaneNet N.LaneNet self.new j ≡ hop_lanes F.LaneNet N.LaneNet self.old j }
        ensures room { N.LaneNet.depth self.new.near ≤ length (N.LaneNet.lanes self.new.near lane) → length (N.LaneNet.lanes self.new.near lane) ≡ 0 }
        ensures same { SameNets F.LaneNet N.LaneNet self.old self.new }
    {
        while self.near.count(lane) >= self.near.depth().max(1) {
            if let Some(moved) = self.near.take(lane) {
                let _ = self.far.put(lane, moved);
            }
        }
    }
}

impl<M: Drop, F: LaneNet<M>, N: LaneNet<M>> LaneNet<M> for Hop<F, N> {
    ghost lanes = { hop_lanes F.LaneNet N.LaneNet };

    ghost depth = { hop_depth F.LaneNet N.LaneNet };

    ghost Loan = { F.LaneNet.Loan × N.LaneNet.Loan };

    ghost loan = { hop_loan F.LaneNet N.LaneNet };

    ghost shallow = { hop_shallow F.LaneNet.own N.LaneNet.own };

    ghost bare = { hop_bare F.LaneNet.own N.LaneNet.own F.bare N.bare };

    fn put(&mut self, lane: u32, message: M) -> Result<(), LaneError> {
        self.room(lane)?;
        self.make_room::<M>(lane);
        if self.near.count(lane) < self.near.depth() {
            self.near.put(lane, message)
        } else {
            self.far.put(lane, message)
        }
    }

    fn oldest(&self, lane: u32) -> Option<M> {
        self.far.oldest(lane).or_else(|| self.near.oldest(lane))
    }

    fn count(&self, lane: u32) -> usize {
        self.far.count(lane).saturating_add(self.near.count(lane))
    }

    fn depth(&self) -> usize {
        (self.far.depth() + self.near.depth()).min(LANE_DEPTH)
    }

    fn take(&mut self, lane: u32) -> Option<M> {
        match self.far.take(lane) {
            None => self.near.take(lane),
            taken => taken,
        }
    }
}
