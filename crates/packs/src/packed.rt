//! Messages stored as their words.
ghost use Rattle.std.specs.Prelude.{◌≡◌, ℕ, ◌-◌, ◌^◌, [], length, min};
ghost use Rattle.packs.specs.PackLaws.{pack_bare, pack_shallow};
ghost use Rattle.packs.specs.Packs.{pack_depth, pack_lanes};

use crate::lane::Lane;
use lanes::net::{LaneError, LaneNet};
use messages::form::FiveWords;
use sizes::LANES;
use std::marker::PhantomData;

/// How many messages a packed lane takes.
pub const PACKED_DEPTH: usize = 8;

/// 16 lanes of at most 8 messages, each stored as its five words in a table of its own.
#[derive(Drop)]
pub struct Packed<M> {
    lanes: [Lane; LANES],
    kind: PhantomData<M>,
}

impl<M: FiveWords + Drop> Packed<M> {
    /// An empty net.
    pub fn new() -> Packed<M>
        ensures { (k : ℕ) → pack_lanes M.FiveWords result k ≡ [] }
    {
        Packed {
            lanes: std::array::from_fn(|_| Lane::new()),
            kind: PhantomData,
        }
    }
}

impl<M: FiveWords + Drop> LaneNet<M> for Packed<M> {
    ghost lanes = { λ s. pack_lanes M.FiveWords s };

    ghost depth = { λ _. pack_depth };

    ghost Loan = { Unit {0} };

    ghost loan = { λ _. tt };

    ghost shallow = { λ _. pack_shallow };

    ghost bare = { pack_bare M.FiveWords.own };

    fn put(&mut self, lane: u32, message: M) -> Result<(), LaneError> {
        self.room(lane)?;
        self.lanes[lane as usize].push(message);
        Ok(())
    }

    fn oldest(&self, lane: u32) -> Option<M> {
        self.lanes.get(lane as usize)?.oldest()
    }

    /// Beyond what each net promises: the count is exact, since a lane holds at most 8 messages.
    fn count(&self, lane: u32) -> usize
        ensures told { result ≡ min (length (pack_lanes M.FiveWords self.now lane)) (2 ^ 64 - 1) }
        ensures exact { result ≡ length (pack_lanes M.FiveWords self.now lane) }
    {
        self.lanes
            .get(lane as usize)
            .map_or(0, |lane| lane.count::<M>())
    }

    fn depth(&self) -> usize {
        PACKED_DEPTH
    }

    fn take(&mut self, lane: u32) -> Option<M> {
        if lane as usize >= LANES {
            return None;
        }
        self.lanes[lane as usize].take()
    }
}
