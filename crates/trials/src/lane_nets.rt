//! Lane nets: rings, packed lanes, and hops over both.
ghost use Rattle.std.specs.Prelude.{◌≡◌, length};
ghost use Rattle.lanes.specs.Rings.{ring_lanes};
ghost use Rattle.packs.specs.Packs.{pack_lanes};

use hops::hop::Hop;
use lanes::net::{LaneError, LaneNet};
use lanes::ring::Ring;
use messages::form::FiveWords;
use messages::request::Request;
use packs::packed::Packed;
use std::process::Abort;

fn load(address: u32) -> Request {
    Request::Load { wave: 0, address }
}

// Puts loads of the addresses from `first` on, until the lane is full at `end`.
fn fill<N: LaneNet<Request>>(rt: &impl Abort, net: &mut N, lane: u32, first: u32, end: u32) {
    for address in first..end {
        assert_eq!(rt; net.room(lane), Ok(()));
        assert_eq!(rt; net.put(lane, load(address)), Ok(()));
    }
    assert_eq!(rt; net.room(lane), Err(LaneError::LaneFull));
    assert_eq!(rt; net.put(lane, load(end)), Err(LaneError::LaneFull));
}

// Takes them, in the same order, until the lane is empty.
fn drain<N: LaneNet<Request>>(rt: &impl Abort, net: &mut N, lane: u32, first: u32, end: u32) {
    for address in first..end {
        assert_eq!(rt; net.oldest(lane), Some(load(address)));
        assert_eq!(rt; net.take(lane), Some(load(address)));
    }
    assert_eq!(rt; net.oldest(lane), None);
    assert_eq!(rt; net.take(lane), None);
}

// Nothing lies above lane 15, and nothing is put there.
fn ends_at_lane_15<N: LaneNet<Request>>(rt: &impl Abort, net: &mut N) {
    assert_eq!(rt; net.room(16), Err(LaneError::UnknownLane));
    assert_eq!(rt; net.put(16, load(1)), Err(LaneError::UnknownLane));
    assert_eq!(rt; net.count(16), 0);
    assert_eq!(rt; net.take(16), None);
}

// A caller knows exactly how many messages a lane of a ring holds.
fn held_in_ring<M: Copy>(ring: &Ring<'_, M>, lane: u32) -> usize
    ensures { result ≡ length (ring_lanes ring.now lane) }
{
    ring.count(lane)
}

// The same of packed lanes.
fn held_in_packed<M: FiveWords + Drop>(packed: &Packed<M>, lane: u32) -> usize
    ensures { result ≡ length (pack_lanes M.FiveWords packed.now lane) }
{
    packed.count(lane)
}

// A ring holds messages of any kind.
#[test]
fn a_ring_of_numbers(rt: HostRuntime) {
    let mut row = [0u32; 47];
    let mut ring = Ring::new(&mut row);
    assert_eq!(rt; ring.depth(), 2);
    assert_eq!(rt; ring.put(15, 7), Ok(()));
    assert_eq!(rt; ring.put(15, 8), Ok(()));
    assert_eq!(rt; ring.put(15, 9), Err(LaneError::LaneFull));
    assert_eq!(rt; ring.put(16, 9), Err(LaneError::UnknownLane));
    assert_eq!(rt; ring.count(15), 2);
    assert_eq!(rt; ring.oldest(15), Some(7));
    assert_eq!(rt; ring.oldest(14), None);
    assert_eq!(rt; ring.count(16), 0);
    assert_eq!(rt; held_in_ring(&ring, 15), 2);
}

// Lanes that are put to in turn, and one goes round.
#[test]
fn lanes_of_numbers_in_turn(rt: HostRuntime) {
    let mut row = [0u32; 32];
    let mut ring = Ring::new(&mut row);
    assert_eq!(rt; ring.put(0, 1), Ok(()));
    assert_eq!(rt; ring.put(1, 5), Ok(()));
    assert_eq!(rt; ring.put(0, 2), Ok(()));
    assert_eq!(rt; ring.take(0), Some(1));
    assert_eq!(rt; ring.put(0, 3), Ok(()));
    assert_eq!(rt; ring.take(0), Some(2));
    assert_eq!(rt; ring.take(0), Some(3));
    assert_eq!(rt; ring.take(0), None);
    assert_eq!(rt; ring.take(1), Some(5));
}

#[test]
fn a_lane_of_a_ring_takes_its_depth(rt: HostRuntime) {
    let mut row = [load(0); 47];
    let mut ring = Ring::new(&mut row);
    fill(&rt, &mut ring, 15, 7, 9);
    assert_eq!(rt; ring.count(15), 2);
    assert_eq!(rt; ring.oldest(14), None);
    drain(&rt, &mut ring, 15, 7, 9);
    ends_at_lane_15(&rt, &mut ring);
}

#[test]
fn a_lane_of_a_ring_goes_round(rt: HostRuntime) {
    let mut row = [load(0); 32];
    let mut ring = Ring::new(&mut row);
    fill(&rt, &mut ring, 1, 5, 7);
    fill(&rt, &mut ring, 0, 1, 3);
    assert_eq!(rt; ring.take(0), Some(load(1)));
    fill(&rt, &mut ring, 0, 3, 4);
    drain(&rt, &mut ring, 0, 2, 4);
    drain(&rt, &mut ring, 1, 5, 7);
}

#[test]
fn a_ring_over_a_short_row_takes_nothing(rt: HostRuntime) {
    let mut row = [load(0); 15];
    let mut ring = Ring::new(&mut row);
    assert_eq!(rt; ring.depth(), 0);
    fill(&rt, &mut ring, 0, 1, 1);
    drain(&rt, &mut ring, 0, 1, 1);
}

#[test]
fn the_depth_of_a_ring_ends_at_32(rt: HostRuntime) {
    let mut shortest = [load(0); 16];
    let mut short = [load(0); 47];
    let mut longest = [load(0); 512];
    let mut longer = [load(0); 600];
    assert_eq!(rt; Ring::new(&mut shortest).depth(), 1);
    assert_eq!(rt; Ring::new(&mut short).depth(), 2);
    assert_eq!(rt; Ring::new(&mut longest).depth(), 32);
    assert_eq!(rt; Ring::new(&mut longer).depth(), 32);
}

#[test]
fn packed_lanes_take_eight(rt: HostRuntime) {
    let mut packed = Packed::new();
    assert_eq!(rt; packed.put(3, load(100)), Ok(()));
    fill(&rt, &mut packed, 15, 0, 8);
    assert_eq!(rt; held_in_packed(&packed, 15), 8);
    drain(&rt, &mut packed, 15, 0, 8);
    drain(&rt, &mut packed, 3, 100, 101);
    ends_at_lane_15(&rt, &mut packed);
}

// One place far, eight near: the ninth message moves the first on.
#[test]
fn messages_hop(rt: HostRuntime) {
    let mut row = [load(0); 16];
    let mut hop = Hop::new(Ring::new(&mut row), Packed::new());
    fill(&rt, &mut hop, 4, 100, 109);
    fill(&rt, &mut hop, 0, 0, 9);
    drain(&rt, &mut hop, 0, 0, 9);
    drain(&rt, &mut hop, 4, 100, 109);
    ends_at_lane_15(&rt, &mut hop);
}

#[test]
fn a_shut_far_part(rt: HostRuntime) {
    let mut short = [load(0); 15];
    let mut hop = Hop::new(Ring::new(&mut short), Packed::new());
    fill(&rt, &mut hop, 2, 0, 8);
    drain(&rt, &mut hop, 2, 0, 8);
}

#[test]
fn a_shut_near_part(rt: HostRuntime) {
    let mut short = [load(0); 15];
    let mut hop = Hop::new(Packed::new(), Ring::new(&mut short));
    fill(&rt, &mut hop, 2, 0, 8);
    drain(&rt, &mut hop, 2, 0, 8);
}

#[test]
fn two_shut_parts(rt: HostRuntime) {
    let mut far = [load(0); 15];
    let mut near = [load(0); 15];
    let mut hop = Hop::new(Ring::new(&mut far), Ring::new(&mut near));
    fill(&rt, &mut hop, 2, 0, 0);
    drain(&rt, &mut hop, 2, 0, 0);
}

#[test]
fn hops_hop(rt: HostRuntime) {
    let mut row = [load(0); 16];
    let near = Hop::new(Ring::new(&mut row), Packed::new());
    let mut hop = Hop::new(Packed::new(), near);
    fill(&rt, &mut hop, 1, 0, 17);
    assert_eq!(rt; hop.take(1), Some(load(0)));
    fill(&rt, &mut hop, 1, 17, 18);
    drain(&rt, &mut hop, 1, 1, 18);
}

// Parts that were full before: 72 messages, and none is added before 63 are left.
#[test]
fn the_depth_of_a_hop_ends_at_64(rt: HostRuntime) {
    let mut a = [load(0); 512];
    let mut b = [load(0); 512];
    let mut far = Hop::new(Ring::new(&mut a), Ring::new(&mut b));
    fill(&rt, &mut far, 0, 0, 64);
    let mut near = Packed::new();
    fill(&rt, &mut near, 0, 64, 72);
    let mut hop = Hop::new(far, near);
    assert_eq!(rt; hop.count(0), 72);
    for address in 0..9u32 {
        fill(&rt, &mut hop, 0, 72, 72);
        assert_eq!(rt; hop.take(0), Some(load(address)));
    }
    fill(&rt, &mut hop, 0, 72, 73);
    drain(&rt, &mut hop, 0, 9, 73);
}
