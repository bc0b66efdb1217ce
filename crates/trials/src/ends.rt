//! A machine over ends that differ: a hop, packed lanes, a split over an image, and the learner.
use crate::scenes::{DELIVER_0, NOWHERE, SERVE_0, faulted, load, loaded, play, start, zero_blocks};
use calls::outcome::Outcome;
use hops::hop::Hop;
use images::image::Image;
use lanes::ring::Ring;
use lifetimes::learner::Learner;
use machine::machine::{Machine, Parts};
use machine::tables::Tables;
use memories::split::Split;
use memories::words::Words;
use messages::request::Request;
use packs::packed::Packed;
use std::test::Fail;

/// A fault is seen at the core, with its block and the address that the core named: word 0 of
/// block 1 is address 126 of the image, and address 252 of the split.
#[test]
fn fault_at_core(rt: HostRuntime) -> Result<(), Fail> {
    let mut near = [Request::FILLER; 16];
    let mut far = [Request::FILLER; 16];
    let mut bytes = zero_blocks();
    bytes[600] = 1;
    let mut words = [7u32; 300];
    let tables = Tables::new(rt.alloc())?;
    let mut m = Machine::new(
        Parts {
            requests: Hop::new(Ring::new(&mut far), Ring::new(&mut near)),
            answers: Packed::new(),
            memory: Split::new(Image::new(&mut bytes), Words::new(&mut words)),
            policy: Learner::new(10, 100),
        },
        tables,
    );
    let entries = [
        (start(2), Outcome::Started),
        (load(3, 252), Outcome::Sent),
        (SERVE_0, Outcome::Served),
        (DELIVER_0, faulted(3, 252, 1)),
        (load(3, 250), Outcome::Sent),
        (SERVE_0, Outcome::Served),
        (DELIVER_0, loaded(3, 250, 0)),
        (load(3, 253), Outcome::Sent),
        (SERVE_0, Outcome::Served),
        (DELIVER_0, loaded(3, 253, 7)),
        (load(3, 504), NOWHERE),
        (load(3, 503), Outcome::Sent),
    ];
    play(&rt, &mut m, &entries);
    Ok(())
}
