//! Edges of the machine: of stamps, bounds and tables.
use crate::scenes::{
    DELIVER_0, LOAD_5, NOWHERE, SERVE_0, SERVE_1, STORE_5, board, load, loaded, play, start, ticks,
};
use calls::call::{Call, Protocol};
use calls::outcome::{Delivered, Outcome};
use calls::refusal::Refusal;
use messages::answer::Answer;
use messages::request::Request;
use std::test::Fail;

const UNKNOWN: Outcome = Outcome::Refused(Refusal::UnknownCore);

const PENDING_FULL: Outcome = Outcome::Refused(Refusal::PendingFull);

const LANE_FULL: Outcome = Outcome::Refused(Refusal::LaneFull);

const NOTHING_WAITS: Outcome = Outcome::Refused(Refusal::NothingWaits);

const LEASE_RUNS: Outcome = Outcome::Refused(Refusal::LeaseRuns);

const BANK_FULL: Outcome = Outcome::Refused(Refusal::BankFull);

const CANNOT_START: Outcome = Outcome::Refused(Refusal::CannotStart);

/// The tick on the stamp, and the tick after it.
#[test]
fn stamp_edges(rt: HostRuntime) -> Result<(), Fail> {
    let mut requests = [Request::FILLER; 32];
    let mut answers = [Answer::FILLER; 32];
    let mut words = [7u32; 8];
    let mut m = board(rt.alloc(), &mut requests, &mut answers, &mut words, 10)?;
    let leased = [
        (start(2), Outcome::Started),
        (LOAD_5, Outcome::Sent),
        (SERVE_0, Outcome::Served),
        (DELIVER_0, loaded(0, 5, 7)),
        (STORE_5, Outcome::Sent),
        (SERVE_1, LEASE_RUNS),
    ];
    play(&rt, &mut m, &leased);
    ticks(&mut m, 9);
    let hit = Outcome::Hit {
        address: 5,
        value: 7,
    };
    let over = [
        (Call::Tick, Outcome::Ticked(11)),
        (SERVE_1, LEASE_RUNS),
        (LOAD_5, hit),
        (Call::Tick, Outcome::Ticked(12)),
        (SERVE_1, Outcome::Served),
        (LOAD_5, Outcome::Sent),
    ];
    play(&rt, &mut m, &over);
    Ok(())
}

/// Under TC-Weak a store is served while the lease runs, whose copy is good until then.
#[test]
fn weak_stores(rt: HostRuntime) -> Result<(), Fail> {
    let mut requests = [Request::FILLER; 32];
    let mut answers = [Answer::FILLER; 32];
    let mut words = [7u32; 8];
    let mut m = board(rt.alloc(), &mut requests, &mut answers, &mut words, 10)?;
    let start = Call::Start {
        cores: 2,
        protocol: Protocol::Weak,
    };
    let stored = Delivered::Store {
        wave: 0,
        address: 5,
    };
    let entries = [
        (start, Outcome::Started),
        (LOAD_5, Outcome::Sent),
        (SERVE_0, Outcome::Served),
        (DELIVER_0, loaded(0, 5, 7)),
        (STORE_5, Outcome::Sent),
        (SERVE_1, Outcome::Served),
        (Call::Deliver { core: 1 }, Outcome::Delivered(stored)),
    ];
    play(&rt, &mut m, &entries);
    ticks(&mut m, 9);
    let hit = Outcome::Hit {
        address: 5,
        value: 7,
    };
    let over = [
        (Call::Tick, Outcome::Ticked(11)),
        (LOAD_5, hit),
        (Call::Tick, Outcome::Ticked(12)),
        (LOAD_5, Outcome::Sent),
        (SERVE_0, Outcome::Served),
        (DELIVER_0, loaded(0, 5, 9)),
    ];
    play(&rt, &mut m, &over);
    Ok(())
}

/// Before the start; 0, 17 and 16 cores; a second start.
#[test]
fn starts(rt: HostRuntime) -> Result<(), Fail> {
    let mut requests = [Request::FILLER; 16];
    let mut answers = [Answer::FILLER; 16];
    let mut words = [0u32; 8];
    let mut m = board(rt.alloc(), &mut requests, &mut answers, &mut words, 10)?;
    let entries = [
        (SERVE_0, UNKNOWN),
        (Call::Tick, Outcome::Ticked(2)),
        (start(0), CANNOT_START),
        (start(17), CANNOT_START),
        (start(16), Outcome::Started),
        (start(1), CANNOT_START),
        (Call::Tick, Outcome::Ticked(2)),
        (Call::Serve { core: 16 }, UNKNOWN),
        (Call::Serve { core: 15 }, NOTHING_WAITS),
    ];
    play(&rt, &mut m, &entries);
    Ok(())
}

/// A net of depth 0 cannot start.
#[test]
fn shallow(rt: HostRuntime) -> Result<(), Fail> {
    let mut requests = [Request::FILLER; 15];
    let mut answers = [Answer::FILLER; 16];
    let mut words = [0u32; 8];
    let mut m = board(rt.alloc(), &mut requests, &mut answers, &mut words, 10)?;
    play(&rt, &mut m, &[(start(1), CANNOT_START)]);
    Ok(())
}

/// The last wave, the last address, and lanes that are full.
#[test]
fn bounds(rt: HostRuntime) -> Result<(), Fail> {
    let mut requests = [Request::FILLER; 32];
    let mut answers = [Answer::FILLER; 16];
    let mut words = [0u32; 8];
    let mut m = board(rt.alloc(), &mut requests, &mut answers, &mut words, 10)?;
    let entries = [
        (start(1), Outcome::Started),
        (load(48, 0), UNKNOWN),
        (load(47, 8), NOWHERE),
        (load(47, 7), Outcome::Sent),
        (load(0, 6), Outcome::Sent),
        (load(0, 5), LANE_FULL),
        (SERVE_0, Outcome::Served),
        (SERVE_0, LANE_FULL),
        (DELIVER_0, loaded(47, 7, 0)),
        (SERVE_0, Outcome::Served),
    ];
    play(&rt, &mut m, &entries);
    Ok(())
}

/// Addresses 5 and 69 have one place; 32 requests are pending, and not 33.
#[test]
fn places(rt: HostRuntime) -> Result<(), Fail> {
    let mut requests = [Request::FILLER; 512];
    let mut answers = [Answer::FILLER; 512];
    let mut words = [0u32; 128];
    let mut m = board(rt.alloc(), &mut requests, &mut answers, &mut words, 10)?;
    let hit = Outcome::Hit {
        address: 5,
        value: 0,
    };
    let entries = [
        (start(1), Outcome::Started),
        (LOAD_5, Outcome::Sent),
        (SERVE_0, Outcome::Served),
        (DELIVER_0, loaded(0, 5, 0)),
        (LOAD_5, hit),
        (load(0, 69), Outcome::Sent),
        (SERVE_0, Outcome::Served),
        (DELIVER_0, loaded(0, 69, 0)),
    ];
    play(&rt, &mut m, &entries);
    for _ in 0..32u32 {
        play(&rt, &mut m, &[(LOAD_5, Outcome::Sent)]);
    }
    play(&rt, &mut m, &[(LOAD_5, PENDING_FULL)]);
    Ok(())
}

/// 256 lines, and not 257; an existing line is served still.
#[test]
fn lines(rt: HostRuntime) -> Result<(), Fail> {
    let mut requests = [Request::FILLER; 32];
    let mut answers = [Answer::FILLER; 32];
    let mut words = [0u32; 300];
    let mut m = board(rt.alloc(), &mut requests, &mut answers, &mut words, 10)?;
    play(&rt, &mut m, &[(start(2), Outcome::Started)]);
    for address in 0..256u32 {
        let entries = [
            (load(0, address), Outcome::Sent),
            (SERVE_0, Outcome::Served),
            (DELIVER_0, loaded(0, address, 0)),
        ];
        play(&rt, &mut m, &entries);
    }
    let full = [(load(0, 256), Outcome::Sent), (SERVE_0, BANK_FULL)];
    play(&rt, &mut m, &full);
    ticks(&mut m, 20);
    let stored = [(STORE_5, Outcome::Sent), (SERVE_1, Outcome::Served)];
    play(&rt, &mut m, &stored);
    Ok(())
}
