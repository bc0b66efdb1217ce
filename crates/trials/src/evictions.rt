//! Evicting, forgetting, and atomics on a machine.
use crate::scenes::{
    DELIVER_0, LOAD_5, SERVE_0, SERVE_1, STORE_5, board, load, loaded, play, start, ticks,
    zero_blocks,
};
use calls::call::Call;
use calls::outcome::{Delivered, Outcome};
use calls::refusal::Refusal;
use images::image::Image;
use lanes::net::LaneNet;
use lanes::ring::Ring;
use lifetimes::learner::Learner;
use lifetimes::policy::LifetimePolicy;
use machine::machine::{Machine, Parts};
use machine::tables::Tables;
use memories::memory::Memory;
use messages::answer::Answer;
use messages::request::Request;
use packs::packed::Packed;
use std::process::Abort;
use std::test::Fail;

const NO_LINE: Outcome = Outcome::Refused(Refusal::NoLine);

const KEPT_FULL: Outcome = Outcome::Refused(Refusal::KeptFull);

const BANK_FULL: Outcome = Outcome::Refused(Refusal::BankFull);

fn evict(address: u32) -> Call {
    Call::Evict { address }
}

// Loads the words at the addresses from `first` on, each served and delivered.
fn lease<Q: LaneNet<Request>, R: LaneNet<Answer>, M: Memory, P: LifetimePolicy>(
    rt: &impl Abort,
    machine: &mut Machine<Q, R, M, P>,
    first: u32,
    end: u32,
) {
    for address in first..end {
        let entries = [
            (load(0, address), Outcome::Sent),
            (SERVE_0, Outcome::Served),
            (DELIVER_0, loaded(0, address, 7)),
        ];
        play(rt, machine, &entries);
    }
}

/// A changed line is written to memory; an unchanged one leaves its running stamp, on which a store waits.
#[test]
fn lines_leave(rt: HostRuntime) -> Result<(), Fail> {
    let mut requests = [Request::FILLER; 32];
    let mut answers = [Answer::FILLER; 32];
    let mut words = [7u32; 8];
    let mut m = board(rt.alloc(), &mut requests, &mut answers, &mut words, 10)?;
    let waits = Outcome::Refused(Refusal::LeaseRuns);
    let entries = [
        (start(2), Outcome::Started),
        (evict(8), Outcome::Refused(Refusal::UnknownAddress)),
        (evict(5), NO_LINE),
        (LOAD_5, Outcome::Sent),
        (SERVE_0, Outcome::Served),
        (DELIVER_0, loaded(0, 5, 7)),
        (evict(5), Outcome::Evicted),
        (evict(5), NO_LINE),
        (STORE_5, Outcome::Sent),
        (SERVE_1, waits),
    ];
    play(&rt, &mut m, &entries);
    ticks(&mut m, 10);
    play(
        &rt,
        &mut m,
        &[(SERVE_1, waits), (Call::Tick, Outcome::Ticked(12))],
    );
    let entries = [
        (SERVE_1, Outcome::Served),
        (evict(5), Outcome::Evicted),
        (LOAD_5, Outcome::Sent),
        (SERVE_0, Outcome::Served),
        (DELIVER_0, loaded(0, 5, 9)),
    ];
    play(&rt, &mut m, &entries);
    Ok(())
}

/// 128 stamps are kept, and not 129; one that is over gives its place.
#[test]
fn kept_stamps(rt: HostRuntime) -> Result<(), Fail> {
    let mut requests = [Request::FILLER; 32];
    let mut answers = [Answer::FILLER; 32];
    let mut words = [7u32; 200];
    let mut m = board(rt.alloc(), &mut requests, &mut answers, &mut words, 10)?;
    play(&rt, &mut m, &[(start(1), Outcome::Started)]);
    lease(&rt, &mut m, 0, 129);
    for address in 0..128u32 {
        play(&rt, &mut m, &[(evict(address), Outcome::Evicted)]);
    }
    play(&rt, &mut m, &[(evict(128), KEPT_FULL)]);
    ticks(&mut m, 11);
    lease(&rt, &mut m, 129, 131);
    let entries = [
        (evict(129), Outcome::Evicted),
        (evict(130), Outcome::Evicted),
        (evict(128), Outcome::Evicted),
    ];
    play(&rt, &mut m, &entries);
    Ok(())
}

/// An eviction makes room in a full bank.
#[test]
fn room_for_a_line(rt: HostRuntime) -> Result<(), Fail> {
    let mut requests = [Request::FILLER; 32];
    let mut answers = [Answer::FILLER; 32];
    let mut words = [7u32; 300];
    let mut m = board(rt.alloc(), &mut requests, &mut answers, &mut words, 10)?;
    play(&rt, &mut m, &[(start(1), Outcome::Started)]);
    lease(&rt, &mut m, 0, 256);
    let entries = [
        (load(0, 256), Outcome::Sent),
        (SERVE_0, BANK_FULL),
        (evict(3), Outcome::Evicted),
        (SERVE_0, Outcome::Served),
    ];
    play(&rt, &mut m, &entries);
    Ok(())
}

/// A line whose word cannot be written stays: the store was served without a look at memory.
#[test]
fn an_unreadable_word_stays(rt: HostRuntime) -> Result<(), Fail> {
    let mut row = [Request::FILLER; 16];
    let mut bytes = zero_blocks();
    bytes[600] = 1;
    let tables = Tables::new(rt.alloc())?;
    let parts = Parts {
        requests: Ring::new(&mut row),
        answers: Packed::new(),
        memory: Image::new(&mut bytes),
        policy: Learner::new(10, 100),
    };
    let mut m = Machine::new(parts, tables);
    let (core, wave, address) = (0, 0, 126);
    let store = Call::Store {
        core,
        wave,
        address,
        value: 9,
    };
    let stored = Delivered::Store { wave, address };
    let kept = Outcome::Refused(Refusal::Unreadable { block: 1, address });
    let entries = [
        (start(1), Outcome::Started),
        (store, Outcome::Sent),
        (SERVE_0, Outcome::Served),
        (DELIVER_0, Outcome::Delivered(stored)),
        (evict(address), kept),
        (load(0, address), Outcome::Sent),
        (SERVE_0, Outcome::Served),
        (DELIVER_0, loaded(0, address, 9)),
    ];
    play(&rt, &mut m, &entries);
    Ok(())
}

/// An add goes round at 2^32, an exchange sets its word, and both answer the word before. A copy is forgotten
/// once, and another address's copy at its place stays.
#[test]
fn atomics_and_copies(rt: HostRuntime) -> Result<(), Fail> {
    let mut requests = [Request::FILLER; 32];
    let mut answers = [Answer::FILLER; 32];
    let mut words = [7u32; 128];
    let mut m = board(rt.alloc(), &mut requests, &mut answers, &mut words, 10)?;
    let (core, wave, address) = (0, 3, 5);
    let add = Call::Add {
        core,
        wave,
        address,
        value: 4294967295,
    };
    let exchange = Call::Exchange {
        core,
        wave,
        address,
        value: 1,
    };
    let before = |value| {
        Outcome::Delivered(Delivered::Atomic {
            wave,
            address,
            value,
        })
    };
    let forget = Call::Forget { core, address };
    let entries = [
        (start(1), Outcome::Started),
        (add, Outcome::Sent),
        (exchange, Outcome::Sent),
        (SERVE_0, Outcome::Served),
        (SERVE_0, Outcome::Served),
        (DELIVER_0, before(7)),
        (DELIVER_0, before(6)),
        (LOAD_5, Outcome::Sent),
        (SERVE_0, Outcome::Served),
        (DELIVER_0, loaded(0, 5, 1)),
        (Call::Forget { core, address: 69 }, Outcome::NoCopy),
        (forget, Outcome::Forgotten),
        (forget, Outcome::NoCopy),
        (
            Call::Forget { core: 1, address },
            Outcome::Refused(Refusal::UnknownCore),
        ),
    ];
    play(&rt, &mut m, &entries);
    Ok(())
}
