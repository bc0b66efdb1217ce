//! Machines over memories of every size: none, one word, one block with a rest, and past 4,096.
use crate::scenes::{DELIVER_0, NOWHERE, SERVE_0, faulted, load, loaded, play};
use calls::call::{Call, Protocol};
use calls::outcome::Outcome;
use images::image::Image;
use lanes::ring::Ring;
use lifetimes::fixed::Fixed;
use machine::machine::{Machine, Parts};
use machine::tables::Tables;
use memories::memory::Memory;
use memories::words::Words;
use messages::answer::Answer;
use messages::request::Request;
use std::alloc::Global;
use std::process::Abort;
use std::test::Fail;

/// Plays the entries on a machine over the memory.
fn play_over<M: Memory + Drop>(
    rt: &impl Abort,
    heap: Global,
    memory: M,
    entries: &[(Call, Outcome)],
) -> Result<(), Fail> {
    let mut requests = [Request::FILLER; 16];
    let mut answers = [Answer::FILLER; 16];
    let tables = Tables::new(heap)?;
    let mut m = Machine::new(
        Parts {
            requests: Ring::new(&mut requests),
            answers: Ring::new(&mut answers),
            memory,
            policy: Fixed::new(10),
        },
        tables,
    );
    play(rt, &mut m, entries);
    Ok(())
}

const START: Call = Call::Start {
    cores: 1,
    protocol: Protocol::Weak,
};

/// Of a machine whose last address is told, and of its load.
fn ends_after(address: u32, outcome: Outcome) -> [(Call, Outcome); 5] {
    [
        (START, Outcome::Started),
        (load(0, address.saturating_add(1)), NOWHERE),
        (load(0, address), Outcome::Sent),
        (SERVE_0, Outcome::Served),
        (DELIVER_0, outcome),
    ]
}

/// No word, and one word.
#[test]
fn few_words(rt: HostRuntime) -> Result<(), Fail> {
    let mut none = [0u32; 0];
    let empty = [(START, Outcome::Started), (load(0, 0), NOWHERE)];
    play_over(&rt, rt.alloc(), Words::new(&mut none), &empty)?;
    let mut one = [9u32; 1];
    let entries = ends_after(0, loaded(0, 0, 9));
    play_over(&rt, rt.alloc(), Words::new(&mut one), &entries)
}

/// One unsound block with a rest has 126 words; 33 blocks have 4,096.
#[test]
fn blocks(rt: HostRuntime) -> Result<(), Fail> {
    let mut bytes = [0u8; 600];
    let entries = ends_after(125, faulted(0, 125, 0));
    play_over(&rt, rt.alloc(), Image::new(&mut bytes), &entries)?;
    let mut long = [0u8; 16896];
    let entries = ends_after(4095, faulted(0, 4095, 32));
    play_over(&rt, rt.alloc(), Image::new(&mut long), &entries)
}
