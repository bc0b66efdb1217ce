//! Rows of calls played on a machine, for measuring from outside.
#![tactic(auto)]

ghost use Rattle.std.specs.Prelude.{◌≡◌, ◌≤◌};
ghost use Rattle.calls.specs.declared.call.Call.TheVariants as call;

use calls::call::{Call, Protocol};
use calls::outcome::{Delivered, Outcome};
use lanes::net::LaneNet;
use lanes::ring::{RING_DEPTH, Ring};
use lifetimes::fixed::Fixed;
use machine::machine::{Machine, Parts};
use machine::tables::Tables;
use memories::memory::Memory;
use memories::words::Words;
use messages::answer::Answer;
use messages::request::Request;
use sizes::{LANES, WORDS};
use std::alloc::{AllocError, Global};

/// The call that four words name: kind, core, address and value. Waves are 0.
fn call_of(kind: u32, core: u32, address: u32, value: u32) -> Call
    ensures load { kind ≡ 0 → result ≡ call.Load core 0 address }
    ensures store { kind ≡ 1 → result ≡ call.Store core 0 address value }
    ensures serve { kind ≡ 2 → result ≡ call.Serve core }
    ensures deliver { kind ≡ 3 → result ≡ call.Deliver core }
    ensures tick { 4 ≤ kind → result ≡ call.Tick }
{
    match kind {
        0 => Call::Load {
            core,
            wave: 0,
            address,
        },
        1 => Call::Store {
            core,
            wave: 0,
            address,
            value,
        },
        2 => Call::Serve { core },
        3 => Call::Deliver { core },
        _ => Call::Tick,
    }
}

/// The calls of a row of words, four words to a call.
fn calls_of(heap: Global, words: &[u32]) -> Result<Vec<Call>, AllocError> {
    let (rows, _) = words.as_chunks::<4>();
    rows.iter()
        .map(|[kind, core, address, value]| call_of(*kind, *core, *address, *value))
        .collect(heap)
}

/// A number for what a call came to: a value, the clock or its cause's number, else 0.
fn worth(outcome: Outcome) -> u32 {
    match outcome {
        Outcome::Hit { value, .. } => value,
        Outcome::Delivered(Delivered::Load { value, .. }) => value,
        Outcome::Ticked(clock) => clock,
        _ => outcome.cause().map_or(0, u32::from),
    }
}

/// Makes each call in turn, and adds what it came to.
fn make_all<Q: LaneNet<Request>, R: LaneNet<Answer>, M: Memory>(
    machine: &mut Machine<Q, R, M, Fixed>,
    calls: &[Call],
    sum: u32,
) -> u32 {
    calls.iter().fold(sum, |sum, call| {
        sum.wrapping_mul(31)
            .wrapping_add(worth(machine.make(*call)))
    })
}

/// Starts a machine of 4,096 zero words and nets of depth 32, makes the calls of `before` once, and those
/// of `calls` `rounds` times.
fn run(
    heap: Global,
    start: Call,
    lifetime: u32,
    before: &[u32],
    calls: &[u32],
    rounds: u32,
) -> Result<u32, AllocError> {
    let mut requests = vec![in heap; Request::FILLER; LANES * RING_DEPTH]?;
    let mut answers = vec![in heap; Answer::FILLER; LANES * RING_DEPTH]?;
    let mut words = vec![in heap; 0u32; WORDS]?;
    let before = calls_of(heap, before)?;
    let calls = calls_of(heap, calls)?;
    let tables = Tables::new(heap)?;
    let mut machine = Machine::new(
        Parts {
            requests: Ring::new(requests.as_mut_slice()),
            answers: Ring::new(answers.as_mut_slice()),
            memory: Words::new(words.as_mut_slice()),
            policy: Fixed::new(lifetime),
        },
        tables,
    );
    let mut sum = worth(machine.make(start));
    sum = make_all(&mut machine, &before, sum);
    for _ in 0..rounds {
        sum = make_all(&mut machine, &calls, sum);
    }
    Ok(sum)
}

/// A number for all that the calls came to, under TC-Strong or else under TC-Weak; 0 for want of memory.
/// `before` and `calls` have four words for a call.
pub fn run_rows(
    heap: Global,
    cores: u32,
    strong: bool,
    lifetime: u32,
    before: &[u32],
    calls: &[u32],
    rounds: u32,
) -> u32 {
    let protocol = if strong {
        Protocol::Strong
    } else {
        Protocol::Weak
    };
    let start = Call::Start { cores, protocol };
    run(heap, start, lifetime, before, calls, rounds).unwrap_or(0)
}
