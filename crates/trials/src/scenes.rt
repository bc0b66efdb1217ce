//! The machines, the calls and the outcomes that the trials share.
use calls::call::{Call, Protocol};
use calls::outcome::{Delivered, Outcome};
use calls::refusal::Refusal;
use lanes::net::LaneNet;
use lanes::ring::Ring;
use lifetimes::fixed::Fixed;
use lifetimes::policy::LifetimePolicy;
use machine::machine::{Machine, Parts};
use machine::tables::Tables;
use memories::memory::Memory;
use memories::words::Words;
use messages::answer::Answer;
use messages::request::Request;
use std::alloc::Global;
use std::process::Abort;
use std::test::Fail;

/// A machine over rings, a row of words and a fixed lifetime.
pub(crate) fn board<'a>(
    heap: Global,
    requests: &'a mut [Request],
    answers: &'a mut [Answer],
    words: &'a mut [u32],
    lifetime: u32,
) -> Result<Machine<Ring<'a, Request>, Ring<'a, Answer>, Words<'a>, Fixed>, Fail> {
    let tables = Tables::new(heap)?;
    let machine = Machine::new(
        Parts {
            requests: Ring::new(requests),
            answers: Ring::new(answers),
            memory: Words::new(words),
            policy: Fixed::new(lifetime),
        },
        tables,
    );
    Ok(machine)
}

/// Makes the calls in order; each comes to the outcome beside it.
pub(crate) fn play<Q: LaneNet<Request>, R: LaneNet<Answer>, M: Memory, P: LifetimePolicy>(
    rt: &impl Abort,
    machine: &mut Machine<Q, R, M, P>,
    entries: &[(Call, Outcome)],
) {
    for (call, outcome) in entries {
        assert_eq!(rt; machine.make(*call), *outcome);
    }
}

/// Ticks as often as told.
pub(crate) fn ticks<Q: LaneNet<Request>, R: LaneNet<Answer>, M: Memory, P: LifetimePolicy>(
    machine: &mut Machine<Q, R, M, P>,
    count: u32,
) {
    for _ in 0..count {
        let _ = machine.tick();
    }
}

pub(crate) const LOAD_5: Call = Call::Load {
    core: 0,
    wave: 0,
    address: 5,
};

pub(crate) const STORE_5: Call = Call::Store {
    core: 1,
    wave: 0,
    address: 5,
    value: 9,
};

pub(crate) const SERVE_0: Call = Call::Serve { core: 0 };

pub(crate) const SERVE_1: Call = Call::Serve { core: 1 };

pub(crate) const DELIVER_0: Call = Call::Deliver { core: 0 };

/// A start of a number of cores.
pub(crate) fn start(cores: u32) -> Call {
    Call::Start {
        cores,
        protocol: Protocol::Strong,
    }
}

/// Blocks 0 and 1 of an image, of zero words.
pub(crate) fn zero_blocks() -> [u8; 1024] {
    let mut bytes = [0; 1024];
    bytes[508..512].fill(255);
    bytes[1016] = 1;
    bytes[1020] = 254;
    bytes[1021..].fill(255);
    bytes
}

/// A load of core 0.
pub(crate) fn load(wave: u32, address: u32) -> Call {
    Call::Load {
        core: 0,
        wave,
        address,
    }
}

/// A load's value is delivered.
pub(crate) fn loaded(wave: u32, address: u32, value: u32) -> Outcome {
    Outcome::Delivered(Delivered::Load {
        wave,
        address,
        value,
    })
}

/// A fault is delivered.
pub(crate) fn faulted(wave: u32, address: u32, block: u32) -> Outcome {
    Outcome::Delivered(Delivered::Fault {
        wave,
        address,
        block,
    })
}

pub(crate) const NOWHERE: Outcome = Outcome::Refused(Refusal::UnknownAddress);
