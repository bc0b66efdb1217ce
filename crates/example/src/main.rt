//! How a program uses the library: a machine over rings, a row of words and a policy that learns.
#![tactic(auto)]

use calls::call::{Call, Protocol};
use lanes::ring::Ring;
use lifetimes::learner::Learner;
use machine::machine::{Machine, Parts};
use machine::tables::Tables;
use memories::memory::Memory;
use memories::words::Words;
use messages::answer::Answer;
use messages::request::Request;
use std::io;

fn main(rt: HostRuntime) -> io::Result<()> {
    let (mut requests, mut answers) = ([Request::FILLER; 64], [Answer::FILLER; 64]);
    let mut words = [7u32; 100];
    let tables = Tables::new(rt.alloc())?;
    let parts = Parts {
        requests: Ring::new(&mut requests),
        answers: Ring::new(&mut answers),
        memory: Words::new(&mut words),
        policy: Learner::new(10, 100),
    };
    let mut machine = Machine::new(parts, tables);
    let (core, wave, address, protocol) = (1, 0, 5, Protocol::Strong);
    let load = Call::Load {
        core,
        wave,
        address,
    };
    let serve = Call::Serve { core };
    let deliver = Call::Deliver { core };
    for call in [
        Call::Start { cores: 2, protocol },
        load,
        serve,
        deliver,
        load,
        Call::Tick,
    ] {
        println!(rt; "{}", machine.make(call))?;
    }
    let Parts { memory, .. } = machine.into_parts();
    if let Ok(word) = memory.read(address) {
        println!(rt; "word {address} is {word}")?;
    }
    Ok(())
}
