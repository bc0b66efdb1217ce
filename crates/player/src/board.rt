//! The machine of tcrun: zero words, rings of depth 32, and lifetime 10.
ghost use Rattle.std.specs.Prelude.{◌≡◌, take, replicate, string_bytes, IfOk};
ghost use Rattle.sizes.specs.declared.TheConstants.{WORDS};
ghost use Rattle.script.specs.Lines.{input_bytes, script};
ghost use Rattle.player.specs.Played.{played};
ghost use Rattle.player.specs.Board.{board};

use crate::play::play;
use lanes::ring::{RING_DEPTH, Ring};
use lifetimes::fixed::Fixed;
use machine::machine::{Machine, Parts};
use machine::tables::Tables;
use memories::words::Words;
use messages::answer::Answer;
use messages::request::Request;
use sizes::{LANES, WORDS};
use std::alloc::{AllocError, Global};

/// The memory: zero words.
fn zero_words(heap: Global) -> Result<Vec<u32>, AllocError>
    ensures { IfOk result (λ words. words.items ≡ replicate WORDS 0) }
{
    vec![in heap; 0u32; WORDS]
}

/// What tcrun writes for an input: a line for each of its lines. An error where memory is short.
pub fn run(heap: Global, input: &[u8]) -> Result<String, AllocError>
    ensures { IfOk result (λ out. string_bytes out ≡ played board 10 0 (script (take input_bytes input.now))) }
{
    let mut requests = vec![in heap; Request::FILLER; LANES * RING_DEPTH]?;
    let mut answers = vec![in heap; Answer::FILLER; LANES * RING_DEPTH]?;
    let mut words = zero_words(heap)?;
    let tables = Tables::new(heap)?;
    let mut machine = Machine::new(
        Parts {
            requests: Ring::new(requests.as_mut_slice()),
            answers: Ring::new(answers.as_mut_slice()),
            memory: Words::new(words.as_mut_slice()),
            policy: Fixed::new(10),
        },
        tables,
    );
    let mut out = String::new(heap);
    play(&mut machine, input, &mut out)?;
    Ok(out)
}
