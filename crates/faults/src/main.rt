//! Plays a script on a machine over a damaged image, and prints what it comes to: the fault is seen
//! at the core, with the damaged block and the address that the core named.
#![tactic(auto)]

use hops::hop::Hop;
use images::image::Image;
use lanes::ring::Ring;
use lifetimes::fixed::Fixed;
use machine::machine::{Machine, Parts};
use machine::tables::Tables;
use memories::split::Split;
use memories::words::Words;
use messages::request::Request;
use packs::packed::Packed;
use player::play::play;
use std::io;
use std::io::Write;

/// Address 250 is a word of block 0, 252 one of block 1, and 253 one of the row of words.
const SCRIPT: &[u8; 80] =
    b"N 1 S\nL 0 3 250\nV 0\nD 0\nL 0 3 252\nV 0\nD 0\nL 0 3 253\nV 0\nD 0\nL 0 3 503\nL 0 3 504\n";

/// Two blocks of zero words; a word of block 1 was damaged. (The trials have the same: a program and
/// tests share no code.)
fn damaged() -> [u8; 1024] {
    let mut bytes = [0u8; 1024];
    bytes[508..512].fill(255);
    bytes[1016] = 1;
    bytes[1020] = 254;
    bytes[1021..].fill(255);
    bytes[600] = 1;
    bytes
}

fn main(rt: HostRuntime) -> io::Result<()> {
    let mut row = [Request::FILLER; 16];
    let mut bytes = damaged();
    let mut words = [7u32; 300];
    let tables = Tables::new(rt.alloc())?;
    let mut machine = Machine::new(
        Parts {
            requests: Hop::new(Ring::new(&mut row), Packed::new()),
            answers: Packed::new(),
            memory: Split::new(Image::new(&mut bytes), Words::new(&mut words)),
            policy: Fixed::new(10),
        },
        tables,
    );
    let mut out = String::new(rt.alloc());
    play(&mut machine, SCRIPT, &mut out)?;
    rt.stdout().write_all(out.as_bytes())
}
