//! What a caller holds of the rows that it lent, once what it made of them is gone.
ghost use Rattle.std.specs.Prelude.{◌≡◌, ℕ, ◌*◌, cond, length, min, nat_le, slice_set};
ghost use Rattle.sizes.specs.declared.TheConstants.{LANES, WORDS};
ghost use Rattle.lanes.specs.Rings.{row_depth};
ghost use Rattle.memories.specs.Cells.{write_cells};
ghost use Rattle.memories.specs.Splits.{split_cell, split_size};
ghost use Rattle.images.specs.Blocks.{BytesKept, cell_of, size_of};

use crate::scenes::zero_blocks;
use calls::call::Call;
use hops::hop::Hop;
use images::image::Image;
use lanes::net::{LaneError, LaneNet};
use lanes::ring::Ring;
use lifetimes::fixed::Fixed;
use lifetimes::policy::LifetimePolicy;
use machine::machine::{Machine, Parts};
use machine::tables::Tables;
use memories::memory::{Fault, Memory};
use memories::split::Split;
use memories::words::Words;
use messages::answer::Answer;
use messages::request::Request;
use packs::packed::Packed;
use std::test::Fail;

// Writes a word into a row.
fn write_row(row: &mut [u32], address: u32, value: u32) -> Result<(), Fault>
    ensures { row.new ≡ cond (nat_le (min (length row.old) WORDS) address) row.old (slice_set row.old address value) }
{
    let mut memory = Words::new(row);
    memory.write(address, value)
}

// Writes a word into an image.
fn write_image(bytes: &mut [u8], address: u32, value: u32) -> Result<(), Fault>
    ensures cells { (k : ℕ) → cell_of bytes.new k ≡ write_cells (size_of bytes.old) (cell_of bytes.old) address value k }
    ensures bytes { BytesKept address bytes.old bytes.new result }
    ensures length { length bytes.new ≡ length bytes.old }
{
    let mut image = Image::new(bytes);
    image.write(address, value)
}

// Puts a first message into a row.
fn put_row<M: Copy>(row: &mut [M], lane: u32, message: M) -> Result<(), LaneError>
    ensures { row.new ≡ cond (nat_le LANES lane) row.old (cond (nat_le (row_depth (length row.old)) 0) row.old (slice_set row.old (lane * row_depth (length row.old)) message)) }
{
    let mut ring = Ring::new(row);
    ring.put(lane, message)
}

// Writes a word through a split, and gives its parts back.
fn write_apart<A: Memory, B: Memory>(first: A, second: B, address: u32, value: u32) -> (A, B)
    ensures cells { (k : ℕ) → split_cell (A.Memory.cell result.0) (B.Memory.cell result.1) k ≡ write_cells (split_size (A.Memory.size first) (B.Memory.size second)) (split_cell (A.Memory.cell first) (B.Memory.cell second)) address value k }
    ensures first { A.Memory.loan result.0 ≡ A.Memory.loan first }
    ensures second { B.Memory.loan result.1 ≡ B.Memory.loan second }
{
    let mut split = Split::new(first, second);
    let _ = split.write(address, value);
    split.into_parts()
}

// Puts a message and takes one through a hop, and gives its parts back.
fn put_apart<M: Drop, F: LaneNet<M>, N: LaneNet<M>>(
    far: F,
    near: N,
    lane: u32,
    message: M,
) -> (F, N)
    ensures far { F.LaneNet.loan result.0 ≡ F.LaneNet.loan far }
    ensures near { N.LaneNet.loan result.1 ≡ N.LaneNet.loan near }
{
    let mut hop = Hop::new(far, near);
    let _ = hop.put(lane, message);
    let _ = hop.take(lane);
    hop.into_parts()
}

// Makes a call of a machine of these parts, and gives them back. No call but an eviction writes to memory.
fn tick_of<Q: LaneNet<Request>, R: LaneNet<Answer>, M: Memory, P: LifetimePolicy>(
    tables: Tables,
    parts: Parts<Q, R, M, P>,
) -> Parts<Q, R, M, P>
    ensures words { (k : ℕ) → M.Memory.cell result.memory k ≡ M.Memory.cell parts.memory k }
    ensures requests { Q.LaneNet.loan result.requests ≡ Q.LaneNet.loan parts.requests }
    ensures answers { R.LaneNet.loan result.answers ≡ R.LaneNet.loan parts.answers }
    ensures memory { M.Memory.loan result.memory ≡ M.Memory.loan parts.memory }
{
    let mut machine = Machine::new(parts, tables);
    let _ = machine.make(Call::Tick);
    machine.into_parts()
}

#[test]
fn rows_come_back(rt: HostRuntime) {
    let mut row = [5u32, 6, 7];
    assert_eq!(rt; write_row(&mut row, 1, 60), Ok(()));
    assert_eq!(rt; write_row(&mut row, 3, 60), Err(Fault::UnknownAddress));
    assert_eq!(rt; row, [5, 60, 7]);
}

#[test]
fn bytes_come_back(rt: HostRuntime) {
    let mut bytes = zero_blocks();
    assert_eq!(rt; write_image(&mut bytes, 127, 0x01020304), Ok(()));
    assert_eq!(rt; bytes[516], 4);
    assert_eq!(rt; bytes[1020], 250);
    assert_eq!(rt; Image::new(&mut bytes).read(127), Ok(0x01020304));
}

#[test]
fn messages_come_back(rt: HostRuntime) {
    let mut row = [0u8; 32];
    assert_eq!(rt; put_row(&mut row, 3, 9), Ok(()));
    assert_eq!(rt; put_row(&mut row, 16, 9), Err(LaneError::UnknownLane));
    assert_eq!(rt; row[6], 9);
    assert_eq!(rt; row[7], 0);
}

#[test]
fn parts_come_back(rt: HostRuntime) {
    let mut even = [10u32, 12];
    let mut odd = [11u32, 13];
    let (first, second) = write_apart(Words::new(&mut even), Words::new(&mut odd), 3, 7);
    assert_eq!(rt; first.read(1), Ok(12));
    assert_eq!(rt; second.read(1), Ok(7));
    let load = Request::FILLER;
    let mut row = [load; 16];
    let (far, near) = put_apart(Ring::new(&mut row), Packed::new(), 0, load);
    assert_eq!(rt; far.count(0), 0);
    assert_eq!(rt; near.count(0), 0);
}

#[test]
fn parts_come_back_from_a_machine(rt: HostRuntime) -> Result<(), Fail> {
    let mut requests = [Request::FILLER; 16];
    let mut answers = [Answer::FILLER; 16];
    let mut words = [7u32; 8];
    let tables = Tables::new(rt.alloc())?;
    let parts = Parts {
        requests: Ring::new(&mut requests),
        answers: Ring::new(&mut answers),
        memory: Words::new(&mut words),
        policy: Fixed::new(10),
    };
    let Parts { memory, .. } = tick_of(tables, parts);
    assert_eq!(rt; memory.read(7), Ok(7));
    Ok(())
}
