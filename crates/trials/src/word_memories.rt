//! Memories: rows of words, block images, and splits over both.
use crate::scenes::zero_blocks;
use images::image::Image;
use memories::memory::{Fault, Memory};
use memories::split::Split;
use memories::words::Words;
use std::process::Abort;

const NOWHERE: Result<u32, Fault> = Err(Fault::UnknownAddress);

const DAMAGED_0: Result<u32, Fault> = Err(Fault::Unreadable { block: 0 });

const DAMAGED_1: Result<u32, Fault> = Err(Fault::Unreadable { block: 1 });

// The memory has the size, and each address reads as told.
fn reads<M: Memory>(rt: &impl Abort, memory: &M, size: u32, wanted: &[(u32, Result<u32, Fault>)]) {
    assert_eq!(rt; memory.size(), size);
    for (address, word) in wanted {
        assert_eq!(rt; memory.read(*address), *word);
    }
}

// Zero blocks with 0x01020304 at address 127.
fn written() -> [u8; 1024] {
    let mut bytes = zero_blocks();
    bytes[1020] = 250;
    bytes[1021] = 252;
    bytes[1022] = 253;
    bytes[1023] = 254;
    bytes[516..520].copy_from_slice(&[4, 3, 2, 1]);
    bytes
}

#[test]
fn a_write_to_a_row_changes_its_word_alone(rt: HostRuntime) {
    let mut row = [5u32, 6, 7];
    let mut memory = Words::new(&mut row);
    assert_eq!(rt; memory.write(1, 60), Ok(()));
    assert_eq!(rt; memory.write(3, 1), Err(Fault::UnknownAddress));
    reads(
        &rt,
        &memory,
        3,
        &[(0, Ok(5)), (1, Ok(60)), (2, Ok(7)), (3, NOWHERE)],
    );
}

#[test]
fn a_long_row_gives_4096_words(rt: HostRuntime) {
    let mut row = [5u32; 4097];
    let mut memory = Words::new(&mut row);
    assert_eq!(rt; memory.write(4096, 1), Err(Fault::UnknownAddress));
    reads(&rt, &memory, 4096, &[(4095, Ok(5)), (4096, NOWHERE)]);
}

#[test]
fn a_split_takes_its_parts_in_turn(rt: HostRuntime) {
    let mut even = [10u32, 12];
    let mut odd = [11u32, 13, 15];
    let mut memory = Split::new(Words::new(&mut even), Words::new(&mut odd));
    reads(&rt, &memory, 4, &[(2, Ok(12)), (3, Ok(13)), (4, NOWHERE)]);
    assert_eq!(rt; memory.write(3, 7), Ok(()));
    reads(&rt, &memory, 4, &[(2, Ok(12)), (3, Ok(7))]);
}

#[test]
fn a_split_is_twice_its_smaller_part(rt: HostRuntime) {
    let mut one = [5u32];
    let mut other = [6u32; 2050];
    let mut long = [7u32; 2049];
    let mut none = [0u32; 0];
    let empty = Split::new(Words::new(&mut none), Words::new(&mut one));
    assert_eq!(rt; empty.size(), 0);
    let short = Split::new(Words::new(&mut one), Words::new(&mut other));
    assert_eq!(rt; short.size(), 2);
    let longest = Split::new(Words::new(&mut other), Words::new(&mut long));
    assert_eq!(rt; longest.size(), 4096);
}

#[test]
fn splits_nest(rt: HostRuntime) {
    let mut a = [0u32, 4];
    let mut b = [2u32, 6];
    let mut c = [1u32, 3, 5, 7];
    let even = Split::new(Words::new(&mut a), Words::new(&mut b));
    let mut memory = Split::new(even, Words::new(&mut c));
    reads(&rt, &memory, 8, &[(6, Ok(6))]);
    assert_eq!(rt; memory.write(4, 40), Ok(()));
    reads(&rt, &memory, 8, &[(0, Ok(0)), (4, Ok(40))]);
}

#[test]
fn an_image_has_126_words_a_block(rt: HostRuntime) {
    let mut none = [0; 0];
    let mut short = [0; 511];
    let mut one = [0; 512];
    let mut rest = [0; 513];
    let mut long = [0; 16896];
    assert_eq!(rt; Image::new(&mut none).size(), 0);
    assert_eq!(rt; Image::new(&mut short).size(), 0);
    assert_eq!(rt; Image::new(&mut one).size(), 126);
    assert_eq!(rt; Image::new(&mut rest).size(), 126);
    assert_eq!(rt; Image::new(&mut long).size(), 4096);
}

#[test]
fn a_write_to_an_image_changes_its_word_and_check(rt: HostRuntime) {
    let mut bytes = zero_blocks();
    let mut image = Image::new(&mut bytes);
    assert_eq!(rt; image.write(127, 0x01020304), Ok(()));
    reads(
        &rt,
        &image,
        252,
        &[(1, Ok(0)), (126, Ok(0)), (127, Ok(0x01020304))],
    );
    assert_eq!(rt; bytes, written());
}

#[test]
fn a_damaged_block_is_neither_read_nor_written(rt: HostRuntime) {
    let mut bytes = zero_blocks();
    bytes[1016] = 2;
    let mut image = Image::new(&mut bytes);
    reads(
        &rt,
        &image,
        252,
        &[(125, Ok(0)), (126, DAMAGED_1), (252, NOWHERE)],
    );
    assert_eq!(rt; image.write(251, 0), Err(Fault::Unreadable { block: 1 }));
    assert_eq!(rt; image.write(252, 0), Err(Fault::UnknownAddress));
    assert_eq!(rt; bytes[1020], 254);
}

#[test]
fn a_damaged_word_or_check_is_told(rt: HostRuntime) {
    let mut bytes = zero_blocks();
    bytes[0] = 1;
    bytes[1023] = 254;
    let image = Image::new(&mut bytes);
    reads(&rt, &image, 252, &[(5, DAMAGED_0), (130, DAMAGED_1)]);
}

#[test]
fn a_fault_passes_a_split_with_the_block_below(rt: HostRuntime) {
    let mut bytes = zero_blocks();
    bytes[1016] = 2;
    let mut row = [7u32; 252];
    let mut memory = Split::new(Words::new(&mut row), Image::new(&mut bytes));
    assert_eq!(rt; memory.write(253, 9), Err(Fault::Unreadable { block: 1 }));
    reads(
        &rt,
        &memory,
        504,
        &[(251, Ok(0)), (252, Ok(7)), (253, DAMAGED_1)],
    );
}
