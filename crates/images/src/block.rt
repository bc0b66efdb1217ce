//! One block of 512 bytes.
ghost use Rattle.std.specs.Prelude.{◌≡◌, ℕ, ◌+◌, ◌*◌, ◌%◌, ◌^◌, ◌<◌, ◌≤◌, length, slice_index};
ghost use Rattle.images.specs.Blocks.{ElseKept, check_of, sound, total, word_at};

/// 126 words, lowest byte first, the block's number and a check.
pub(crate) type Block = [u8; 512];

/// Word i of a block, lowest byte first.
pub(crate) fn word_of(block: &Block, i: usize) -> u32
    requires { i < 128 }
    ensures { result ≡ word_at block.now i }
{
    let (words, _) = block.as_chunks();
    u32::from_le_bytes(words[i])
}

/// Sets word i of a block, and no other byte.
fn put_word(block: &mut [u8], i: usize, word: u32)
    requires { 4 * i + 4 ≤ length block.old }
    ensures sets { word_at block.new i ≡ word }
    ensures keeps { (p : ℕ) → (4 * i ≤ p → p < 4 * i + 4 → ⊥) → slice_index block.new p ≡ slice_index block.old p }
{
    block[4 * i..4 * i + 4].copy_from_slice(&word.to_le_bytes());
}

/// The sum of the first 127 words of a block, modulo 2^32.
fn sum_of(block: &Block) -> u32
    ensures { result ≡ total block.now 127 % 2 ^ 32 }
{
    (0..127).fold(0u32, |sum, i| sum.wrapping_add(word_of(block, i)))
}

/// The check that a block should have: the complement of that sum.
fn check_of(block: &Block) -> u32
    ensures { result ≡ check_of block.now }
{
    !sum_of(block)
}

/// Whether a block bears this number and the right check.
pub(crate) fn is_sound(block: &Block, number: u32) -> bool
    ensures { result ≡ sound number block.now }
{
    word_of(block, 126) == number && word_of(block, 127) == check_of(block)
}

/// Sets word i of a block and renews the block's check.
pub(crate) fn set_word(block: &mut [u8], i: usize, word: u32)
    requires { (length block.old ≡ 512) × (i < 126) }
    ensures sets { word_at block.new i ≡ word }
    ensures keeps { ElseKept (4 * i) (4 * i + 4) 508 512 block.old block.new }
    ensures checks { word_at block.new 127 ≡ check_of block.new }
{
    put_word(block, i, word);
    let (blocks, _) = block.as_chunks();
    let check = check_of(&blocks[0]);
    put_word(block, 127, check);
}
