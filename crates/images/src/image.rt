//! The caller's bytes as a memory.
ghost use Rattle.std.specs.Prelude.{◌≡◌, ℕ, ◌/◌, ◌<◌, true, IfOk, IfErr};
ghost use Rattle.std.proofs.Common.{rules};
ghost use Rattle.memories.specs.Cells.{write_answer, write_cells};
ghost use Rattle.images.specs.Blocks.{BytesKept, WordAlone, put_cells};
ghost use Rattle.images.specs.Images.{image_cell, image_loan, image_size, readable_block, IsBlockOf};

use crate::block::{Block, is_sound, set_word, word_of};
use memories::memory::{Fault, Memory};
use sizes::WORDS;

/// Blocks of 512 bytes: 126 words, lowest byte first, the block's number and a check. A rest of
/// bytes is ignored. A block with another number or check is unreadable.
#[derive(Drop)]
pub struct Image<'a> {
    bytes: &'a mut [u8],
}

impl<'a> Image<'a> {
    /// A memory that holds what the caller's bytes hold.
    pub fn new(image: &'a mut [u8]) -> Image<'a>
        ensures bytes { result.bytes.now ≡ image.old }
        ensures lent { result.bytes.ghost_name ≡ image.entry.ghost_name }
    {
        Image { bytes: image }
    }

    /// The block in which an address lies, if it can be read.
    fn block(&self, address: u32) -> Result<&Block, Fault>
        ensures found { IfOk result (λ block. IsBlockOf self.now address block.now) }
        ensures answer { IfErr result (λ fault. write_answer (image_size self.now) (image_cell self.now) address ≡ Err fault) }
    {
        self.check(address)?;
        let number = address / 126;
        let (blocks, _) = self.bytes.as_chunks();
        let block = &blocks[number as usize];
        if is_sound(block, number) {
            Ok(block)
        } else {
            Err(Fault::Unreadable { block: number })
        }
    }

    /// Sets the word at an address and renews its block's check.
    fn set(&mut self, address: u32, word: u32)
        requires { (address < image_size self.old) × (readable_block self.old (address / 126) ≡ true) }
        ensures cells { (k : ℕ) → image_cell self.new k ≡ put_cells (image_cell self.old) address word k }
        ensures same { image_size self.new ≡ image_size self.old }
        ensures bytes { WordAlone address self.old.bytes.now self.new.bytes.now }
        ensures lent { image_loan self.new ≡ image_loan self.old }
    {
        let address = address as usize;
        let start = 512 * (address / 126);
        let block = &mut self.bytes[start..start + 512];
        set_word(block, address % 126, word);
    }
}

impl<'a> Memory for Image<'a> {
    ghost size = { λ s. image_size s };

    ghost cell = { λ s. image_cell s };

    ghost Loan = { ℕ × ℕ };

    ghost loan = { λ s. image_loan s };

    ghost small = { Prim.search rules };

    fn size(&self) -> u32 {
        (self.bytes.len() / 512 * 126).min(WORDS) as u32
    }

    fn read(&self, address: u32) -> Result<u32, Fault> {
        let block = self.block(address)?;
        Ok(word_of(block, address as usize % 126))
    }

    /// Beyond what each memory promises: it changes the bytes of the word and of the check of its
    /// block alone, and where it is refused no byte.
    fn write(&mut self, address: u32, word: u32) -> Result<(), Fault>
        ensures answer { result ≡ write_answer (image_size self.old) (image_cell self.old) address }
        ensures cells { (k : ℕ) → image_cell self.new k ≡ write_cells (image_size self.old) (image_cell self.old) address word k }
        ensures same { image_size self.new ≡ image_size self.old }
        ensures lent { image_loan self.new ≡ image_loan self.old }
        ensures bytes { BytesKept address self.old.bytes.now self.new.bytes.now result }
    {
        self.block(address)?;
        self.set(address, word);
        Ok(())
    }
}
