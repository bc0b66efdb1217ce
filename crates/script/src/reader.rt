//! A script, line by line.
ghost use Rattle.std.specs.Prelude.{◌≡◌, ◌≤◌, length, take};
ghost use Rattle.std.specs.Iterator.{YieldsFirst, item_count};
ghost use Rattle.script.specs.Lines.{input_bytes, script, script_calls};
ghost use Rattle.script.specs.Written.{AllBack};

use crate::bytes::cut;
use crate::line::parse;
use calls::call::Call;
use calls::refusal::Refusal;
use std::marker::Model;

/// How many bytes of an input are read: 64 KiB.
pub const INPUT_BYTES: usize = 65536;

/// The first `INPUT_BYTES` bytes, or all where there are fewer.
#[tactic(auto, using(std::proofs::lemmas::List::take_min))]
fn limited(input: &[u8]) -> &[u8]
    ensures { result.now ≡ take input_bytes input.now }
{
    &input[..INPUT_BYTES.min(input.len())]
}

/// The bytes of a script that are still to be read. Its items are the lines: the call that a line
/// writes, or the refusal of one that is no call.
#[derive(Drop)]
pub struct Reader<'a> {
    rest: &'a [u8],
}

impl<'a> Model for Reader<'a> {
    ghost use Rattle.std.specs.Prelude.{ℕ, List};

    ghost Value = { List ℕ };

    ghost view = { λ reader. reader.rest.now };
}

impl<'a> Reader<'a> {
    /// Reads the first `INPUT_BYTES` bytes of an input.
    pub fn new(input: &'a [u8]) -> Reader<'a>
        ensures value { result ≡ take input_bytes input.now }
        ensures few { length (script result) ≤ input_bytes }
        ensures back { AllBack input.now result }
    {
        Reader {
            rest: limited(input),
        }
    }
}

impl<'a> Iterator for Reader<'a> {
    type Item = Result<Call, Refusal>;

    ghost next_gives = { YieldsFirst script_calls };

    ghost remaining = { item_count script_calls };

    #[tactic(auto, using(crate::proofs::Splits::calls_more))]
    fn next(&mut self) -> Option<Result<Call, Refusal>> {
        let (line, rest) = cut(self.rest, b'\n');
        self.rest = rest.unwrap_or(&[]);
        match rest {
            Some(_) => Some(parse(line)),
            None if line.is_empty() => None,
            None => Some(Err(Refusal::NotACall)),
        }
    }
}
