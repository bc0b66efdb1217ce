//! The call that a line writes.
ghost use Rattle.std.specs.Prelude.{◌≡◌};
ghost use Rattle.std.specs.Option.{ok_or};
ghost use Rattle.std.specs.Result.{result_ok};
ghost use Rattle.calls.specs.declared.refusal.Refusal.TheVariants.{NotACall};
ghost use Rattle.script.specs.Fields.{bind, first, others};
ghost use Rattle.script.specs.Lines.{letter_of, call_of, other_call_of, parse_line};
ghost use Rattle.script.specs.Written.{Back};

use crate::fields::Fields;
use calls::call::{Call, Protocol};
use calls::refusal::Refusal;

/// The call that a line writes, if it writes one.
pub fn parse(line: &[u8]) -> Result<Call, Refusal>
    ensures value { result ≡ ok_or (parse_line line.now) NotACall }
    ensures back { Back line.now (result_ok result) }
{
    call(Fields::new(line)).ok_or(Refusal::NotACall)
}

/// The call that the fields of a line write: its letter, which is the script's format, and what the
/// letter asks for.
fn call(mut fields: Fields<'_>) -> Option<Call>
    ensures { result ≡ bind (letter_of (first fields.entry)) (λ l. call_of l (others fields.entry)) }
{
    let call = match fields.letter()? {
        b'N' => Call::Start {
            cores: fields.number()?,
            protocol: Protocol::try_from(fields.letter()?).ok()?,
        },
        b'L' => Call::Load {
            core: fields.number()?,
            wave: fields.number()?,
            address: fields.number()?,
        },
        b'S' => Call::Store {
            core: fields.number()?,
            wave: fields.number()?,
            address: fields.number()?,
            value: fields.number()?,
        },
        b'A' => Call::Add {
            core: fields.number()?,
            wave: fields.number()?,
            address: fields.number()?,
            value: fields.number()?,
        },
        b'X' => Call::Exchange {
            core: fields.number()?,
            wave: fields.number()?,
            address: fields.number()?,
            value: fields.number()?,
        },
        letter => return other_call(letter, fields),
    };
    fields.end(call)
}

/// The call of a letter that is none of those, and of the fields behind it.
fn other_call(letter: u8, mut fields: Fields<'_>) -> Option<Call>
    ensures { result ≡ other_call_of letter fields.entry }
{
    let other = match letter {
        b'V' => Call::Serve {
            core: fields.number()?,
        },
        b'D' => Call::Deliver {
            core: fields.number()?,
        },
        b'T' => Call::Tick,
        b'E' => Call::Evict {
            address: fields.number()?,
        },
        b'K' => Call::Forget {
            core: fields.number()?,
            address: fields.number()?,
        },
        _ => return None,
    };
    fields.end(other)
}
