//! A call of the machine as a value.
ghost use Rattle.std.specs.Prelude.{◌≡◌};
ghost use Rattle.std.specs.Option.{ok_or};
ghost use Rattle.calls.specs.Letters.{protocol_of};
ghost use Rattle.calls.specs.declared.refusal.Refusal.TheVariants.{NotACall};

use crate::refusal::Refusal;

/// Which operation waits for a lease to end.
#[derive(Clone, Copy, PartialEq, Eq, Debug)]
pub enum Protocol {
    /// TC-Strong: a store or atomic waits at the bank. Letter S in a script.
    Strong,
    /// TC-Weak: a store or atomic goes through, and a fence waits. Letter W in a script.
    Weak,
}

/// The protocol of a letter; another letter is not a call's.
impl TryFrom<u8> for Protocol {
    type Error = Refusal;

    ghost try_from_gives = { λ letter result. result ≡ ok_or (protocol_of letter) NotACall };

    fn try_from(letter: u8) -> Result<Protocol, Refusal> {
        match letter {
            b'S' => Ok(Protocol::Strong),
            b'W' => Ok(Protocol::Weak),
            _ => Err(Refusal::NotACall),
        }
    }
}

/// A call, with its arguments. A script's line has the letter, and the values in this order.
#[derive(Clone, Copy, PartialEq, Eq, Debug)]
pub enum Call {
    /// `N`: starts the machine with cores 0 to `cores` - 1
    Start {
        cores: u32,
        protocol: Protocol,
    },
    /// `L`: a wave of a core loads the word at an address
    Load {
        core: u32,
        wave: u32,
        address: u32,
    },
    /// `S`: a wave of a core stores a word at an address
    Store {
        core: u32,
        wave: u32,
        address: u32,
        value: u32,
    },
    /// `A`: a wave of a core adds a value to the word at an address, modulo 2^32
    Add {
        core: u32,
        wave: u32,
        address: u32,
        value: u32,
    },
    /// `X`: a wave of a core exchanges the word at an address for a value
    Exchange {
        core: u32,
        wave: u32,
        address: u32,
        value: u32,
    },
    /// `V`: the bank serves a core's oldest request
    Serve {
        core: u32,
    },
    /// `D`: a core takes its oldest answer
    Deliver {
        core: u32,
    },
    /// `T`: the clock goes on by one
    Tick,
    /// `E`: the line of an address leaves the bank
    Evict {
        address: u32,
    },
    /// `K`: a core drops its copy of an address
    Forget {
        core: u32,
        address: u32,
    },
}
