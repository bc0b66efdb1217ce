//! What a call comes to.
ghost use Rattle.std.specs.Prelude.{◌≡◌, Some};
ghost use Rattle.calls.specs.Causes.{delivered_cause, outcome_cause};
ghost use Rattle.calls.specs.Texts.{delivered_text, outcome_text};

use crate::refusal::Refusal;
use std::fmt;

/// What a delivery hands to the core: wave and address are those of its oldest pending request.
#[derive(Clone, Copy, PartialEq, Eq, Debug)]
pub enum Delivered {
    /// kind 1, `load`: a load's word
    Load { wave: u32, address: u32, value: u32 },
    /// kind 2, `store`: a store was served
    Store { wave: u32, address: u32 },
    /// kind 3, `atomic`: an atomic was served; the word before it
    Atomic { wave: u32, address: u32, value: u32 },
    /// kind 4, `fault`: the word was unreadable (cause 11); the block that was, and the address that the core named
    Fault { wave: u32, address: u32, block: u32 },
}

/// What a call comes to, with the word that a script's output has for it, which the values follow.
#[derive(Clone, Copy, PartialEq, Eq, Debug)]
pub enum Outcome {
    /// Start, `started`: the machine runs
    Started,
    /// Load, `load`: the core had a running copy
    Hit { address: u32, value: u32 },
    /// Load, Store, Add or Exchange, `sent`: a request was put and noted
    Sent,
    /// Serve, `served`: an answer was put
    Served,
    /// Deliver: what the core was handed
    Delivered(Delivered),
    /// Tick, `tick`: the clock after it
    Ticked(u32),
    /// Evict, `evicted`: the line left the bank
    Evicted,
    /// Forget, `forgotten`: the copy went
    Forgotten,
    /// Forget, `no copy`: the core had no copy of the address
    NoCopy,
    /// any call, `refused`, the cause's number and its text: nothing changed, save that cause 7 marks the lane as waiting
    Refused(Refusal),
}

impl Delivered {
    /// The cause that this tells: 11 with the block and the address of a fault, and none else.
    pub fn cause(self) -> Option<Refusal>
        ensures { result ≡ delivered_cause self }
    {
        match self {
            Delivered::Load { .. } | Delivered::Store { .. } | Delivered::Atomic { .. } => None,
            Delivered::Fault { address, block, .. } => Some(Refusal::Unreadable { block, address }),
        }
    }
}

impl Outcome {
    /// The cause that this tells: a refusal's own, 11 of a fault that was handed over, and none else.
    pub fn cause(self) -> Option<Refusal>
        ensures { result ≡ outcome_cause self }
    {
        match self {
            Outcome::Refused(refusal) => Some(refusal),
            Outcome::Delivered(delivered) => delivered.cause(),
            Outcome::Started
            | Outcome::Hit { .. }
            | Outcome::Sent
            | Outcome::Served
            | Outcome::Ticked(_)
            | Outcome::Evicted
            | Outcome::Forgotten
            | Outcome::NoCopy => None,
        }
    }
}

impl fmt::Display for Delivered {
    ghost output = { λ delivered. Some (delivered_text delivered) };

    fn fmt<W: fmt::Write>(&self, f: &mut fmt::Formatter<W>) -> fmt::Result {
        match self {
            Delivered::Load { address, value, .. } => write!(f, "load {address} {value}"),
            Delivered::Store { address, .. } => write!(f, "store {address}"),
            Delivered::Atomic { address, value, .. } => write!(f, "atomic {address} {value}"),
            Delivered::Fault { address, block, .. } => write!(f, "fault {address} {block}"),
        }
    }
}

impl fmt::Display for Outcome {
    ghost output = { λ outcome. Some (outcome_text outcome) };

    fn fmt<W: fmt::Write>(&self, f: &mut fmt::Formatter<W>) -> fmt::Result {
        match self {
            Outcome::Started => f.write_str("started"),
            Outcome::Hit { address, value } => write!(f, "load {address} {value}"),
            Outcome::Sent => f.write_str("sent"),
            Outcome::Served => f.write_str("served"),
            Outcome::Delivered(delivered) => write!(f, "{delivered}"),
            Outcome::Ticked(clock) => write!(f, "tick {clock}"),
            Outcome::Evicted => f.write_str("evicted"),
            Outcome::Forgotten => f.write_str("forgotten"),
            Outcome::NoCopy => f.write_str("no copy"),
            Outcome::Refused(refusal) => write!(f, "refused {} {refusal}", u32::from(*refusal)),
        }
    }
}
