//! One lane of messages, each stored as its five words.
ghost use Rattle.std.specs.Prelude.{◌≡◌, ◌<◌, [], ◌∷◌, ◌++◌, length, drop, is_some, take_while};
ghost use Rattle.lanes.specs.Lanes.{oldest};
ghost use Rattle.packs.specs.Packs.{messages_of};
ghost use Rattle.packs.specs.declared.packed.TheConstants.{PACKED_DEPTH};

use crate::packed::PACKED_DEPTH;
use messages::form::FiveWords;
use std::marker::Model;

/// At most 8 groups of words, oldest first.
#[derive(Drop)]
pub(crate) struct Lane {
    groups: [[u32; 5]; PACKED_DEPTH],
    count: usize,
}

// Clauses see the groups counted. Their messages are those up to the first group that is none.
impl Model for Lane {
    ghost use Rattle.std.specs.Prelude.{ℕ, ◌≤◌, List, take};
    ghost use Rattle.packs.specs.declared.packed.TheConstants.{PACKED_DEPTH};

    ghost Value = { List (List ℕ) };

    ghost view = { λ l. take l.count l.groups };

    ghost invariant = { λ l. l.count ≤ PACKED_DEPTH };
}

impl Lane {
    pub(crate) fn new() -> Lane
        ensures { result ≡ [] }
    {
        Lane {
            groups: [[0; 5]; PACKED_DEPTH],
            count: 0,
        }
    }

    #[tactic(auto, using(crate::proofs::Groups::how_many))]
    pub(crate) fn count<M: FiveWords + Drop>(&self) -> usize
        ensures { result ≡ length (messages_of M.FiveWords.message self.now) }
    {
        leading::<M>(&self.groups[..self.count])
    }

    /// Shows the oldest message.
    pub(crate) fn oldest<M: FiveWords>(&self) -> Option<M>
        ensures { result ≡ oldest (messages_of M.FiveWords.message self.now) }
    {
        if self.count == 0 {
            return None;
        }
        M::from_words(self.groups[0])
    }

    /// Adds a message behind the last.
    #[tactic(auto, using(crate::proofs::Groups::one_more))]
    pub(crate) fn push<M: FiveWords + Drop>(&mut self, message: M)
        requires { length (messages_of M.FiveWords.message self.old) < PACKED_DEPTH }
        ensures { messages_of M.FiveWords.message self.new ≡ messages_of M.FiveWords.message self.old ++ message ∷ [] }
    {
        let count = self.count::<M>();
        self.groups[count] = message.to_words();
        self.count = count + 1;
    }

    /// Removes the oldest message, or answers none.
    pub(crate) fn take<M: FiveWords>(&mut self) -> Option<M>
        ensures taken { result ≡ oldest (messages_of M.FiveWords.message self.old) }
        ensures left { messages_of M.FiveWords.message self.new ≡ drop 1 (messages_of M.FiveWords.message self.old) }
    {
        let oldest = self.oldest()?;
        self.shift();
        Some(oldest)
    }

    /// Drops the oldest group.
    fn shift(&mut self)
        requires { 0 < length self.old }
        ensures { self.new ≡ drop 1 self.old }
    {
        self.groups.copy_within(1..self.count, 0);
        self.count -= 1;
    }
}

/// How many groups stand before the first that is no message.
fn leading<M: FiveWords + Drop>(groups: &[[u32; 5]]) -> usize
    ensures { result ≡ length (take_while (λ ws. is_some (M.FiveWords.message ws)) groups.now) }
{
    groups
        .iter()
        .take_while(|words| M::from_words(**words).is_some())
        .count()
}
