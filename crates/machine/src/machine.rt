//! The machine: its parts, and its tables.
ghost use Rattle.std.specs.Prelude.{◌≡◌};

use crate::tables::Tables;

/// What a machine is made of, and gives back: a net for requests, a net for answers, a memory, and a
/// lifetime policy.
#[derive(Drop)]
pub struct Parts<Q, R, M, P> {
    pub requests: Q,
    pub answers: R,
    pub memory: M,
    pub policy: P,
}

/// A machine: its parts, and its tables. Its clauses name its `view`.
#[derive(Drop)]
pub struct Machine<Q, R, M, P> {
    pub(crate) requests: Q,
    pub(crate) answers: R,
    pub(crate) memory: M,
    pub(crate) policy: P,
    pub(crate) tables: Tables,
}

impl<Q, R, M, P> Machine<Q, R, M, P> {
    /// A machine of these parts over tables made for it, which nothing has started. Making it cannot fail: the
    /// room was reserved with the tables, while the caller still had the parts.
    pub fn new(parts: Parts<Q, R, M, P>, tables: Tables) -> Self
        ensures requests { result.requests ≡ parts.requests }
        ensures answers { result.answers ≡ parts.answers }
        ensures memory { result.memory ≡ parts.memory }
        ensures policy { result.policy ≡ parts.policy }
        ensures tables { result.tables ≡ tables }
    {
        let Parts {
            requests,
            answers,
            memory,
            policy,
        } = parts;
        Machine {
            requests,
            answers,
            memory,
            policy,
            tables,
        }
    }

    /// Gives the parts back.
    pub fn into_parts(self) -> Parts<Q, R, M, P>
        ensures requests { result.requests ≡ self.requests }
        ensures answers { result.answers ≡ self.answers }
        ensures memory { result.memory ≡ self.memory }
        ensures policy { result.policy ≡ self.policy }
    {
        let Machine {
            requests,
            answers,
            memory,
            policy,
            ..
        } = self;
        Parts {
            requests,
            answers,
            memory,
            policy,
        }
    }

    /// The present tick; 1 before a start.
    pub fn clock(&self) -> u32
        ensures { result ≡ self.now.tables.clock }
    {
        self.tables.clock.tick()
    }

    /// The net of requests, with what lies in its lanes.
    pub fn requests(&self) -> &Q
        ensures { result.now ≡ self.now.requests }
    {
        &self.requests
    }

    /// The net of answers, with what lies in its lanes.
    pub fn answers(&self) -> &R
        ensures { result.now ≡ self.now.answers }
    {
        &self.answers
    }

    /// The memory, whose words are those of the start and what evictions wrote.
    pub fn memory(&self) -> &M
        ensures { result.now ≡ self.now.memory }
    {
        &self.memory
    }

    /// The lifetime policy.
    pub fn policy(&self) -> &P
        ensures { result.now ≡ self.now.policy }
    {
        &self.policy
    }
}
