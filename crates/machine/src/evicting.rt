//! Evicting a line.
ghost use Rattle.std.specs.Prelude.{◌≡◌, OnErr, OnOk};
ghost use Rattle.rules.specs.Evicting.{cells_after, evict_step, write_back_check};
ghost use Rattle.machine.specs.View.{memory_state};
ghost use Rattle.machine.specs.Does.{Does};

use crate::machine::Machine;
use calls::refusal::Refusal;
use lanes::net::LaneNet;
use lifetimes::policy::{Event, LifetimePolicy};
use memories::memory::Memory;
use messages::answer::Answer;
use messages::request::Request;
use rules::causes::fault_cause;
use rules::record::Line;

/// Writes a changed line to its address; an unchanged one is not written. Refused (11) where the word cannot be
/// written.
fn write_back<M: Memory>(memory: &mut M, address: u32, line: Line) -> Result<(), Refusal>
    ensures answer { result ≡ write_back_check (memory_state M.Memory memory.old) address line }
    ensures written { OnOk result (memory_state M.Memory memory.new ≡ record { size = M.Memory.size memory.old; cell = cells_after (memory_state M.Memory memory.old) address line }) }
    ensures same { OnErr result (memory_state M.Memory memory.new ≡ memory_state M.Memory memory.old) }
    ensures lent { M.Memory.loan memory.new ≡ M.Memory.loan memory.old }
{
    if line.changed {
        memory
            .write(address, line.value)
            .map_err(|fault| fault_cause(address, fault))?;
    }
    Ok(())
}

impl<Q: LaneNet<Request>, R: LaneNet<Answer>, M: Memory, P: LifetimePolicy> Machine<Q, R, M, P> {
    /// The line of an address leaves the bank. Checks: 2, 9, 10, 11. A changed line is written to memory, its
    /// running stamp is kept, of which the policy is told, and kept stamps that are over count as gone.
    pub fn evict(&mut self, address: u32) -> Result<(), Refusal>
        ensures { Does Q.LaneNet R.LaneNet M.Memory P.LifetimePolicy (λ s. evict_step s address) self.old result self.new }
    {
        self.memory
            .check(address)
            .map_err(|fault| fault_cause(address, fault))?;
        let line = self.tables.line(address).ok_or(Refusal::NoLine)?;
        if self.tables.is_kept_full(line) {
            return Err(Refusal::KeptFull);
        }
        write_back(&mut self.memory, address, line)?;
        if self.tables.evict(address, line) {
            self.policy.tell(Event::LeftRunning);
        }
        Ok(())
    }
}
