//! A script played on a machine with a fixed lifetime.
ghost use Rattle.std.specs.Prelude.{◌≡◌, ℕ, [], ◌++◌, take, is_ok, if◌then◌else◌, string_bytes, OnOk, OnErr};
ghost use Rattle.std.specs.Result.{result_ok};
ghost use Rattle.machine.specs.View.{SameLoans, view};
ghost use Rattle.script.specs.OutputLines.{output_line};
ghost use Rattle.script.specs.Lines.{input_bytes, script};
ghost use Rattle.player.specs.Played.{Begun, line_after, lines_after, played, read_line_outcome};

use calls::call::Call;
use calls::outcome::Outcome;
use calls::refusal::Refusal;
use lanes::net::LaneNet;
use lifetimes::fixed::Fixed;
use machine::machine::Machine;
use memories::memory::Memory;
use messages::answer::Answer;
use messages::request::Request;
use script::output::OutputLine;
use script::reader::Reader;
use std::alloc::AllocError;

/// Makes the call of a line; a line that is no call is refused.
fn play_line<Q: LaneNet<Request>, R: LaneNet<Answer>, M: Memory>(
    machine: &mut Machine<Q, R, M, Fixed>,
    line: Result<Call, Refusal>,
) -> Outcome
    ensures answer { result ≡ read_line_outcome (view Q.LaneNet R.LaneNet M.Memory machine.old) machine.old.policy.lifetime line }
    ensures after { view Q.LaneNet R.LaneNet M.Memory machine.new ≡ line_after (view Q.LaneNet R.LaneNet M.Memory machine.old) machine.old.policy.lifetime (result_ok line) }
    ensures same { machine.new.policy.lifetime ≡ machine.old.policy.lifetime }
    ensures lent { SameLoans Q.LaneNet R.LaneNet M.Memory machine.old machine.new }
{
    match line {
        Ok(call) => machine.make(call),
        Err(refusal) => Outcome::Refused(refusal),
    }
}

/// Plays a line, and adds the line that tells what it came to.
fn play_and_tell<Q: LaneNet<Request>, R: LaneNet<Answer>, M: Memory>(
    machine: &mut Machine<Q, R, M, Fixed>,
    line: Result<Call, Refusal>,
    number: usize,
    line_out: &mut OutputLine,
    out: &mut String,
) -> Result<(), AllocError>
    ensures bytes { string_bytes out.new ≡ (if is_ok result then string_bytes out.old ++ output_line number (read_line_outcome (view Q.LaneNet R.LaneNet M.Memory machine.old) machine.old.policy.lifetime line) else string_bytes out.old) }
    ensures after { view Q.LaneNet R.LaneNet M.Memory machine.new ≡ line_after (view Q.LaneNet R.LaneNet M.Memory machine.old) machine.old.policy.lifetime (result_ok line) }
    ensures same { machine.new.policy.lifetime ≡ machine.old.policy.lifetime }
    ensures lent { SameLoans Q.LaneNet R.LaneNet M.Memory machine.old machine.new }
{
    let outcome = play_line(machine, line);
    line_out.set(number, outcome);
    out.push_str(line_out.as_str())
}

/// Plays a script from its first line on, and adds a line for each of its lines. Where memory is short
/// for such a line, those before it are there, and its call was made, but none after it.
pub fn play<Q: LaneNet<Request>, R: LaneNet<Answer>, M: Memory>(
    machine: &mut Machine<Q, R, M, Fixed>,
    input: &[u8],
    out: &mut String,
) -> Result<(), AllocError>
    ensures bytes { OnOk result (string_bytes out.new ≡ string_bytes out.old ++ played (view Q.LaneNet R.LaneNet M.Memory machine.old) machine.old.policy.lifetime 0 (script (take input_bytes input.now))) }
    ensures after { OnOk result (view Q.LaneNet R.LaneNet M.Memory machine.new ≡ lines_after (view Q.LaneNet R.LaneNet M.Memory machine.old) machine.old.policy.lifetime (script (take input_bytes input.now))) }
    ensures begun { OnErr result (Begun (view Q.LaneNet R.LaneNet M.Memory machine.old) machine.old.policy.lifetime (script (take input_bytes input.now)) (view Q.LaneNet R.LaneNet M.Memory machine.new) (string_bytes out.old) (string_bytes out.new)) }
    ensures same { machine.new.policy.lifetime ≡ machine.old.policy.lifetime }
    ensures lent { SameLoans Q.LaneNet R.LaneNet M.Memory machine.old machine.new }
{
    let mut line_out = OutputLine::new();
    for (number, line) in (1..).zip(Reader::new(input)) {
        play_and_tell(machine, line, number, &mut line_out, out)?;
    }
    Ok(())
}
