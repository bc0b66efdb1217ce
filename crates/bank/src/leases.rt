//! What serving does to a line.
ghost use Rattle.std.specs.Prelude.{◌≡◌, ℕ, ◌+◌, max, cond, not, ◌&&◌, [], ◌∷◌};
ghost use Rattle.lifetimes.specs.declared.policy.Event.TheVariants.{LoadMetOver, WriteMetRunning};
ghost use Rattle.lifetimes.specs.Told.{Told};
ghost use Rattle.rules.specs.Stamps.{runs};
ghost use Rattle.rules.specs.Bank.{live};
ghost use Rattle.rules.specs.Serving.{stamped, with_word};

use lifetimes::policy::{Event, LifetimePolicy};
use rules::clock::Clock;
use rules::record::Line;
use rules::stamp::runs;

/// The stamp that a load gives, which the line gets: raised by the lifetime, unless a lane waits on
/// the address. `met` says that the line was there before, which only the event asks.
pub(crate) fn lease<P: LifetimePolicy>(
    line: &mut Line,
    met: bool,
    waits: bool,
    clock: Clock,
    policy: &mut P,
) -> u32
    ensures value { result ≡ cond waits line.old.stamp (max line.old.stamp (clock + P.LifetimePolicy.present policy.old)) }
    ensures after { line.new ≡ stamped line.old result }
    ensures told { Told P.LifetimePolicy.heard policy.old (cond (met && not (runs line.old.stamp clock)) (LoadMetOver ∷ []) []) policy.new }
{
    let until = clock.tick() + policy.lifetime();
    if met && !runs(line.stamp, clock.tick()) {
        policy.tell(Event::LoadMetOver);
    }
    if !waits {
        line.stamp = line.stamp.max(until);
    }
    line.stamp
}

/// Writes a word into a line: the line's stamp if it runs, of which the policy is told, else 0 for none,
/// as answers have it.
pub(crate) fn write<P: LifetimePolicy>(
    line: &mut Line,
    value: u32,
    clock: Clock,
    policy: &mut P,
) -> u32
    ensures value { result ≡ live line.old.stamp clock }
    ensures after { line.new ≡ with_word line.old value }
    ensures told { Told P.LifetimePolicy.heard policy.old (cond (runs line.old.stamp clock) (WriteMetRunning ∷ []) []) policy.new }
{
    line.value = value;
    line.changed = true;
    if !runs(line.stamp, clock.tick()) {
        return 0;
    }
    policy.tell(Event::WriteMetRunning);
    line.stamp
}
