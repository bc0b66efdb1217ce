//! The table of all worked cases.
#![tactic(auto)]

ghost use Rattle.cases.specs.WorkedCases.{WorkedCases};

use images::cases::zero_blocks;
use lifetimes::learner::learner_cases;
use rules::cases::tick_cases;

/// Every worked case holds of the definitions that the contracts cite.
pub fn worked_cases()
    ensures { WorkedCases }
{
    tick_cases();
    zero_blocks();
    learner_cases();
}
