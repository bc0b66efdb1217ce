//! What a delivery hands to a core.
ghost use Rattle.std.specs.Prelude.{◌≡◌};
ghost use Rattle.rules.specs.Cores.{delivery};

use calls::outcome::Delivered;
use messages::answer::Answer;
use messages::request::Request;

/// What an answer to the request hands to the core: wave and address are the request's.
pub(crate) fn delivery(request: Request, answer: Answer) -> Delivered
    ensures { result ≡ delivery request answer }
{
    let wave = request.wave();
    let address = request.address();
    match answer {
        Answer::Load { value, .. } => Delivered::Load {
            wave,
            address,
            value,
        },
        Answer::Store { .. } => Delivered::Store { wave, address },
        Answer::Atomic { value, .. } => Delivered::Atomic {
            wave,
            address,
            value,
        },
        Answer::Fault { block, .. } => Delivered::Fault {
            wave,
            address,
            block,
        },
    }
}
