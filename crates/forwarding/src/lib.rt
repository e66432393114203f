// The call that changes which database forwards to which. It is checked, carried out in place on lent
// arrays and answered in one function, which promises what the call's definition in `model` says. A
// session has here its number among those of both products.
// Kept: tests one below the other, in the order of the refusal table. An `Answer` is no `Result`, so that no
// `?` goes through it.
#![tactic(auto)]

ghost use Rattle.std.specs.Prelude.{◌≡◌, List, ℕ};
ghost use Rattle.model.specs.State.{tables_of, directory_of, any_flow};
ghost use Rattle.model.specs.Calls.{done, forward};

use model::{Answer, Engine, Refusal, Version};
use tables::lent;

// Whether any session of either product has a flow.
fn any_flow(counts: &[usize; Engine::ALL_SESSIONS]) -> bool
    ensures { result ≡ any_flow counts.now }
{
    counts.iter().any(|n| 0 < *n)
}

// 05: database d forwards to database e; `counts` tells how many flows each session of either product
// has.
#[tactic(auto, unfolding(model::specs::Calls::forward, tables::specs::Tables::forwarded, tables::specs::Tables::with_forwards))]
pub fn forward(
    forwards: &mut [u64; Engine::DATABASES],
    version: Version,
    counts: &[usize; Engine::ALL_SESSIONS],
    d: usize,
    e: usize,
) -> Answer
    ensures { (roles readers mandates versions : List ℕ) → done result (directory_of (tables_of roles readers forwards.new mandates) versions version) ≡ forward (directory_of (tables_of roles readers forwards.old mandates) versions version) counts.now d e }
{
    if Engine::DATABASES <= d {
        return Answer::Refused(Refusal::AboveLimit);
    }
    if Engine::DATABASES <= e {
        return Answer::Refused(Refusal::AboveLimit);
    }
    if any_flow(counts) {
        return Answer::Refused(Refusal::FlowAdded);
    }
    if lent::there(forwards, d, e) {
        return Answer::Refused(Refusal::AlreadyThere);
    }
    lent::enter(forwards, d, e);
    Answer::Version(version)
}
