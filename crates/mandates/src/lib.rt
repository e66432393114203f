// The call that puts a mandate on a permission. It is checked, carried out in place on lent arrays and
// answered in one function, which promises what the call's definition in `model` says.
// Kept: tests one below the other, in the order of the refusal table. An `Answer` is no `Result`, so that no
// `?` goes through it.
#![tactic(auto)]

ghost use Rattle.std.specs.Prelude.{◌≡◌, List, ℕ};
ghost use Rattle.model.specs.State.{tables_of, directory_of};
ghost use Rattle.model.specs.Calls.{done, mandate};

use model::{Answer, Engine, Refusal, Version};
use tables::lent;

// 10: role r, which may read database d, has a mandate there. Nobody gets a new version.
#[tactic(auto, unfolding(model::specs::Calls::mandate, tables::specs::Tables::mandated, tables::specs::Tables::with_mandates))]
pub fn mandate(
    readers: &[u64; Engine::DATABASES],
    mandates: &mut [u64; Engine::DATABASES],
    version: Version,
    r: usize,
    d: usize,
) -> Answer
    ensures { (roles forwards versions : List ℕ) → done result (directory_of (tables_of roles readers.now forwards mandates.new) versions version) ≡ mandate (directory_of (tables_of roles readers.now forwards mandates.old) versions version) r d }
{
    if Engine::ROLES <= r {
        return Answer::Refused(Refusal::AboveLimit);
    }
    if Engine::DATABASES <= d {
        return Answer::Refused(Refusal::AboveLimit);
    }
    if lent::there(mandates, d, r) {
        return Answer::Refused(Refusal::AlreadyThere);
    }
    if !lent::there(readers, d, r) {
        return Answer::Refused(Refusal::NotThere);
    }
    lent::enter(mandates, d, r);
    Answer::Version(version)
}
