// The calls that change who holds which role. Each is checked, carried out in place on lent arrays and
// answered in one function, which promises what the call's definition in `model` says.
// Kept: tests one below the other, in the order of the refusal table. An `Answer` is no `Result`, so that no
// `?` goes through it.
#![tactic(auto)]

ghost use Rattle.std.specs.Prelude.{◌≡◌, List, ℕ};
ghost use Rattle.model.specs.Limits.{last_version};
ghost use Rattle.model.specs.State.{tables_of, directory_of};
ghost use Rattle.model.specs.Calls.{done, assign, withdraw};

use model::{Answer, Engine, Refusal, Version};
use tables::lent;

// 01: user u gets role r and a new version.
#[tactic(auto, using(model::proofs::Laws::given_one), unfolding(model::specs::Calls::assign, tables::specs::Tables::assigned, tables::specs::Tables::with_roles, model::specs::State::new_version))]
pub fn assign(
    roles: &mut [u64; Engine::USERS],
    versions: &mut [Version; Engine::USERS],
    version: &mut Version,
    u: usize,
    r: usize,
) -> Answer
    ensures { (readers forwards mandates : List ℕ) → done result (directory_of (tables_of roles.new readers forwards mandates) versions.new version.new) ≡ assign last_version (directory_of (tables_of roles.old readers forwards mandates) versions.old version.old) u r }
{
    if Engine::USERS <= u {
        return Answer::Refused(Refusal::AboveLimit);
    }
    if Engine::ROLES <= r {
        return Answer::Refused(Refusal::AboveLimit);
    }
    if lent::there(roles, u, r) {
        return Answer::Refused(Refusal::AlreadyThere);
    }
    if *version == Engine::LAST_VERSION {
        return Answer::Refused(Refusal::VersionsSpent);
    }
    let v = *version + 1;
    lent::enter(roles, u, r);
    versions[u] = v;
    *version = v;
    Answer::Version(v)
}

// 02: user u loses role r.
#[tactic(auto, unfolding(model::specs::Calls::withdraw, tables::specs::Tables::withdrawn, tables::specs::Tables::with_roles))]
pub fn withdraw(roles: &mut [u64; Engine::USERS], version: Version, u: usize, r: usize) -> Answer
    ensures { (readers forwards mandates versions : List ℕ) → done result (directory_of (tables_of roles.new readers forwards mandates) versions version) ≡ withdraw (directory_of (tables_of roles.old readers forwards mandates) versions version) u r }
{
    if Engine::USERS <= u {
        return Answer::Refused(Refusal::AboveLimit);
    }
    if Engine::ROLES <= r {
        return Answer::Refused(Refusal::AboveLimit);
    }
    if !lent::there(roles, u, r) {
        return Answer::Refused(Refusal::NotThere);
    }
    lent::strike(roles, u, r);
    Answer::Version(version)
}
