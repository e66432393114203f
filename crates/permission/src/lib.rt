// The calls that change which role may read which database. Each is checked, carried out in place on
// lent arrays and answered in one function, which promises what the call's definition in `model` says.
// Kept: tests one below the other, in the order of the refusal table. An `Answer` is no `Result`, so that no
// `?` goes through it.
#![tactic(auto)]

ghost use Rattle.std.specs.Prelude.{◌≡◌, false, List, ℕ};
ghost use Rattle.rows.specs.Rows.{there};
ghost use Rattle.tables.specs.Tables.{user_count, held_by};
ghost use Rattle.model.specs.Limits.{last_version};
ghost use Rattle.model.specs.State.{tables_of, directory_of, given};
ghost use Rattle.model.specs.Calls.{done, spent, to_holders, permit, revoke};

use model::{Answer, Engine, Refusal, Version};
use tables::lent;

// The holders of role r get version v; whether there is one.
fn renew(
    versions: &mut [Version; Engine::USERS],
    roles: &[u64; Engine::USERS],
    r: usize,
    v: Version,
) -> bool
    ensures { (result ≡ held_by user_count roles.now r) × (versions.new ≡ given (λ u. there roles.now u r) v user_count versions.old) }
{
    let mut held = false;
    for (u, own) in versions.iter_mut().enumerate() {
        if lent::there(roles, u, r) {
            *own = v;
            held = true;
        }
    }
    held
}

// Whether a new version is due to the holders of role r, and there is none left.
#[tactic(auto, unfolding(model::specs::Calls::spent))]
fn spent(roles: &[u64; Engine::USERS], version: Version, r: usize) -> bool
    ensures { (readers forwards mandates versions : List ℕ) → result ≡ spent last_version (directory_of (tables_of roles.now readers forwards mandates) versions version) r }
{
    if version != Engine::LAST_VERSION {
        return false;
    }
    lent::held(roles, r)
}

// A new version for the holders of role r, where there are any. At the last version there are none.
fn to_holders(
    roles: &[u64; Engine::USERS],
    versions: &mut [Version; Engine::USERS],
    version: &mut Version,
    r: usize,
)
    requires { (readers forwards mandates : List ℕ) → spent last_version (directory_of (tables_of roles.now readers forwards mandates) versions.old version.old) r ≡ false }
    ensures { (readers forwards mandates : List ℕ) → directory_of (tables_of roles.now readers forwards mandates) versions.new version.new ≡ to_holders (directory_of (tables_of roles.now readers forwards mandates) versions.old version.old) r }
{
    if *version < Engine::LAST_VERSION {
        let v = *version + 1;
        if renew(versions, roles, r, v) {
            *version = v;
        }
    }
}

// 03: role r may read database d, and its holders get a new version.
#[tactic(auto, unfolding(model::specs::Calls::permit, tables::specs::Tables::permitted, tables::specs::Tables::with_readers))]
pub fn permit(
    roles: &[u64; Engine::USERS],
    readers: &mut [u64; Engine::DATABASES],
    versions: &mut [Version; Engine::USERS],
    version: &mut Version,
    r: usize,
    d: usize,
) -> Answer
    ensures { (forwards mandates : List ℕ) → done result (directory_of (tables_of roles.now readers.new forwards mandates) versions.new version.new) ≡ permit last_version (directory_of (tables_of roles.now readers.old forwards mandates) versions.old version.old) r d }
{
    if Engine::ROLES <= r {
        return Answer::Refused(Refusal::AboveLimit);
    }
    if Engine::DATABASES <= d {
        return Answer::Refused(Refusal::AboveLimit);
    }
    if lent::there(readers, d, r) {
        return Answer::Refused(Refusal::AlreadyThere);
    }
    if spent(roles, *version, r) {
        return Answer::Refused(Refusal::VersionsSpent);
    }
    lent::enter(readers, d, r);
    to_holders(roles, versions, version, r);
    Answer::Version(*version)
}

// 04: role r may not read database d any more, and its holders get a new version. A permission with a
// mandate on it stays.
#[tactic(auto, unfolding(model::specs::Calls::revoke, tables::specs::Tables::revoked, tables::specs::Tables::with_readers))]
pub fn revoke(
    roles: &[u64; Engine::USERS],
    readers: &mut [u64; Engine::DATABASES],
    mandates: &[u64; Engine::DATABASES],
    versions: &mut [Version; Engine::USERS],
    version: &mut Version,
    r: usize,
    d: usize,
) -> Answer
    ensures { (forwards : List ℕ) → done result (directory_of (tables_of roles.now readers.new forwards mandates.now) versions.new version.new) ≡ revoke last_version (directory_of (tables_of roles.now readers.old forwards mandates.now) versions.old version.old) r d }
{
    if Engine::ROLES <= r {
        return Answer::Refused(Refusal::AboveLimit);
    }
    if Engine::DATABASES <= d {
        return Answer::Refused(Refusal::AboveLimit);
    }
    if !lent::there(readers, d, r) {
        return Answer::Refused(Refusal::NotThere);
    }
    if lent::there(mandates, d, r) {
        return Answer::Refused(Refusal::Mandated);
    }
    if spent(roles, *version, r) {
        return Answer::Refused(Refusal::VersionsSpent);
    }
    lent::strike(readers, d, r);
    to_holders(roles, versions, version, r);
    Answer::Version(*version)
}
