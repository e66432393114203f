// The changes of the tables.
ghost use Rattle.std.specs.Prelude.{List, ℕ};
ghost use Rattle.model.specs.State.{tables_of, directory_of, sessions_of, engine_of};
ghost use Rattle.model.specs.declared.calls.Change.TheVariants.{Assign, Withdraw, Permit, Revoke, Forward, Mandate};
ghost use Rattle.model.specs.declared.calls.Call.TheVariants.{Table};
ghost use Rattle.given.specs.Given.{Tells};

use given::tell;
use model::{Engine, Version};

// 01: the user gets the role.
#[unsafe(no_mangle)]
pub extern "C" fn linkage_lent_assign(
    roles: &mut [u64; Engine::USERS],
    users: &mut [Version; Engine::USERS],
    version: &mut Version,
    user: usize,
    role: usize,
    told: &mut Version,
) -> u64
    ensures { (readers forwards mandates counts roots reaches versions denies rolesets : List ℕ) (opened : ℕ) → Tells (engine_of (directory_of (tables_of roles.old readers forwards mandates) users.old version.old) (sessions_of opened counts roots reaches versions denies rolesets)) (Table (Assign user role)) (engine_of (directory_of (tables_of roles.new readers forwards mandates) users.new version.new) (sessions_of opened counts roots reaches versions denies rolesets)) result told.old told.new }
{
    tell(assignment::assign(roles, users, version, user, role), told)
}

// 02: the user loses the role.
#[unsafe(no_mangle)]
pub extern "C" fn linkage_lent_withdraw(
    roles: &mut [u64; Engine::USERS],
    version: Version,
    user: usize,
    role: usize,
    told: &mut Version,
) -> u64
    ensures { (readers forwards mandates users counts roots reaches versions denies rolesets : List ℕ) (opened : ℕ) → Tells (engine_of (directory_of (tables_of roles.old readers forwards mandates) users version) (sessions_of opened counts roots reaches versions denies rolesets)) (Table (Withdraw user role)) (engine_of (directory_of (tables_of roles.new readers forwards mandates) users version) (sessions_of opened counts roots reaches versions denies rolesets)) result told.old told.new }
{
    tell(assignment::withdraw(roles, version, user, role), told)
}

// 03: the role may read the database.
#[unsafe(no_mangle)]
pub extern "C" fn linkage_lent_permit(
    roles: &[u64; Engine::USERS],
    readers: &mut [u64; Engine::DATABASES],
    users: &mut [Version; Engine::USERS],
    version: &mut Version,
    role: usize,
    database: usize,
    told: &mut Version,
) -> u64
    ensures { (forwards mandates counts roots reaches versions denies rolesets : List ℕ) (opened : ℕ) → Tells (engine_of (directory_of (tables_of roles.now readers.old forwards mandates) users.old version.old) (sessions_of opened counts roots reaches versions denies rolesets)) (Table (Permit role database)) (engine_of (directory_of (tables_of roles.now readers.new forwards mandates) users.new version.new) (sessions_of opened counts roots reaches versions denies rolesets)) result told.old told.new }
{
    tell(
        permission::permit(roles, readers, users, version, role, database),
        told,
    )
}

// 04: the role may not read the database any more.
#[unsafe(no_mangle)]
pub extern "C" fn linkage_lent_revoke(
    roles: &[u64; Engine::USERS],
    readers: &mut [u64; Engine::DATABASES],
    mandates: &[u64; Engine::DATABASES],
    users: &mut [Version; Engine::USERS],
    version: &mut Version,
    role: usize,
    database: usize,
    told: &mut Version,
) -> u64
    ensures { (forwards counts roots reaches versions denies rolesets : List ℕ) (opened : ℕ) → Tells (engine_of (directory_of (tables_of roles.now readers.old forwards mandates.now) users.old version.old) (sessions_of opened counts roots reaches versions denies rolesets)) (Table (Revoke role database)) (engine_of (directory_of (tables_of roles.now readers.new forwards mandates.now) users.new version.new) (sessions_of opened counts roots reaches versions denies rolesets)) result told.old told.new }
{
    tell(
        permission::revoke(roles, readers, mandates, users, version, role, database),
        told,
    )
}

// 05: the first database forwards to the second.
#[unsafe(no_mangle)]
pub extern "C" fn linkage_lent_forward(
    forwards: &mut [u64; Engine::DATABASES],
    version: Version,
    counts: &[usize; Engine::ALL_SESSIONS],
    from: usize,
    to: usize,
    told: &mut Version,
) -> u64
    ensures { (roles readers mandates users roots reaches versions denies rolesets : List ℕ) (opened : ℕ) → Tells (engine_of (directory_of (tables_of roles readers forwards.old mandates) users version) (sessions_of opened counts.now roots reaches versions denies rolesets)) (Table (Forward from to)) (engine_of (directory_of (tables_of roles readers forwards.new mandates) users version) (sessions_of opened counts.now roots reaches versions denies rolesets)) result told.old told.new }
{
    tell(
        forwarding::forward(forwards, version, counts, from, to),
        told,
    )
}

// 10: a mandate is put on the permission.
#[unsafe(no_mangle)]
pub extern "C" fn linkage_lent_mandate(
    readers: &[u64; Engine::DATABASES],
    mandates: &mut [u64; Engine::DATABASES],
    version: Version,
    role: usize,
    database: usize,
    told: &mut Version,
) -> u64
    ensures { (roles forwards users counts roots reaches versions denies rolesets : List ℕ) (opened : ℕ) → Tells (engine_of (directory_of (tables_of roles readers.now forwards mandates.old) users version) (sessions_of opened counts roots reaches versions denies rolesets)) (Table (Mandate role database)) (engine_of (directory_of (tables_of roles readers.now forwards mandates.new) users version) (sessions_of opened counts roots reaches versions denies rolesets)) result told.old told.new }
{
    tell(
        mandates::mandate(readers, mandates, version, role, database),
        told,
    )
}
