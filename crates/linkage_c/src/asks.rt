// What is asked of sessions, and reads. A product is 0, the server, or 1, the term bank.
ghost use Rattle.std.specs.Prelude.{◌≡◌, List, ℕ};
ghost use Rattle.model.specs.State.{session_at, tables_of, directory_of, sessions_of, engine_of};
ghost use Rattle.model.specs.declared.calls.Ask.TheVariants.{Open, Conflicting, Add};
ghost use Rattle.model.specs.declared.calls.Call.TheVariants.{Session};
ghost use Rattle.encoding.specs.Written.{constraint_of};
ghost use Rattle.given.specs.Given.{product_of, session_of, Tells, Finds, Adds, Shows, Judges};

use given::{number_of, tell};
use model::{Answer, Engine, Version};

// 06 and 0b: the session is opened.
#[unsafe(no_mangle)]
pub extern "C" fn linkage_lent_open(
    version: Version,
    opened: &mut u64,
    product: usize,
    session: usize,
    told: &mut Version,
) -> u64
    ensures { (roles readers forwards mandates users counts roots reaches versions denies rolesets : List ℕ) → Tells (engine_of (directory_of (tables_of roles readers forwards mandates) users version) (sessions_of opened.old counts roots reaches versions denies rolesets)) (Session (product_of product) (session_of product session) Open) (engine_of (directory_of (tables_of roles readers forwards mandates) users version) (sessions_of opened.new counts roots reaches versions denies rolesets)) result told.old told.new }
{
    let s = number_of(product, session);
    tell(sessions::open_session(opened, version, s), told)
}

// 07 and 0c: the conflicting roles, with a flow of this root counted in.
#[unsafe(no_mangle)]
pub extern "C" fn linkage_lent_conflicting(
    roles: &[u64; Engine::USERS],
    readers: &[u64; Engine::DATABASES],
    forwards: &[u64; Engine::DATABASES],
    opened: u64,
    counts: &[usize; Engine::ALL_SESSIONS],
    reaches: &[u64; Engine::PLACES],
    product: usize,
    session: usize,
    root: usize,
    found: &mut u64,
) -> u64
    ensures { (mandates users roots versions denies rolesets : List ℕ) (version : ℕ) → Finds (engine_of (directory_of (tables_of roles.now readers.now forwards.now mandates) users version) (sessions_of opened counts.now roots reaches.now versions denies rolesets)) (Session (product_of product) (session_of product session) (Conflicting root)) result found.old found.new }
{
    let s = number_of(product, session);
    let a = sessions::conflicting(roles, readers, forwards, opened, counts, reaches, s, root);
    if let Answer::Roles(roles) = a {
        *found = roles;
    }
    answers::returned(a)
}

// 08 and 0d: a flow of this root is added, with these roles chosen.
#[unsafe(no_mangle)]
pub extern "C" fn linkage_lent_add(
    roles: &[u64; Engine::USERS],
    readers: &[u64; Engine::DATABASES],
    forwards: &[u64; Engine::DATABASES],
    version: Version,
    opened: u64,
    counts: &mut [usize; Engine::ALL_SESSIONS],
    roots: &mut [usize; Engine::PLACES],
    reaches: &mut [u64; Engine::PLACES],
    versions: &mut [Version; Engine::PLACES],
    denies: &mut [u64; Engine::PLACES],
    rolesets: &mut [u64; Engine::ROLE_SETS],
    product: usize,
    session: usize,
    root: usize,
    chosen: u64,
    flow: &mut usize,
    size: &mut u32,
    told: &mut Version,
) -> u64
    ensures { (mandates users : List ℕ) → Adds (engine_of (directory_of (tables_of roles.now readers.now forwards.now mandates) users version) (sessions_of opened counts.old roots.old reaches.old versions.old denies.old rolesets.old)) (Session (product_of product) (session_of product session) (Add root chosen)) (engine_of (directory_of (tables_of roles.now readers.now forwards.now mandates) users version) (sessions_of opened counts.new roots.new reaches.new versions.new denies.new rolesets.new)) result flow.old size.old told.old flow.new size.new told.new }
{
    let s = number_of(product, session);
    let a = addition::add(
        roles, readers, forwards, version, opened, counts, roots, reaches, versions, denies,
        rolesets, s, root, chosen,
    );
    if let Answer::Flow { number, reach, .. } = a {
        *flow = number;
        *size = reach;
    }
    tell(a, told)
}

// 0a and 0f: the constraint of the flow, with a role set for each of eight flows. In an engine that calls have led to,
// those past the flow itself are empty.
#[unsafe(no_mangle)]
pub extern "C" fn linkage_lent_show(
    opened: u64,
    counts: &[usize; Engine::ALL_SESSIONS],
    versions: &[Version; Engine::PLACES],
    denies: &[u64; Engine::PLACES],
    rolesets: &[u64; Engine::ROLE_SETS],
    product: usize,
    session: usize,
    flow: usize,
    told: &mut Version,
    deny: &mut u64,
    sets: &mut [u64; Engine::FLOWS],
) -> u64
    ensures { (roles readers forwards mandates users roots reaches : List ℕ) (version : ℕ) → Shows (engine_of (directory_of (tables_of roles readers forwards mandates) users version) (sessions_of opened counts.now roots reaches versions.now denies.now rolesets.now)) (product_of product) (session_of product session) flow result (constraint_of told.old deny.old sets.old) (constraint_of told.new deny.new sets.new) }
{
    let s = number_of(product, session);
    let a = sessions::show(opened, counts, s, flow);
    let n = answers::returned(a);
    if n != 0 {
        return n;
    }
    // What is granted is never without a place.
    let Some(at) = answers::place_to_show(a) else {
        return n;
    };
    *told = versions[at];
    *deny = denies[at];
    *sets = sessions::sets_at(rolesets, at);
    n
}

// The number of a product's session among those of both, by which a read names it; past them all where
// there is no such session or no such product.
#[unsafe(no_mangle)]
pub extern "C" fn linkage_session(product: usize, session: usize) -> usize
    ensures { result ≡ session_at (product_of product) (session_of product session) }
{
    number_of(product, session)
}

// 09 and 0e: whether the user may read the flow of the session of this number at the database. A read changes
// nothing. Its parameters stand as in the function that it hands them to, so that none has to be moved: moving
// them costs more than the read.
#[unsafe(no_mangle)]
pub extern "C" fn linkage_lent_read(
    roles: &[u64; Engine::USERS],
    readers: &[u64; Engine::DATABASES],
    mandates: &[u64; Engine::DATABASES],
    users: &[Version; Engine::USERS],
    opened: u64,
    counts: &[usize; Engine::ALL_SESSIONS],
    reaches: &[u64; Engine::PLACES],
    versions: &[Version; Engine::PLACES],
    denies: &[u64; Engine::PLACES],
    rolesets: &[u64; Engine::ROLE_SETS],
    user: usize,
    number: usize,
    flow: usize,
    database: usize,
) -> u64
    ensures { (forwards roots : List ℕ) (version : ℕ) → Judges (engine_of (directory_of (tables_of roles.now readers.now forwards mandates.now) users.now version) (sessions_of opened counts.now roots reaches.now versions.now denies.now rolesets.now)) user number flow database result }
{
    reading::number(
        roles, readers, mandates, users, opened, counts, reaches, versions, denies, rolesets, user,
        number, flow, database,
    )
}
