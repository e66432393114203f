// Any call, on the arrays of a whole engine. The calls stand in crates by what they are about:
// `assignment`, `permission`, `mandates`, `forwarding`, `sessions`, `addition`, `reading`.
#![tactic(auto)]

ghost use Rattle.std.specs.Prelude.{◌≡◌};
ghost use Rattle.model.specs.Limits.{last_version};
ghost use Rattle.model.specs.State.{session_at};
ghost use Rattle.model.specs.Calls.{returned, read, done, step};
ghost use Rattle.step.specs.Parts.{lent, Same};

use model::{Answer, Ask, Call, Change, Engine, Product, Refusal, Version};
pub use sessions::session_at;

// A whole engine in parts: who keeps them apart lends them one by one.
// Kept: who is lent them promises too, each time, that they are the same references afterwards (`Same`). No
// type says that of what it holds.
#[derive(Drop)]
pub struct Parts<'a> {
    pub roles: &'a mut [u64; Engine::USERS],
    pub readers: &'a mut [u64; Engine::DATABASES],
    pub forwards: &'a mut [u64; Engine::DATABASES],
    pub mandates: &'a mut [u64; Engine::DATABASES],
    pub users: &'a mut [Version; Engine::USERS],
    pub version: &'a mut Version,
    pub opened: &'a mut u64,
    pub counts: &'a mut [usize; Engine::ALL_SESSIONS],
    pub roots: &'a mut [usize; Engine::PLACES],
    pub reaches: &'a mut [u64; Engine::PLACES],
    pub versions: &'a mut [Version; Engine::PLACES],
    pub denies: &'a mut [u64; Engine::PLACES],
    pub rolesets: &'a mut [u64; Engine::ROLE_SETS],
}

impl Parts<'_> {
    // 09 and 0e: the number of a read's verdict, 0 where it is granted.
    // Kept: a number, as `reading::number` gives it.
    pub fn number(
        &self,
        product: Product,
        user: usize,
        session: usize,
        flow: usize,
        database: usize,
    ) -> u64
        ensures { result ≡ returned (read (lent self.now).directory (lent self.now).sessions user (session_at product session) flow database) }
    {
        let s = session_at(product, session);
        reading::number(
            self.roles,
            self.readers,
            self.mandates,
            self.users,
            *self.opened,
            self.counts,
            self.reaches,
            self.versions,
            self.denies,
            self.rolesets,
            user,
            s,
            flow,
            database,
        )
    }
}

// The parts of an engine that is lent whole.
// Kept as a macro: a function that handed them out would use the engine's `&mut` while they are lent, and is
// refused.
#[macro_export]
macro_rules! parts_of {
    ($engine:ident) => {
        $crate::Parts {
            roles: &mut $engine.directory.tables.roles,
            readers: &mut $engine.directory.tables.readers,
            forwards: &mut $engine.directory.tables.forwards,
            mandates: &mut $engine.directory.tables.mandates,
            users: &mut $engine.directory.versions,
            version: &mut $engine.directory.version,
            opened: &mut $engine.sessions.opened,
            counts: &mut $engine.sessions.counts,
            roots: &mut $engine.sessions.roots,
            reaches: &mut $engine.sessions.reaches,
            versions: &mut $engine.sessions.versions,
            denies: &mut $engine.sessions.denies,
            rolesets: &mut $engine.sessions.rolesets,
        }
    };
}

// Any change of the tables.
#[tactic(auto, unfolding(model::specs::Calls::step, model::specs::Calls::change))]
fn change(parts: &mut Parts<'_>, c: Change) -> Answer
    ensures value { done result (lent parts.new) ≡ step last_version (lent parts.old) (Call.Table c) }
    ensures same { Same parts.new parts.old }
{
    match c {
        Change::Assign { user, role } => {
            assignment::assign(parts.roles, parts.users, parts.version, user, role)
        }
        Change::Withdraw { user, role } => {
            assignment::withdraw(parts.roles, *parts.version, user, role)
        }
        Change::Permit { role, database } => permission::permit(
            parts.roles,
            parts.readers,
            parts.users,
            parts.version,
            role,
            database,
        ),
        Change::Revoke { role, database } => permission::revoke(
            parts.roles,
            parts.readers,
            parts.mandates,
            parts.users,
            parts.version,
            role,
            database,
        ),
        Change::Forward { from, to } => {
            forwarding::forward(parts.forwards, *parts.version, parts.counts, from, to)
        }
        Change::Mandate { role, database } => mandates::mandate(
            parts.readers,
            parts.mandates,
            *parts.version,
            role,
            database,
        ),
    }
}

// Anything that is asked of a product's session.
#[tactic(auto, unfolding(model::specs::Calls::step, model::specs::Calls::ask))]
fn ask(parts: &mut Parts<'_>, product: Product, session: usize, asked: Ask) -> Answer
    ensures value { done result (lent parts.new) ≡ step last_version (lent parts.old) (Call.Session product session asked) }
    ensures same { Same parts.new parts.old }
{
    let s = session_at(product, session);
    match asked {
        Ask::Open => sessions::open_session(parts.opened, *parts.version, s),
        Ask::Conflicting { root } => sessions::conflicting(
            parts.roles,
            parts.readers,
            parts.forwards,
            *parts.opened,
            parts.counts,
            parts.reaches,
            s,
            root,
        ),
        Ask::Add { root, chosen } => addition::add(
            parts.roles,
            parts.readers,
            parts.forwards,
            *parts.version,
            *parts.opened,
            parts.counts,
            parts.roots,
            parts.reaches,
            parts.versions,
            parts.denies,
            parts.rolesets,
            s,
            root,
            chosen,
        ),
        Ask::Show { flow } => sessions::show(*parts.opened, parts.counts, s, flow),
    }
}

// One call: checked, carried out and answered.
#[tactic(auto, using(verdict::proofs::Laws::back), unfolding(model::specs::Calls::step, model::specs::Calls::answer_of))]
pub fn step(parts: &mut Parts<'_>, call: Call) -> Answer
    ensures value { done result (lent parts.new) ≡ step last_version (lent parts.old) call }
    ensures same { Same parts.new parts.old }
{
    match call {
        Call::Table(c) => change(parts, c),
        Call::Session {
            product,
            session,
            ask: asked,
        } => ask(parts, product, session, asked),
        Call::Read {
            product,
            user,
            session,
            flow,
            database,
        } => {
            let number = parts.number(product, user, session, flow, database);
            Answer::from(verdict::verdict_by(number))
        }
        Call::Unreadable => Answer::Refused(Refusal::Malformed),
    }
}
