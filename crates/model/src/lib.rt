// The linkage engine in definitions: what it keeps, what can be asked of it, what it answers, and
// what is promised of that. There is no code here but what makes an answer of a verdict and a refusal of
// its number: the crate `engine` has the rest.
#![tactic(auto)]

mod calls;
mod conversions;

pub use calls::{Answer, Ask, Call, Change, Product, Refusal, Verdict};
pub use conversions::NoSuchRow;
use tables::Tables;

// What versions are kept in.
pub type Version = u32;

// Who holds and may read what, and since when.
#[derive(Clone, Copy)]
pub struct Directory {
    pub tables: Tables,
    // Number u: the version of user u.
    pub versions: [Version; Engine::USERS],
    // The system version.
    pub version: Version,
}

// What was asked to be kept apart. The sessions of both products have their numbers here: first the
// server's, then the term bank's. Flow f of session number s has place s * FLOWS + f, and the role set
// of its constraint for flow g place (s * FLOWS + f) * FLOWS + g. What is not in use is zero.
// Kept: arrays beside one another and no array of structs, since a caller in C lends them one by one.
#[derive(Clone, Copy)]
pub struct Sessions {
    // The set of the open sessions.
    pub opened: u64,
    // Number s: how many flows session s has.
    pub counts: [usize; Engine::ALL_SESSIONS],
    pub roots: [usize; Engine::PLACES],
    pub reaches: [u64; Engine::PLACES],
    // The constraints: versions, deny sets, role sets.
    pub versions: [Version; Engine::PLACES],
    pub denies: [u64; Engine::PLACES],
    pub rolesets: [u64; Engine::ROLE_SETS],
}

#[derive(Clone, Copy)]
pub struct Engine {
    pub directory: Directory,
    pub sessions: Sessions,
}

// A flow's constraint, by value.
#[derive(Clone, Copy)]
pub struct Constraint {
    pub version: Version,
    pub deny: u64,
    // Number g: the role set of flow g, for the flows up to its own; nothing past that.
    pub roles: [u64; Engine::FLOWS],
}

impl Constraint {
    // What stands beside an answer that shows none.
    pub const NONE: Constraint = Constraint {
        version: 0,
        deny: 0,
        roles: [0; Engine::FLOWS],
    };
}

// A call's answer, and the engine after it.
#[derive(Clone, Copy)]
pub struct Changed {
    pub answer: Answer,
    pub engine: Engine,
}

// The answer to a question about a constraint, and the constraint, which is zero where it is refused.
// Kept: beside each other and no `Option`, since what stands beside a refusal is promised too.
#[derive(Clone, Copy)]
pub struct Shown {
    pub answer: Answer,
    pub constraint: Constraint,
}

impl Engine {
    pub const USERS: usize = Tables::USERS;

    pub const ROLES: usize = Tables::ROLES;

    pub const DATABASES: usize = Tables::DATABASES;

    pub const PRODUCTS: usize = 2;
    // Sessions of each product, and of all.
    pub const SESSIONS: usize = 16;

    pub const ALL_SESSIONS: usize = Self::PRODUCTS * Self::SESSIONS;

    pub const FLOWS: usize = 8;
    // Places for flows, in all sessions.
    pub const PLACES: usize = Self::ALL_SESSIONS * Self::FLOWS;
    // Places for role sets, in all constraints.
    pub const ROLE_SETS: usize = Self::PLACES * Self::FLOWS;

    pub const LAST_VERSION: Version = 4294967295;
}
