// What can be asked of an engine, in the groups of those who may ask it, and what is answered.
use super::Version;

// A change of the tables.
#[derive(Clone, Copy, PartialEq, Eq, Debug)]
pub enum Change {
    Assign { user: usize, role: usize },
    Withdraw { user: usize, role: usize },
    Permit { role: usize, database: usize },
    Revoke { role: usize, database: usize },
    Forward { from: usize, to: usize },
    Mandate { role: usize, database: usize },
}

// The products on one directory. Each has sessions of its own.
#[derive(Clone, Copy, PartialEq, Eq, Debug)]
pub enum Product {
    Server,
    TermBank,
}

// What is asked of a session.
#[derive(Clone, Copy, PartialEq, Eq, Debug)]
pub enum Ask {
    Open,
    Conflicting { root: usize },
    Add { root: usize, chosen: u64 },
    Show { flow: usize },
}

// A call, with the numbers of its frame, or what is no frame.
#[derive(Clone, Copy, PartialEq, Eq, Debug)]
pub enum Call {
    Table(Change),
    Session {
        product: Product,
        session: usize,
        ask: Ask,
    },
    Read {
        product: Product,
        user: usize,
        session: usize,
        flow: usize,
        database: usize,
    },
    Unreadable,
}

// The rows of the refusal table, with their numbers.
#[derive(Clone, Copy, PartialEq, Eq, Debug)]
pub enum Refusal {
    Malformed = 1,
    AboveLimit = 2,
    AlreadyThere = 3,
    NotThere = 4,
    FlowAdded = 5,
    NotOpen = 6,
    SessionFull = 7,
    NotConflicting = 8,
    VersionsSpent = 9,
    NoSuchFlow = 10,
    OutOfReach = 11,
    NoPermission = 12,
    Changed = 13,
    Linkable = 14,
    Mandated = 15,
}

// The answer to a read. Kept: an enum and no `Result`, since document 01 names the enum of a read.
#[derive(Clone, Copy, PartialEq, Eq, Debug)]
pub enum Verdict {
    Granted,
    Refused(Refusal),
}

// The answer to any call.
#[derive(Clone, Copy, PartialEq, Eq, Debug)]
pub enum Answer {
    // The system version, to a change of the tables or an opening.
    Version(Version),
    // The conflicting roles.
    Roles(u64),
    // A flow was added: its number, how many databases are in its reach, its version.
    Flow {
        number: usize,
        reach: u32,
        version: Version,
    },
    // A read was granted.
    Granted,
    // The constraint of this flow is shown; the session has its number among those of both products.
    Constraint {
        session: usize,
        flow: usize,
    },
    Refused(Refusal),
}
