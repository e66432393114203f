// The four tables: who holds which role, which role may read which database, which database forwards
// to which, and which role has a mandate at which database. What is asked and changed is in `lent`, on
// rows that are lent; `tables_by_value` has it for tables by value.
//
// Every function answers for any numbers: above its limit nothing is there, and nothing changes.
#![tactic(auto)]

pub mod lent;

#[derive(Clone, Copy)]
pub struct Tables {
    // Row u: the roles that user u holds.
    pub roles: [u64; Tables::USERS],
    // Row d: the roles that may read database d, so that a read looks at one row.
    pub readers: [u64; Tables::DATABASES],
    // Row d: the databases that d forwards to.
    pub forwards: [u64; Tables::DATABASES],
    // Row d: the roles that have a mandate at database d, as with readers.
    pub mandates: [u64; Tables::DATABASES],
}

impl Tables {
    pub const USERS: usize = 256;

    pub const ROLES: usize = 64;

    pub const DATABASES: usize = 64;
}
