// The tables on lent rows, for a caller that keeps its tables and wants no copy made.
use super::Tables;
// What is asked and changed of one table alone.
ghost use Rattle.std.specs.Prelude.{◌≡◌};
ghost use Rattle.tables.specs.Tables.{user_count, role_count, database_count};
ghost use Rattle.tables.specs.Tables.{held_by, parents_of, readers_of, statically_reads};

pub use rows::{enter, reach, row, strike, there};

// Whether anybody holds role r.
// Kept: a loop, since with `any` in its place a list `mixed` takes a tenth more time.
pub fn held(roles: &[u64; Tables::USERS], r: usize) -> bool
    ensures { result ≡ held_by user_count roles.now r }
{
    for row in roles {
        if sets::contains(*row, r) {
            return true;
        }
    }
    false
}

// The roles that may read some database of s.
pub fn readers(readers: &[u64; Tables::DATABASES], s: u64) -> u64
    ensures { result ≡ readers_of role_count database_count readers.now s }
{
    rows::image(readers, s)
}

// Whether user u may statically read the databases of s.
#[tactic(auto, using(crate::proofs::Laws::meets_readers))]
pub fn reads(roles: &[u64], readers: &[u64; Tables::DATABASES], u: usize, s: u64) -> bool
    ensures { result ≡ statically_reads role_count database_count roles.now readers.now u s }
{
    let may = rows::image(readers, s);
    sets::meets(row(roles, u), may)
}

// The parents of the roles of s.
pub fn parents(roles: &[u64; Tables::USERS], s: u64) -> u64
    ensures { result ≡ parents_of role_count user_count roles.now s }
{
    let mut found = 0;
    for row in roles {
        if sets::meets(*row, s) {
            found = sets::union(found, *row);
        }
    }
    found
}
