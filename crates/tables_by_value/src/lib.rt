// The tables by value, for who keeps tables and lends nothing: each change gives the tables after it.
// Who lends the rows takes `tables::lent`.
//
// Every function answers for any numbers: above its limit nothing is there, and nothing changes.
#![tactic(auto)]

ghost use Rattle.std.specs.Prelude.{◌≡◌};
ghost use Rattle.sets.specs.Sets.{size_of};
ghost use Rattle.rows.specs.Reach.{reach};
ghost use Rattle.tables.specs.Tables.{user_count, role_count, database_count};
ghost use Rattle.tables.specs.Tables.{fresh, holds, may_read, forwards_to, has_mandate};
ghost use Rattle.tables.specs.Tables.{assigned, withdrawn, permitted, revoked, forwarded, unforwarded, mandated};
ghost use Rattle.tables.specs.Tables.{held_by, parents_of, readers_of, statically_reads};

pub use tables::Tables;
use tables::lent;

// Tables with nothing in them.
#[tactic(auto, unfolding(tables::specs::Tables::fresh))]
pub fn empty() -> Tables
    ensures { result ≡ fresh }
{
    Tables {
        roles: [0; Tables::USERS],
        readers: [0; Tables::DATABASES],
        forwards: [0; Tables::DATABASES],
        mandates: [0; Tables::DATABASES],
    }
}

// Kept: each change, and each question further down, is one call on its own table. A function of them all,
// which takes the table and the call as closures, would say the same in more lines.

// User u gets role r.
#[tactic(auto, unfolding(tables::specs::Tables::assigned, tables::specs::Tables::with_roles))]
pub fn assign(mut t: Tables, u: usize, r: usize) -> Tables
    ensures { result ≡ assigned t u r }
{
    lent::enter(&mut t.roles, u, r);
    t
}

// User u loses role r.
#[tactic(auto, unfolding(tables::specs::Tables::withdrawn, tables::specs::Tables::with_roles))]
pub fn withdraw(mut t: Tables, u: usize, r: usize) -> Tables
    ensures { result ≡ withdrawn t u r }
{
    lent::strike(&mut t.roles, u, r);
    t
}

// Role r may read database d from now on.
#[tactic(auto, unfolding(tables::specs::Tables::permitted, tables::specs::Tables::with_readers))]
pub fn permit(mut t: Tables, r: usize, d: usize) -> Tables
    ensures { result ≡ permitted t r d }
{
    lent::enter(&mut t.readers, d, r);
    t
}

// Role r may not read database d any more.
#[tactic(auto, unfolding(tables::specs::Tables::revoked, tables::specs::Tables::with_readers))]
pub fn revoke(mut t: Tables, r: usize, d: usize) -> Tables
    ensures { result ≡ revoked t r d }
{
    lent::strike(&mut t.readers, d, r);
    t
}

// Database d forwards to database e from now on.
#[tactic(auto, unfolding(tables::specs::Tables::forwarded, tables::specs::Tables::with_forwards))]
pub fn forward(mut t: Tables, d: usize, e: usize) -> Tables
    ensures { result ≡ forwarded t d e }
{
    lent::enter(&mut t.forwards, d, e);
    t
}

// Database d does not forward to database e any more.
#[tactic(auto, unfolding(tables::specs::Tables::unforwarded, tables::specs::Tables::with_forwards))]
pub fn unforward(mut t: Tables, d: usize, e: usize) -> Tables
    ensures { result ≡ unforwarded t d e }
{
    lent::strike(&mut t.forwards, d, e);
    t
}

// Role r has a mandate at database d from now on.
#[tactic(auto, unfolding(tables::specs::Tables::mandated, tables::specs::Tables::with_mandates))]
pub fn mandate(mut t: Tables, r: usize, d: usize) -> Tables
    ensures { result ≡ mandated t r d }
{
    lent::enter(&mut t.mandates, d, r);
    t
}

// Whether user u holds role r.
pub fn holds(t: Tables, u: usize, r: usize) -> bool
    ensures { result ≡ holds t u r }
{
    lent::there(&t.roles, u, r)
}

// Whether role r may read database d.
pub fn may_read(t: Tables, r: usize, d: usize) -> bool
    ensures { result ≡ may_read t r d }
{
    lent::there(&t.readers, d, r)
}

// Whether database d forwards to database e.
pub fn forwards_to(t: Tables, d: usize, e: usize) -> bool
    ensures { result ≡ forwards_to t d e }
{
    lent::there(&t.forwards, d, e)
}

// Whether role r has a mandate at database d.
pub fn has_mandate(t: Tables, r: usize, d: usize) -> bool
    ensures { result ≡ has_mandate t r d }
{
    lent::there(&t.mandates, d, r)
}

// Whether anybody holds role r.
pub fn held(t: Tables, r: usize) -> bool
    ensures { result ≡ held_by user_count t.roles r }
{
    lent::held(&t.roles, r)
}

// The reach of a root: the root and every database that forwarding leads to.
pub fn reach(t: Tables, root: usize) -> u64
    ensures { result ≡ reach database_count t.forwards root }
{
    lent::reach(&t.forwards, root)
}

// How many databases are in the reach of a root.
pub fn reach_size(t: Tables, root: usize) -> u32
    ensures { result ≡ size_of database_count (reach database_count t.forwards root) }
{
    sets::size(reach(t, root))
}

// The roles that may read some database of s.
pub fn readers(t: Tables, s: u64) -> u64
    ensures { result ≡ readers_of role_count database_count t.readers s }
{
    lent::readers(&t.readers, s)
}

// Whether user u may statically read the databases of s.
pub fn reads(t: Tables, u: usize, s: u64) -> bool
    ensures { result ≡ statically_reads role_count database_count t.roles t.readers u s }
{
    lent::reads(&t.roles, &t.readers, u, s)
}

// The parents of the roles of s.
pub fn parents(t: Tables, s: u64) -> u64
    ensures { result ≡ parents_of role_count user_count t.roles s }
{
    lent::parents(&t.roles, s)
}
