// Tries the tables: a fixed list of changes and questions, one answer a line, in hexadecimal.
// A yes is 1 and a no is 0.
#![tactic(auto)]

use tables_by_value::{
    Tables, assign, empty, forward, forwards_to, has_mandate, held, holds, mandate, may_read,
    parents, permit, reach, reach_size, readers, reads, revoke, unforward, withdraw,
};

// Every number that a set can hold.
const ALL: u64 = u64::MAX;

fn main(rt: HostRuntime) {
    let t = worked();
    limits(rt);
    flows(rt, t);
    pairs(rt, t);
    chain(rt, t);
    withdrawn(rt, t);
    undone(rt, t);
    nothing_there(rt, t);
    nothing_entered(rt, t);
    nothing_struck(rt, t);
    mandates(rt, t);
}

// User 1 holds roles 0, 1 and 2, and user 2 role 0. Role 0 may read database 0, and role 1
// database 1, which forwards to 2.
fn worked() -> Tables {
    let t = empty();
    let t = assign(t, 1, 0);
    let t = assign(t, 1, 1);
    let t = assign(t, 1, 2);
    let t = assign(t, 2, 0);
    let t = permit(t, 0, 0);
    let t = permit(t, 1, 1);
    forward(t, 1, 2)
}

// How many users, roles and databases there are.
fn limits(rt: HostRuntime) {
    line(rt, Tables::USERS as u64);
    line(rt, Tables::ROLES as u64);
    line(rt, Tables::DATABASES as u64);
}

// The reach of 0 and of 1, each with its size. Who may read the reach of 1: the roles, then user 1
// and user 2. The parents of role 2.
fn flows(rt: HostRuntime, t: Tables) {
    line(rt, reach(t, 0));
    line(rt, reach_size(t, 0));
    line(rt, reach(t, 1));
    line(rt, reach_size(t, 1));
    let s = reach(t, 1);
    line(rt, readers(t, s));
    line(rt, reads(t, 1, s));
    line(rt, reads(t, 2, s));
    line(rt, parents(t, 4));
}

// Each table asked for a pair that is there and for one that is not; a role that somebody holds,
// and one that nobody does.
fn pairs(rt: HostRuntime, t: Tables) {
    line(rt, holds(t, 1, 2));
    line(rt, holds(t, 2, 2));
    line(rt, may_read(t, 1, 1));
    line(rt, may_read(t, 1, 0));
    line(rt, forwards_to(t, 1, 2));
    line(rt, forwards_to(t, 2, 1));
    line(rt, held(t, 2));
    line(rt, held(t, 3));
}

// 3 forwards to 4, and so on to 63: the reach of 3 and of 63. Then 63 forwards to 3: both again.
// Then 0 forwards to 1, and 2 to 3, so that the last database is 63 steps from 0.
fn chain(rt: HostRuntime, t: Tables) {
    let t = linked(t);
    line(rt, reach(t, 3));
    line(rt, reach_size(t, 3));
    line(rt, reach(t, 63));
    let t = forward(t, 63, 3);
    line(rt, reach(t, 3));
    line(rt, reach_size(t, 3));
    line(rt, reach(t, 63));
    let t = forward(t, 0, 1);
    let t = forward(t, 2, 3);
    line(rt, reach(t, 0));
    line(rt, reach_size(t, 0));
}

// The tables in which also each database from 3 to 62 forwards to the next.
fn linked(mut t: Tables) -> Tables {
    for d in 3..63 {
        t = forward(t, d, d + 1);
    }
    t
}

// User 1 loses role 2: nobody holds it, so it has no parent. The user's other roles stay.
fn withdrawn(rt: HostRuntime, t: Tables) {
    let t = withdraw(t, 1, 2);
    line(rt, holds(t, 1, 2));
    line(rt, held(t, 2));
    line(rt, parents(t, 4));
    line(rt, parents(t, 1));
}

// Role 1 may not read database 1 any more: nobody may read the reach of 1, and role 0 still reads
// database 0. Then 1 does not forward to 2 any more: the reach of 1 is its root.
fn undone(rt: HostRuntime, t: Tables) {
    let t = revoke(t, 1, 1);
    line(rt, may_read(t, 1, 1));
    let s = reach(t, 1);
    line(rt, readers(t, s));
    line(rt, reads(t, 1, s));
    line(rt, may_read(t, 0, 0));
    let t = unforward(t, 1, 2);
    line(rt, forwards_to(t, 1, 2));
    line(rt, reach(t, 1));
    line(rt, reach_size(t, 1));
}

// Above the limits nothing is there, also where the number less the limit is.
fn nothing_there(rt: HostRuntime, t: Tables) {
    line(rt, holds(t, 1, 64));
    line(rt, holds(t, 256, 0));
    line(rt, holds(t, 257, 0));
    line(rt, may_read(t, 64, 0));
    line(rt, may_read(t, 0, 64));
    line(rt, forwards_to(t, 65, 2));
    line(rt, forwards_to(t, 1, 66));
    line(rt, held(t, 64));
    line(rt, reach(t, 64));
    line(rt, reach_size(t, 64));
    line(rt, reads(t, 257, ALL));
}

// Above the limits nothing is entered, nor at the number less the limit. All parents, all readers
// and the reach of 0 and of 1 are as before.
fn nothing_entered(rt: HostRuntime, t: Tables) {
    let t = assign(t, 3, 64);
    line(rt, holds(t, 3, 0));
    let t = assign(t, 256, 3);
    line(rt, held(t, 3));
    let t = permit(t, 64, 2);
    line(rt, may_read(t, 0, 2));
    let t = permit(t, 3, 64);
    line(rt, may_read(t, 3, 0));
    let t = forward(t, 64, 5);
    line(rt, forwards_to(t, 0, 5));
    let t = forward(t, 0, 64);
    line(rt, forwards_to(t, 0, 0));
    line(rt, parents(t, ALL));
    line(rt, readers(t, ALL));
    line(rt, reach(t, 0));
    line(rt, reach(t, 1));
}

// Above the limits nothing is struck out, nor at the number less the limit.
fn nothing_struck(rt: HostRuntime, t: Tables) {
    let t = withdraw(t, 1, 64);
    line(rt, holds(t, 1, 0));
    let t = withdraw(t, 257, 1);
    line(rt, holds(t, 1, 1));
    let t = revoke(t, 64, 0);
    line(rt, may_read(t, 0, 0));
    let t = revoke(t, 1, 65);
    line(rt, may_read(t, 1, 1));
    let t = unforward(t, 65, 2);
    line(rt, forwards_to(t, 1, 2));
    let t = unforward(t, 1, 66);
    line(rt, forwards_to(t, 1, 2));
}

// Role 1 gets a mandate at database 1, and role 2, which may not read it, at database 0: each asked for
// before and after, then two pairs that are not there. Above the limits nothing is there and nothing is
// entered, nor at the number less the limit. The other tables are as before: all parents, all readers,
// the reach of 0 and of 1. Then role 1 may not read database 1 any more, and its mandate stays.
fn mandates(rt: HostRuntime, t: Tables) {
    line(rt, has_mandate(t, 1, 1));
    let t = mandate(t, 1, 1);
    line(rt, has_mandate(t, 1, 1));
    line(rt, has_mandate(t, 2, 0));
    let t = mandate(t, 2, 0);
    line(rt, has_mandate(t, 2, 0));
    line(rt, has_mandate(t, 0, 1));
    line(rt, has_mandate(t, 1, 0));
    line(rt, has_mandate(t, 65, 1));
    line(rt, has_mandate(t, 1, 65));
    let t = mandate(t, 64, 1);
    line(rt, has_mandate(t, 0, 1));
    let t = mandate(t, 0, 64);
    line(rt, has_mandate(t, 0, 0));
    line(rt, parents(t, ALL));
    line(rt, readers(t, ALL));
    line(rt, reach(t, 0));
    line(rt, reach(t, 1));
    let t = revoke(t, 1, 1);
    line(rt, may_read(t, 1, 1));
    line(rt, has_mandate(t, 1, 1));
}

// A number, or a yes or no as one. Where a line can't be written there is nobody to tell.
fn line<N>(rt: HostRuntime, n: N)
where
    u64: From<N>,
{
    let n = u64::from(n);
    let _ = println!(rt; "{n:016x}");
}
