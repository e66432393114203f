// A read: checked and answered. Its session has here its number among those of both products.
// Kept: tests one below the other, in the order of the refusal table; what comes back is a number.
#![tactic(auto)]

ghost use Rattle.std.specs.Prelude.{◌≡◌, List, ℕ, ◌<◌, ◌+◌, ◌*◌, get_or};
ghost use Rattle.tables.specs.Tables.{role_count};
ghost use Rattle.model.specs.Limits.{flow_count};
ghost use Rattle.model.specs.State.{place_count};
ghost use Rattle.model.specs.State.{tables_of, directory_of, sessions_of, linkable};
ghost use Rattle.model.specs.Calls.{returned, read};

use model::{Engine, Refusal, Version};
use tables::lent;

// Whether these roles meet the deny set and two of the role sets of the flow at this place. All of
// its role sets are looked at: a branch that leaves early costs more than they do.
//
// Kept: the count. With `filter` and `count` a list `reads` takes 22 in 100 more instructions and twice
// the time. And the limit on the place, which is asked of the caller.
#[tactic(auto, using(sets::proofs::Laws::count_none, sets::proofs::Laws::counted, sets::proofs::Laws::uncounted))]
fn links(rolesets: &[u64; Engine::ROLE_SETS], deny: u64, held: u64, at: usize) -> bool
    requires { at < place_count }
    ensures { result ≡ linkable role_count flow_count held deny (λ g. get_or rolesets.now (at * flow_count + g) 0) }
{
    let first = at * Engine::FLOWS;
    let of_flow = &rolesets[first..first + Engine::FLOWS];
    let mut met = 0usize;
    for set in of_flow {
        if sets::meets(held, *set) {
            met += 1;
        }
    }
    sets::meets(held, deny) & (2 <= met)
}

// 09 and 0e: user u reads flow f of session s at database d. The answer is its number, 0 where the read
// is granted. The tests of the last four rows, and whether the read is by duty, are all made, with no
// branch between them: mispredicted branches cost a read more than the tests do.
//
// Kept: the answer is a number and not the enum, which costs a read a quarter more and which the C
// interface would turn into the number. The arrays come one by one, as that interface lends them.
// Inlined always: a stream's loop in the library then moves no fourteen parameters for a read.
#[inline(always)]
#[tactic(auto, unfolding(model::specs::Calls::read, model::specs::Calls::returned, model::specs::Calls::number_of, model::specs::Calls::by_duty, model::specs::Calls::links, model::specs::State::roleset_at, model::specs::State::set_place, model::specs::State::place))]
pub fn number(
    roles: &[u64; Engine::USERS],
    readers: &[u64; Engine::DATABASES],
    mandates: &[u64; Engine::DATABASES],
    users: &[Version; Engine::USERS],
    opened: u64,
    counts: &[usize; Engine::ALL_SESSIONS],
    reaches: &[u64; Engine::PLACES],
    versions: &[Version; Engine::PLACES],
    denies: &[u64; Engine::PLACES],
    rolesets: &[u64; Engine::ROLE_SETS],
    u: usize,
    s: usize,
    f: usize,
    d: usize,
) -> u64
    ensures { (forwards : List ℕ) (version : ℕ) (roots : List ℕ) → result ≡ returned (read (directory_of (tables_of roles.now readers.now forwards mandates.now) users.now version) (sessions_of opened counts.now roots reaches.now versions.now denies.now rolesets.now) u s f d) }
{
    if Engine::USERS <= u {
        return Refusal::AboveLimit as u64;
    }
    if Engine::DATABASES <= d {
        return Refusal::AboveLimit as u64;
    }
    if Engine::ALL_SESSIONS <= s {
        return Refusal::AboveLimit as u64;
    }
    if Engine::FLOWS <= f {
        return Refusal::AboveLimit as u64;
    }
    if !sets::contains(opened, s) {
        return Refusal::NotOpen as u64;
    }
    if counts[s] <= f {
        return Refusal::NoSuchFlow as u64;
    }
    let at = s * Engine::FLOWS + f;
    let held = lent::row(roles, u);
    let out_of_reach = !sets::contains(reaches[at], d);
    let no_permission = !sets::meets(held, lent::row(readers, d));
    let by_duty = sets::meets(held, lent::row(mandates, d));
    let changed = versions[at] < users[u];
    let linkable = links(rolesets, denies[at], held, at);
    verdict::first_of(out_of_reach, no_permission, by_duty, changed, linkable)
}
