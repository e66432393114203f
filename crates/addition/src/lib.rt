// The call that adds a flow to a session. It is checked, carried out in place on lent arrays and
// answered in one function, which promises what the call's definition in `model` says. Its work runs in
// the order of `graph`: databases, roles, overlapping roles. A session has here its number among those
// of both products.
// Kept: tests one below the other, in the order of the refusal table. An `Answer` is no `Result`, so that no
// `?` goes through it.
#![tactic(auto)]

ghost use Rattle.std.specs.Prelude.{◌≡◌, List, ℕ, ◌<◌, ◌*◌};
ghost use Rattle.model.specs.Limits.{flow_count};
ghost use Rattle.model.specs.State.{all_sessions, place_count};
ghost use Rattle.model.specs.State.{tables_of, directory_of, sessions_of, deny_before};
ghost use Rattle.model.specs.Calls.{done, add};
ghost use Rattle.addition.specs.RoleSets.{sets_put};

use model::{Answer, Engine, Refusal, Version};

// The deny set of the last of n flows of session s; of none it is empty.
// Kept: the limits are asked of the caller, as with a place in `graph`.
#[tactic(auto, unfolding(model::specs::State::deny_before, model::specs::State::place))]
fn deny_before(denies: &[u64; Engine::PLACES], s: usize, n: usize) -> u64
    requires s_lt_all_sessions { s < all_sessions }
    requires n_lt_flow_count { n < flow_count }
    ensures { result ≡ deny_before denies.now s n }
{
    if n == 0 {
        return 0;
    }
    denies[s * Engine::FLOWS + (n - 1)]
}

// The flow at this place gets these role sets, one for each flow.
// Kept: the slice is cut here and where else a place's role sets are wanted, in two lines; the limit on the
// place is asked of the caller.
fn put_sets(rolesets: &mut [u64; Engine::ROLE_SETS], given: &[u64; Engine::FLOWS], at: usize)
    requires { at < place_count }
    ensures { rolesets.new ≡ sets_put given.now (at * flow_count) rolesets.old }
{
    let from = at * Engine::FLOWS;
    rolesets[from..from + Engine::FLOWS].copy_from_slice(given);
}

// 08 and 0d: session s gets a flow of this root, with these roles chosen.
// Kept: the arrays one by one, as the C interface lends them.
#[tactic(auto, unfolding(model::specs::Calls::add))]
pub fn add(
    roles: &[u64; Engine::USERS],
    readers: &[u64; Engine::DATABASES],
    forwards: &[u64; Engine::DATABASES],
    version: Version,
    opened: u64,
    counts: &mut [usize; Engine::ALL_SESSIONS],
    roots: &mut [usize; Engine::PLACES],
    reaches: &mut [u64; Engine::PLACES],
    versions: &mut [Version; Engine::PLACES],
    denies: &mut [u64; Engine::PLACES],
    rolesets: &mut [u64; Engine::ROLE_SETS],
    s: usize,
    root: usize,
    chosen: u64,
) -> Answer
    ensures { (mandates users : List ℕ) → done result (sessions_of opened counts.new roots.new reaches.new versions.new denies.new rolesets.new) ≡ add (directory_of (tables_of roles.now readers.now forwards.now mandates) users version) (sessions_of opened counts.old roots.old reaches.old versions.old denies.old rolesets.old) s root chosen }
{
    if Engine::ALL_SESSIONS <= s {
        return Answer::Refused(Refusal::AboveLimit);
    }
    if Engine::DATABASES <= root {
        return Answer::Refused(Refusal::AboveLimit);
    }
    if !sets::contains(opened, s) {
        return Answer::Refused(Refusal::NotOpen);
    }
    let number = counts[s];
    if Engine::FLOWS <= number {
        return Answer::Refused(Refusal::SessionFull);
    }
    let reach = graph::databases(forwards, root);
    let may = graph::roles_by_flow(readers, reaches, s, number, reach);
    if search::outside(chosen, search::conflicts(roles, &may[..number + 1])) {
        return Answer::Refused(Refusal::NotConflicting);
    }
    let deny = sets::union(deny_before(denies, s, number), chosen);
    let given = graph::overlapping_roles(roles, &may, deny);
    let at = s * Engine::FLOWS + number;
    put_sets(rolesets, &given, at);
    counts[s] = number + 1;
    roots[at] = root;
    reaches[at] = reach;
    versions[at] = version;
    denies[at] = deny;
    Answer::Flow {
        number,
        reach: sets::size(reach),
        version,
    }
}
