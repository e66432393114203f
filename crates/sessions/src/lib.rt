// What is asked of sessions, but for new flows, which are in `addition`. Each call is checked, carried
// out in place on lent arrays and answered in one function, which promises what the call's definition in
// `model` says. A session has here its number among those of both products, which `session_at` gives.
// Kept: tests one below the other, in the order of the refusal table. An `Answer` is no `Result`, so that no
// `?` goes through it.
#![tactic(auto)]

ghost use Rattle.std.specs.Prelude.{◌≡◌, List, ℕ, ◌+◌, ◌*◌, get_or, replicate};
ghost use Rattle.model.specs.Limits.{flow_count};
ghost use Rattle.model.specs.State.{session_at, filled, tables_of, sessions_of};
ghost use Rattle.model.specs.Calls.{done, open_session, conflicting, show};

use model::{Answer, Engine, Product, Refusal, Version};

// The number of a product's session among those of both; past them all where it is above its limit.
// Kept: a number past the last and no `Option`, since row 2 of each call refuses it by its limit.
#[tactic(auto, unfolding(model::specs::State::session_at, model::specs::State::first_of))]
pub fn session_at(product: Product, session: usize) -> usize
    ensures { result ≡ session_at product session }
{
    if Engine::SESSIONS <= session {
        return Engine::ALL_SESSIONS;
    }
    match product {
        Product::Server => session,
        Product::TermBank => Engine::SESSIONS + session,
    }
}

// 06 and 0b: session s is opened.
#[tactic(auto, unfolding(model::specs::Calls::open_session))]
pub fn open_session(opened: &mut u64, version: Version, s: usize) -> Answer
    ensures { (counts roots reaches versions denies rolesets : List ℕ) → done result (sessions_of opened.new counts roots reaches versions denies rolesets) ≡ open_session version (sessions_of opened.old counts roots reaches versions denies rolesets) s }
{
    if Engine::ALL_SESSIONS <= s {
        return Answer::Refused(Refusal::AboveLimit);
    }
    if sets::contains(*opened, s) {
        return Answer::Refused(Refusal::AlreadyThere);
    }
    *opened = sets::insert(*opened, s);
    Answer::Version(version)
}

// 07 and 0c: the conflicting roles of session s, with a flow of this root counted in but not added.
#[tactic(auto, unfolding(model::specs::Calls::conflicting))]
pub fn conflicting(
    roles: &[u64; Engine::USERS],
    readers: &[u64; Engine::DATABASES],
    forwards: &[u64; Engine::DATABASES],
    opened: u64,
    counts: &[usize; Engine::ALL_SESSIONS],
    reaches: &[u64; Engine::PLACES],
    s: usize,
    root: usize,
) -> Answer
    ensures { (mandates roots versions denies rolesets : List ℕ) → result ≡ conflicting (tables_of roles.now readers.now forwards.now mandates) (sessions_of opened counts.now roots reaches.now versions denies rolesets) s root }
{
    if Engine::ALL_SESSIONS <= s {
        return Answer::Refused(Refusal::AboveLimit);
    }
    if Engine::DATABASES <= root {
        return Answer::Refused(Refusal::AboveLimit);
    }
    if !sets::contains(opened, s) {
        return Answer::Refused(Refusal::NotOpen);
    }
    let n = counts[s];
    if Engine::FLOWS <= n {
        return Answer::Refused(Refusal::SessionFull);
    }
    let new = graph::databases(forwards, root);
    let may = graph::roles_by_flow(readers, reaches, s, n, new);
    Answer::Roles(search::conflicts(roles, &may[..n + 1]))
}

// 0a and 0f: the constraint of flow f of session s is shown, where there is one.
#[tactic(auto, unfolding(model::specs::Calls::show))]
pub fn show(opened: u64, counts: &[usize; Engine::ALL_SESSIONS], s: usize, f: usize) -> Answer
    ensures { (roots reaches versions denies rolesets : List ℕ) → result ≡ show (sessions_of opened counts.now roots reaches versions denies rolesets) s f }
{
    if Engine::ALL_SESSIONS <= s {
        return Answer::Refused(Refusal::AboveLimit);
    }
    if Engine::FLOWS <= f {
        return Answer::Refused(Refusal::AboveLimit);
    }
    if !sets::contains(opened, s) {
        return Answer::Refused(Refusal::NotOpen);
    }
    if counts[s] <= f {
        return Answer::Refused(Refusal::NoSuchFlow);
    }
    Answer::Constraint {
        session: s,
        flow: f,
    }
}

// The role sets of the constraint at a place, one for each flow. Past the last place they are empty.
pub fn sets_at(rolesets: &[u64; Engine::ROLE_SETS], at: usize) -> [u64; Engine::FLOWS]
    ensures { result ≡ filled 0 (λ g. get_or rolesets.now (at * flow_count + g) 0) flow_count (replicate flow_count 0) }
{
    let mut sets = [0; Engine::FLOWS];
    if at < Engine::PLACES {
        let from = at * Engine::FLOWS;
        sets.copy_from_slice(&rolesets[from..from + Engine::FLOWS]);
    }
    sets
}
