// The audit flow graph of source document 000, section 3.2: its three steps, in its order. Of a graph
// the vertices are kept, as sets: databases, then roles, then overlapping roles. Each step's result is
// what document 01 defines, for any arguments.
#![tactic(auto)]

ghost use Rattle.std.specs.Prelude.{◌≡◌, ◌<◌};
ghost use Rattle.rows.specs.Reach.{reach};
ghost use Rattle.tables.specs.Tables.{role_count, database_count, readers_of};
ghost use Rattle.model.specs.Limits.{flow_count};
ghost use Rattle.model.specs.State.{all_sessions, reach_with};
ghost use Rattle.graph.specs.Graph.{roles_by_flow, overlapping_by_flow};

use model::Engine;
use std::array;
use tables::lent;

// "1. Adding databases": the root, and from it on all databases that the record is forwarded to.
// Document 01: the reach of a flow.
pub fn databases(forwards: &[u64; Engine::DATABASES], root: usize) -> u64
    ensures { result ≡ reach database_count forwards.now root }
{
    lent::reach(forwards, root)
}

// "2. Adding roles": who may read one of these databases. Document 01: the roles that may read a database
// in the reach.
pub fn roles(readers: &[u64; Engine::DATABASES], databases: u64) -> u64
    ensures { result ≡ readers_of role_count database_count readers.now databases }
{
    lent::readers(readers, databases)
}

// The databases of flow g of session s, which has n flows, with a new one counted in as the next one:
// older flows keep those of their addition. None where there is no such flow.
// Kept: `new` is the empty set where no flow is counted in, and no `None`: a flow that reaches no database.
// Kept: a session and a flow within their limits are asked of the caller, here and where else a place is
// worked out. A public function for the place would have to answer for any numbers, and each caller has
// tested them.
#[tactic(auto, unfolding(model::specs::State::reach_with, model::specs::State::place))]
fn databases_with(reaches: &[u64; Engine::PLACES], s: usize, n: usize, new: u64, g: usize) -> u64
    requires s_lt_all_sessions { s < all_sessions }
    requires g_lt_flow_count { g < flow_count }
    ensures { result ≡ reach_with reaches.now s n new g }
{
    if g < n {
        return reaches[s * Engine::FLOWS + g];
    }
    if g == n {
        return new;
    }
    0
}

// Step 2 for each flow of session s, which has its number among those of both products, with a new flow
// counted in; nobody where there is no such session. (A slice of reaches in place of their array costs a
// tenth of the time of a mixed list.)
// Kept: an array of as many as there may be, of which a caller takes those that it wants.
#[tactic(auto, unfolding(crate::specs::Graph::roles_by_flow))]
pub fn roles_by_flow(
    readers: &[u64; Engine::DATABASES],
    reaches: &[u64; Engine::PLACES],
    s: usize,
    n: usize,
    new: u64,
) -> [u64; Engine::FLOWS]
    ensures { result ≡ roles_by_flow readers.now reaches.now s n new }
{
    if Engine::ALL_SESSIONS <= s {
        return [0; Engine::FLOWS];
    }
    array::from_fn(|g| roles(readers, databases_with(reaches, s, n, new, g)))
}

// "3. Adding overlapping roles", for each flow: of its roles, those that are a parent of a role in the
// deny set. Document 01: the role set for that flow. Who is a parent is the same for every flow, and
// looked for once.
pub fn overlapping_roles(
    held: &[u64; Engine::USERS],
    roles: &[u64; Engine::FLOWS],
    deny: u64,
) -> [u64; Engine::FLOWS]
    ensures { result ≡ overlapping_by_flow held.now roles.now deny }
{
    let parents = lent::parents(held, deny);
    roles.map(|of_flow| sets::intersection(of_flow, parents))
}
