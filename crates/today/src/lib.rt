// The roles that conflict for the flows that a session has, by the tables of now. A query with 07 or 0c
// counts a new flow in; here none is.
//
// Every public function answers for any numbers: a session past the last one has no flows.
#![tactic(auto)]

ghost use Rattle.std.specs.Prelude.{◌≡◌};
ghost use Rattle.today.specs.Today.{flows_today, conflicts_today};

use model::{Engine, Sessions};
use tables::Tables;

// How many flows session s has, which has its number among those of both products.
#[tactic(auto, unfolding(crate::specs::Today::flows_today))]
pub fn flows_today(sessions: &Sessions, s: usize) -> usize
    ensures { result ≡ flows_today sessions.now s }
{
    let count = sessions.counts.get(s).copied();
    count.unwrap_or(0).min(Engine::FLOWS)
}

// The roles that conflict in session s today.
#[tactic(auto, using(crate::proofs::ByFlow::found, crate::proofs::ByFlow::at_most, search::proofs::Laws::conflicts_taken))]
pub fn conflicts_today(tables: &Tables, sessions: &Sessions, s: usize) -> u64
    ensures { result ≡ conflicts_today tables.now sessions.now s }
{
    let Tables { roles, readers, .. } = tables;
    let reaches = &sessions.reaches;
    let n = flows_today(sessions, s);
    let may = graph::roles_by_flow(readers, reaches, s, n, 0);
    search::conflicts(roles, &may[..n])
}
