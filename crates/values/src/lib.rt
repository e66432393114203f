// The engine by value where no array is changed in place: a fresh engine, and a constraint that is shown.
// A session has here its number among those of both products.
#![tactic(auto)]

ghost use Rattle.std.specs.Prelude.{◌≡◌, ◌<◌};
ghost use Rattle.model.specs.Limits.{flow_count};
ghost use Rattle.model.specs.State.{all_sessions, fresh};
ghost use Rattle.model.specs.Calls.{constraint_at, shown_at};

use model::{Answer, Constraint, Directory, Engine, Sessions, Shown};

// An engine with empty tables and no open session.
pub fn fresh() -> Engine
    ensures { result ≡ fresh }
{
    let tables = tables_by_value::empty();
    let directory = Directory {
        tables,
        versions: [0; Engine::USERS],
        version: 0,
    };
    let sessions = Sessions {
        opened: 0,
        counts: [0; Engine::ALL_SESSIONS],
        roots: [0; Engine::PLACES],
        reaches: [0; Engine::PLACES],
        versions: [0; Engine::PLACES],
        denies: [0; Engine::PLACES],
        rolesets: [0; Engine::ROLE_SETS],
    };
    Engine {
        directory,
        sessions,
    }
}

// The constraint of flow f of session s.
// Kept: the limits are asked of the caller, as with a place in `graph`.
#[tactic(auto, unfolding(model::specs::Calls::constraint_at, model::specs::State::place, model::specs::State::set_place, model::specs::State::roleset_at))]
fn constraint_at(kept: Sessions, s: usize, f: usize) -> Constraint
    requires s_lt_all_sessions { s < all_sessions }
    requires f_lt_flow_count { f < flow_count }
    ensures { result ≡ constraint_at kept s f }
{
    let at = s * Engine::FLOWS + f;
    Constraint {
        version: kept.versions[at],
        deny: kept.denies[at],
        roles: sessions::sets_at(&kept.rolesets, at),
    }
}

// 0a and 0f: the constraint of flow f of session s, and zero beside a refusal.
pub fn shown(kept: Sessions, s: usize, f: usize) -> Shown
    ensures { result ≡ shown_at kept s f }
{
    let answer = sessions::show(kept.opened, &kept.counts, s, f);
    let constraint = match answer {
        Answer::Constraint { .. } => constraint_at(kept, s, f),
        _ => Constraint::NONE,
    };
    Shown { answer, constraint }
}
