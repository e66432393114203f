// What is asked of an answer before it is written: the number it returns, and the place of the flow whose
// constraint it shows.
#![tactic(auto)]

ghost use Rattle.std.specs.Prelude.{◌≡◌, ◌<◌, cond, Some, None, IfSome};
ghost use Rattle.model.specs.State.{place_count};
ghost use Rattle.model.specs.Calls.{number_of, returned, verdict_of};
ghost use Rattle.answers.specs.Answers.{has_place, shown_place};

use model::{Answer, Engine, Refusal};

// The number of a refusal.
#[tactic(auto, unfolding(model::specs::Calls::number_of))]
fn number(why: Refusal) -> u64
    ensures { result ≡ number_of why }
{
    why as u64
}

// 0 for what is accepted, else the number refused.
// Kept: a number, which is written into a line and given back to a caller in C.
#[tactic(auto, unfolding(model::specs::Calls::returned, model::specs::Calls::verdict_of))]
pub fn returned(a: Answer) -> u64
    ensures { result ≡ returned (verdict_of a) }
{
    match a {
        Answer::Refused(why) => number(why),
        _ => 0,
    }
}

// The place of the flow whose constraint an answer shows; none where that flow has no place. Its session has
// its number among those of both products.
// Kept: place 0 for an answer that shows no constraint, since a line is written from the parts of some place,
// whatever it shows.
#[tactic(auto, unfolding(crate::specs::Answers::has_place, crate::specs::Answers::shown_place, model::specs::State::place))]
pub fn place_to_show(a: Answer) -> Option<usize>
    ensures value { result ≡ cond (has_place a) (Some (shown_place a)) None }
    ensures upper_bound { IfSome result (λ k. k < place_count) }
{
    match a {
        Answer::Constraint { session, flow }
            if session < Engine::ALL_SESSIONS && flow < Engine::FLOWS => {
            Some(session * Engine::FLOWS + flow)
        }
        Answer::Constraint { .. } => None,
        _ => Some(0),
    }
}
