// The search for conflicting roles, which a query answers and an addition looks at.
//
// Every public function answers for any numbers.
#![tactic(auto)]

ghost use Rattle.std.specs.Prelude.{◌≡◌, length, ◌+◌, ◌≤◌, ◌<◌, ℕ, true, get_or};
ghost use Rattle.sets.specs.Sets.{lacking};
ghost use Rattle.tables.specs.Tables.{role_count, user_count};
ghost use Rattle.model.specs.State.{outside};
ghost use Rattle.search.specs.Search.{conflicts_of};

use model::Engine;

// The roles of the users whose roles meet two of the sets. The search through the sets ends at the second
// one found. A user whose roles are all found already can add none, and is passed over.
//
// Kept: two loops in one function, the inner one left by its label. Document 01 names this form.
pub fn conflicts(roles: &[u64; Engine::USERS], may: &[u64]) -> u64
    ensures { result ≡ conflicts_of roles.now may.now (length may.now) }
{
    let mut found = 0;
    for block in 0..Engine::USERS / 8 {
        if !are_found(roles, block * 8, found) {
            for u in block * 8..block * 8 + 8 {
                let held = roles[u];
                if sets::difference(held, found) != 0 {
                    let mut seen = 0usize;
                    'flows: for set in may {
                        if sets::meets(held, *set) {
                            seen += 1;
                            if seen == 2 {
                                break 'flows;
                            }
                        }
                    }
                    if seen == 2 {
                        found = sets::union(found, held);
                    }
                }
            }
        }
    }
    found
}

// Whether the roles of the eight users from a place on are all found already.
fn are_found(roles: &[u64; Engine::USERS], from: usize, found: u64) -> bool
    requires { from + 8 ≤ user_count }
    ensures { result ≡ true → (i : ℕ) → i < 8 → lacking role_count (get_or roles.now (from + i) 0) found ≡ 0 }
{
    let mut left = sets::difference(roles[from], found);
    for i in 1..8 {
        left = sets::union(left, sets::difference(roles[from + i], found));
    }
    left == 0
}

// Whether some chosen role isn't conflicting.
#[tactic(auto, using(sets::proofs::Laws::lacking_some), unfolding(model::specs::State::outside))]
pub fn outside(chosen: u64, conflicting: u64) -> bool
    ensures { result ≡ outside role_count chosen conflicting }
{
    sets::difference(chosen, conflicting) != 0
}
