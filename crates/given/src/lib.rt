// What a caller in C is given back of an answer, and the session that his numbers name.
#![tactic(auto)]

ghost use Rattle.std.specs.Prelude.{◌≡◌};
ghost use Rattle.model.specs.State.{session_at};
ghost use Rattle.model.specs.Calls.{returned, verdict_of};
ghost use Rattle.given.specs.Given.{product_of, session_of, version_or};

use model::{Answer, Engine, Version};

// The number that an answer returns; the version that it tells goes where the caller wants it.
// Kept: a number, which a caller in C is given back.
#[tactic(auto, unfolding(crate::specs::Given::version_or))]
pub fn tell(a: Answer, told: &mut Version) -> u64
    ensures { (result ≡ returned (verdict_of a)) × (told.new ≡ version_or told.old a) }
{
    if let Answer::Version(version) | Answer::Flow { version, .. } = a {
        *told = version;
    }
    answers::returned(a)
}

// The number of a product's session among those of both, the term bank's behind the server's; past them all
// where there is no such session or no such product.
// Kept: a number for the product and one past the last session, since a caller in C names products by
// numbers, and is given this one back (`linkage_session`); row 2 of each call refuses it.
// Kept: a sum and no `match` of the product, whose branch can't be foreseen where both products are asked:
// with it a read through the library takes half as long again.
#[tactic(auto, using(crate::proofs::Products::no_product, crate::proofs::Products::no_session, crate::proofs::Products::at_one))]
pub fn number_of(product: usize, session: usize) -> usize
    ensures { result ≡ session_at (product_of product) (session_of product session) }
{
    if Engine::PRODUCTS <= product || Engine::SESSIONS <= session {
        return Engine::ALL_SESSIONS;
    }
    product * Engine::SESSIONS + session
}
