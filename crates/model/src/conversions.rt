// How an answer is made of a verdict, and a refusal of its number.
ghost use Rattle.std.specs.Prelude.{◌≡◌, ◌<◌, ◌⊎◌, MatchResult};
ghost use Rattle.model.specs.Calls.{number_of, answer_of};

use super::{Answer, Refusal, Verdict};

// The verdict on a read as an answer.
#[tactic(auto, unfolding(crate::specs::Calls::answer_of))]
impl From<Verdict> for Answer {
    ghost from_gives = { λ v a. a ≡ answer_of v };

    fn from(v: Verdict) -> Self {
        match v {
            Verdict::Granted => Answer::Granted,
            Verdict::Refused(why) => Answer::Refused(why),
        }
    }
}

// A number that no row of the refusal table has.
#[derive(Clone, Copy, PartialEq, Eq, Debug)]
pub struct NoSuchRow(pub u64);

// The refusal that has this number.
#[tactic(auto, unfolding(crate::specs::Calls::number_of))]
impl TryFrom<u64> for Refusal {
    type Error = NoSuchRow;

    ghost try_from_gives = { λ n r. MatchResult r (λ why. number_of why ≡ n) (λ e. (e.0 ≡ n) × ((n ≡ 0) ⊎ (15 < n))) };

    fn try_from(number: u64) -> Result<Self, NoSuchRow> {
        match number {
            1 => Ok(Refusal::Malformed),
            2 => Ok(Refusal::AboveLimit),
            3 => Ok(Refusal::AlreadyThere),
            4 => Ok(Refusal::NotThere),
            5 => Ok(Refusal::FlowAdded),
            6 => Ok(Refusal::NotOpen),
            7 => Ok(Refusal::SessionFull),
            8 => Ok(Refusal::NotConflicting),
            9 => Ok(Refusal::VersionsSpent),
            10 => Ok(Refusal::NoSuchFlow),
            11 => Ok(Refusal::OutOfReach),
            12 => Ok(Refusal::NoPermission),
            13 => Ok(Refusal::Changed),
            14 => Ok(Refusal::Linkable),
            15 => Ok(Refusal::Mandated),
            _ => Err(NoSuchRow(number)),
        }
    }
}
