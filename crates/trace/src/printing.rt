// The line that is printed of a recorded run.
ghost use Rattle.std.specs.Prelude.{◌≡◌};
ghost use Rattle.trace.specs.Outcomes.{printed};

use super::replaying::Outcome;
use arrayvec::ArrayVec;

// How many bytes the longest line has.
pub const WIDEST: usize = 17;

// The line of an outcome. 16 is told by its two digits alone, pushed one by one: to extend by a slice could
// fail.
#[tactic(auto, using(crate::proofs::PrintedLines::agree_line), unfolding(crate::specs::Outcomes::printed))]
pub fn printed_line(outcome: Outcome) -> ArrayVec<u8, WIDEST>
    ensures { result.items ≡ printed outcome }
{
    match outcome {
        Outcome::AllAgree => ArrayVec::from(encoding::number_line(0)),
        Outcome::Differs(pair) => ArrayVec::from(encoding::number_line(pair)),
        Outcome::FrameLast | Outcome::TooLong => {
            let mut line = ArrayVec::new();
            line.push(b'1');
            line.push(b'0');
            line.push(b'\n');
            line
        }
    }
}
