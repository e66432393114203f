// The pairs of a recorded run, one after another, on one engine.
ghost use Rattle.std.specs.Prelude.{◌≡◌};
ghost use Rattle.trace.specs.Outcomes.{same, outcome};

use super::reader::Trace;
use frames::LONGEST;

// How many bytes a recorded run may have.
pub const LIMIT: usize = 1048576;

// What became of a recorded run.
#[derive(Clone, Copy)]
pub enum Outcome {
    // No pair differs.
    AllAgree,
    // The first pair whose answers differ, counted from one.
    Differs(u64),
    // No pair differs, and the last line is a frame that has no answer.
    FrameLast,
    // It has more bytes than it may have; no pair was run.
    TooLong,
}

// Whether two texts have the same bytes.
#[tactic(auto, using(crate::proofs::Going::same_bytes, crate::proofs::Going::other_length, std::proofs::lemmas::List::take_all))]
fn is_same(a: &[u8], b: &[u8]) -> bool
    ensures { result ≡ same a.now b.now }
{
    a == b
}

// Goes over a recorded run, from a fresh engine.
// Kept: a reader and a number that go on together. An iterator of pairs, to be counted, would be a second
// reader beside `Trace`, and would have to say that a frame line is the last one.
#[tactic(auto, using(crate::proofs::Going::too_long, crate::proofs::Going::line_within, crate::proofs::Going::going_last, crate::proofs::Going::written_within, crate::proofs::Going::going_end))]
pub fn replay(text: &[u8]) -> Outcome
    ensures { result ≡ outcome text.now }
{
    if LIMIT < text.len() {
        return Outcome::TooLong;
    }
    let mut engine = frames::fresh();
    let mut answer = [0u8; LONGEST];
    let mut trace = Trace::at(text, 0);
    let mut pair = 1u64;
    while trace.at < text.len() {
        let frame = trace.next();
        if text.len() <= trace.at {
            return Outcome::FrameLast;
        }
        let given = trace.next();
        let fed = frames::feed(&mut engine, frame, &mut answer);
        if !is_same(&answer[..fed.written], given) {
            return Outcome::Differs(pair);
        }
        pair += 1;
    }
    Outcome::AllAgree
}
