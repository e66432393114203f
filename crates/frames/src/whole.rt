// A whole input at once, in one buffer.
ghost use Rattle.frames.specs.Stream.{Ran};

use super::kept;

// The run of the program on this input, at the start of `out`, and how long it is. Where there is no
// room, None, and `out` begins with the answers up to there.
#[tactic(auto, using(crate::proofs::Endings::taken_within))]
pub fn run(input: &[u8], out: &mut [u8]) -> Option<usize>
    ensures { Ran input.now out.old out.new result }
{
    let mut engine = values::fresh();
    let fed = kept::feed(&mut engine, input, out);
    if decoding::find_feed(input, fed.consumed).is_some() {
        return None;
    }
    encoding::write_end(input.len() - fed.consumed, out, fed.written)
}
