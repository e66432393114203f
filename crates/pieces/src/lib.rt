// Pieces of input: where the next line feed stands, and what has to be kept of a piece whose last line
// is not whole.
#![tactic(auto)]

ghost use Rattle.std.specs.Prelude.{◌≡◌, ◌++◌, ◌<◌, ◌≤◌, IfSome, nat_eq, length, drop, position};
ghost use Rattle.protocol.specs.Lines.{line_feed};
ghost use Rattle.protocol.specs.Run.{kept_of};
ghost use Rattle.pieces.specs.Pieces.{between, feed_from};

use protocol::KEPT;

// The place of the first line feed.
fn first_feed(s: &[u8]) -> Option<usize>
    ensures place { result ≡ position (λ b. nat_eq b line_feed) s.now }
    ensures within { IfSome result (λ at. at < length s.now) }
{
    s.iter().position(|byte| *byte == b'\n')
}

// The place of the first line feed from a place on; none where none follows.
#[tactic(auto, using(crate::proofs::Feeds::feed_found, crate::proofs::Feeds::feed_none, crate::proofs::Feeds::past_end))]
pub fn find_feed(s: &[u8], from: usize) -> Option<usize>
    ensures place { result ≡ feed_from s.now from }
    ensures within { IfSome result (λ at. (from ≤ at) × (at < length s.now)) }
{
    let at = first_feed(s.get(from..)?)?;
    Some(from + at)
}

// How many bytes have to be kept.
#[tactic(auto, using(crate::proofs::Keeping::kept_all, crate::proofs::Keeping::kept_some))]
fn kept_bytes(left: &[u8]) -> usize
    ensures { (result ≡ length (kept_of left.now)) × (result ≤ length left.now) }
{
    if first_feed(left).is_some() {
        return left.len();
    }
    left.len().min(KEPT)
}

// Moves what has to be kept of a part of a buffer to its start: all of the part, or the first bytes
// of a line that has no line feed yet. The answer is how many bytes that is; behind them the buffer is
// as it was.
#[tactic(auto, using(crate::proofs::Keeping::kept_moved), unfolding(crate::specs::Pieces::between))]
pub fn keep(buffer: &mut [u8], from: usize, to: usize) -> usize
    ensures { (result ≡ length (kept_of (between buffer.old from to))) × (buffer.new ≡ kept_of (between buffer.old from to) ++ drop result buffer.old) }
{
    let end = to.min(buffer.len());
    let start = from.min(end);
    let n = kept_bytes(&buffer[start..end]);
    buffer.copy_within(start..start + n, 0);
    n
}
