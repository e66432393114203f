// The next line of an input: its call, and where it ends. A frame's kind tells its length, so that
// only a line that is no frame is searched for its line feed.
ghost use Rattle.std.specs.Prelude.{◌≡◌, [], ◌∷◌, ◌++◌, ◌<◌, length};
ghost use Rattle.protocol.specs.Widths.{kept};
ghost use Rattle.protocol.specs.Lines.{line_feed};
ghost use Rattle.decoding.specs.Frames.{framing, next_by};

use super::read;
use arrayvec::ArrayVec;
use digits::Digits;
use model::Call;
use protocol::KEPT;

// A line's call, and the place of its line feed.
#[derive(Clone, Copy)]
pub struct NextLine {
    pub call: Call,
    pub end: usize,
}

// The line from a place on; none where no line feed follows.
#[tactic(auto, using(crate::proofs::Places::next_past, crate::proofs::Places::next_fits, crate::proofs::Places::next_frame, crate::proofs::Places::next_other, crate::proofs::Places::next_none))]
pub fn next_line(digits: &Digits, s: &[u8], at: usize) -> Option<NextLine>
    ensures { result ≡ next_by digits.now.high digits.now.low s.now at }
{
    if let Some(frame) = read::decode(digits, s.get(at..)?) {
        return Some(NextLine {
            call: frame.call,
            end: at + frame.digits,
        });
    }
    let end = pieces::find_feed(s, at)?;
    Some(NextLine {
        call: Call::Unreadable,
        end,
    })
}

// A short line with its line feed.
pub(crate) fn with_feed(line: &[u8]) -> ArrayVec<u8, KEPT>
    requires { length line.now < kept }
    ensures { result.items ≡ line.now ++ (line_feed ∷ []) }
{
    let mut bytes = ArrayVec::new();
    let _ = bytes.try_extend_from_slice(line);
    bytes.push(b'\n');
    bytes
}

// What of a line is taken for a frame: all, or nothing where it is longer than every frame or has a line
// feed in it.
#[tactic(auto, using(crate::proofs::Framing::framing_long, crate::proofs::Framing::framing_feed, crate::proofs::Framing::framing_line))]
fn framing(line: &[u8]) -> &[u8]
    ensures framing { result.now ≡ framing line.now }
    ensures short { length result.now < kept }
{
    if KEPT <= line.len() {
        return &[];
    }
    if pieces::find_feed(line, 0).is_some() {
        return &[];
    }
    line
}

// A line that came without its line feed, as the next line of an input. What can be no frame becomes the
// empty line, which is none either.
pub fn as_frame(line: &[u8]) -> ArrayVec<u8, KEPT>
    ensures { result.items ≡ framing line.now ++ (line_feed ∷ []) }
{
    with_feed(framing(line))
}
