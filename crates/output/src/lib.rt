// What an answer's line is made of, and where it goes: a digit, whether a line has room in the lent
// buffer, and what the end of input writes there.
#![tactic(auto)]

ghost use Rattle.std.specs.Prelude.{◌≡◌, ◌/◌, ◌%◌};
ghost use Rattle.protocol.specs.Digits.{glyph};
ghost use Rattle.output.specs.Output.{room_at, ending, end_answer, end_written};

use protocol::LONGEST;

// The digit of v's last four bits.
// Kept: this sum has no branch. With one, a list takes a tenth more time, with a table in the code 7 to 9
// in 100 more, and with one that is lent up to 4 in 100 (docs/PERFORMANCE.md).
#[tactic(auto, unfolding(protocol::specs::Digits::glyph))]
pub fn glyph(v: u64) -> u8
    ensures { result ≡ glyph (v % 16) }
{
    let d = v % 16;
    (48 + d + (d + 6) / 16 * 39) as u8
}

// Whether every line has room from a place on.
#[tactic(auto, unfolding(crate::specs::Output::room_at))]
pub fn has_room(out: &[u8], at: usize) -> bool
    ensures { result ≡ room_at out.now at }
{
    at <= out.len() && LONGEST <= out.len() - at
}

// The answer to a line that has no line feed, of which this many bytes are there, from a place on: nothing
// to no byte, and else the number of a frame that can't be read. What comes back is the place behind it;
// where there is no room, None.
// Kept: a buffer and a place in it, as in `encoding`, and three stores, since a copy takes half as long again.
#[tactic(auto, unfolding(crate::specs::Output::ending, crate::specs::Output::end_answer, crate::specs::Output::end_written))]
pub fn write_end(len: usize, out: &mut [u8], at: usize) -> Option<usize>
    ensures { (result ≡ end_answer out.old at (ending len)) × (out.new ≡ end_written out.old at (ending len)) }
{
    if len == 0 {
        return if at <= out.len() { Some(at) } else { None };
    }
    let end = at.checked_add(3)?;
    if out.len() < end {
        return None;
    }
    out[at] = b'0';
    out[at + 1] = b'1';
    out[at + 2] = b'\n';
    Some(end)
}
