// A run as a stream: input comes in pieces of any size, and answers go out into a lent buffer. The
// engine's arrays are the caller's, who lends them for each piece.
ghost use Rattle.std.specs.Prelude.{◌≡◌, ◌+◌, ◌≤◌, length};
ghost use Rattle.model.specs.Calls.{after};
ghost use Rattle.protocol.specs.Widths.{longest};
ghost use Rattle.protocol.specs.Run.{reply, fed};
ghost use Rattle.output.specs.Output.{ending, end_answer, end_written};
ghost use Rattle.encoding.specs.Written.{Wrote};
ghost use Rattle.step.specs.Parts.{lent, Same};
ghost use Rattle.frames.specs.Stream.{Answers, Feeds};

use super::LONGEST;
use model::Call;
use step::Parts;

// How many bytes of the input were taken and of the output written.
#[derive(Clone, Copy)]
pub struct Fed {
    pub consumed: usize,
    pub written: usize,
}

// A call is carried out, and its answer written from a place on. A read changes nothing and is
// answered by its number, so that goes straight from the verdict to its digits.
#[tactic(auto, using(encoding::proofs::Writing::wrote_length), unfolding(model::specs::Calls::after, model::specs::Calls::step))]
fn answer_call(parts: &mut Parts<'_>, call: Call, out: &mut [u8], at: usize) -> usize
    requires { at + longest ≤ length out.old }
    ensures engine { lent parts.new ≡ after (lent parts.old) call }
    ensures same { Same parts.new parts.old }
    ensures line { Wrote out.old out.new at result (reply (lent parts.old) call) }
{
    if let Call::Read {
        product,
        user,
        session,
        flow,
        database,
    } = call
    {
        let n = parts.number(product, user, session, flow, database);
        return encoding::write_number(n, out, at);
    }
    let answer = step::step(parts, call);
    encoding::write_answer(
        answer,
        parts.versions,
        parts.denies,
        parts.rolesets,
        out,
        at,
    )
}

// Takes a piece of input line by line, as far as it has whole lines and there is room for their
// answers, and writes those at the start of `out`. It stops at a line where less than the longest
// answer is left of `out`; where that much is there from the start, a piece with a whole line in it
// is not left whole.
#[tactic(auto, using(crate::proofs::Feeding::feeding_start, crate::proofs::Feeding::written_fits, crate::proofs::Feeding::out_long))]
pub fn feed(parts: &mut Parts<'_>, input: &[u8], out: &mut [u8]) -> Fed
    ensures same { Same parts.new parts.old }
    ensures fed { Feeds input.now out.old out.new (lent parts.new) (fed (length out.old) (lent parts.old) input.now) result }
{
    let digits = decoding::Digits::new();
    let mut at = 0usize;
    let mut written = 0usize;
    // Kept: a place that goes on by as much as each line has.
    while at < input.len() {
        if out.len() - written < LONGEST {
            break;
        }
        let Some(line) = decoding::next_line(&digits, input, at) else {
            break;
        };
        written = answer_call(parts, line.call, out, written);
        at = line.end + 1;
    }
    Fed {
        consumed: at,
        written,
    }
}

// One frame, a line without its line feed, is carried out, and its answer line written at the start of
// `out`. Where there is less room than the longest answer needs, nothing is done. It goes by `feed`, so
// that there is one place from which calls are answered, and the compiler makes one loop of it.
// Kept: 0 bytes where nothing is done, as a caller in C is told it.
pub fn answer_frame(parts: &mut Parts<'_>, line: &[u8], out: &mut [u8]) -> usize
    ensures same { Same parts.new parts.old }
    ensures answers { Answers line.now (lent parts.old) (lent parts.new) out.old out.new result }
{
    let framed = decoding::as_frame(line);
    let fed = feed(parts, &framed, out);
    fed.written
}

// At the end of input, where this many bytes are left of a line: its answer, at the start of `out`, and
// how long it is; where there is no room, None.
pub fn finish(len: usize, out: &mut [u8]) -> Option<usize>
    ensures { (result ≡ end_answer out.old 0 (ending len)) × (out.new ≡ end_written out.old 0 (ending len)) }
{
    encoding::write_end(len, out, 0)
}
