// Writing an answer: its line, in digits, into a lent buffer from a place on. What is asked of an answer
// is in `answers`; a digit, the room in a buffer and the end of input are in `output`.
#![tactic(auto)]

ghost use Rattle.std.specs.Prelude.{◌≡◌, ◌&&◌, List, [], ◌∷◌, ◌++◌, ℕ, suc, ◌+◌, ◌*◌, ◌≤◌, ◌<◌, leb, length};
ghost use Rattle.model.specs.Limits.{flow_count};
ghost use Rattle.model.specs.State.{sessions_of};
ghost use Rattle.protocol.specs.Widths.{field_digits, version_digits, set_digits, longest};
ghost use Rattle.protocol.specs.Digits.{hex};
ghost use Rattle.protocol.specs.Lines.{line_feed, role_sets, values, shown_sets, line_of};
ghost use Rattle.protocol.specs.Run.{shown_in};
ghost use Rattle.answers.specs.Answers.{has_place};
ghost use Rattle.output.specs.Output.{room_at};
ghost use Rattle.encoding.specs.Written.{Wrote, Puts, constraint_of, line_answer, line_written};

use model::{Answer, Constraint, Engine, Version};
pub use output::write_end;
use protocol::{FIELD_DIGITS, LONGEST, SET_DIGITS, VERSION_DIGITS};

// A constraint's parts where they lie.
// Kept: `model::Constraint` has its role sets in itself, and to copy them for each answer takes 3
// instructions in 100 more on a list `mixed`.
#[derive(Clone, Copy)]
struct Shown<'a> {
    version: Version,
    deny: u64,
    roles: &'a [u64; Engine::FLOWS],
}

// The last N digits of v, written from the last one, which needs no power of 16. Since N is known where
// it is compiled, no loop is left of it.
// Kept: a place and the buffer are handed on, here and below. A struct that held both would have to
// promise in each method that it still lends the same buffer.
// Kept: an index, since of the bytes that `iter_mut` with `rev` hands out nothing is known after the loop;
// and no `write!`, which could fail and would have to be looked at for each number.
#[tactic(auto, using(crate::proofs::Writing::digits_start, crate::proofs::Writing::digits_step))]
fn write_hex<const N: usize>(v: u64, out: &mut [u8], at: usize) -> usize
    requires { at + N ≤ length out.old }
    ensures { Wrote out.old out.new at result (hex N v) }
{
    let mut rest = v;
    for k in (0..N).rev() {
        out[at + k] = output::glyph(rest);
        rest /= 16;
    }
    at + N
}

// A line feed.
fn write_feed(out: &mut [u8], at: usize) -> usize
    requires { at < length out.old }
    ensures { Wrote out.old out.new at result (line_feed ∷ []) }
{
    out[at] = b'\n';
    at + 1
}

// The first n of these role sets, one after the other.
#[tactic(auto, using(crate::proofs::Writing::wrote_nothing, crate::proofs::Writing::wrote_length, protocol::proofs::Laws::role_sets_length), unfolding(protocol::specs::Lines::role_sets))]
fn write_sets(sets: &[u64; Engine::FLOWS], n: usize, out: &mut [u8], at: usize) -> usize
    requires { (n ≤ flow_count) × (at + set_digits * n ≤ length out.old) }
    ensures { Wrote out.old out.new at result (role_sets n sets.now) }
{
    let mut next = at;
    for set in &sets[..n] {
        next = write_hex::<SET_DIGITS>(*set, out, next);
    }
    next
}

// A flow's constraint, with the role sets up to its own.
#[tactic(auto, using(crate::proofs::Writing::wrote_hex))]
fn write_constraint(shown: Shown, flow: usize, out: &mut [u8], at: usize) -> usize
    requires { (flow < flow_count) × (at + (version_digits + set_digits + set_digits * suc flow) ≤ length out.old) }
    ensures { Wrote out.old out.new at result (hex version_digits shown.entry.version ++ (hex set_digits shown.entry.deny ++ role_sets (flow + 1) shown.entry.roles.now)) }
{
    let next = write_hex::<VERSION_DIGITS>(shown.version as u64, out, at);
    let next = write_hex::<SET_DIGITS>(shown.deny, out, next);
    write_sets(shown.roles, flow + 1, out, next)
}

// A new flow's number, reach and version.
#[tactic(auto, using(crate::proofs::Writing::wrote_hex, crate::proofs::Writing::wrote_length))]
fn write_flow(number: usize, reach: u32, version: Version, out: &mut [u8], at: usize) -> usize
    requires { at + (field_digits + field_digits + version_digits) ≤ length out.old }
    ensures { Wrote out.old out.new at result (hex field_digits number ++ (hex field_digits reach ++ hex version_digits version)) }
{
    let next = write_hex::<FIELD_DIGITS>(number as u64, out, at);
    let next = write_hex::<FIELD_DIGITS>(reach as u64, out, next);
    write_hex::<VERSION_DIGITS>(version as u64, out, next)
}

// What follows the first two digits of a line; the constraint is that of the flow that the answer shows.
#[tactic(auto, using(crate::proofs::Writing::wrote_nothing, crate::proofs::Writing::shown_below), unfolding(protocol::specs::Lines::values))]
fn write_values(a: Answer, shown: Shown, out: &mut [u8], at: usize) -> usize
    requires a_bound { shown_sets a ≤ flow_count }
    requires flow_count_in_bounds { at + (version_digits + set_digits * (1 + flow_count)) ≤ length out.old }
    ensures { Wrote out.old out.new at result (values a (constraint_of shown.entry.version shown.entry.deny shown.entry.roles.now)) }
{
    match a {
        Answer::Version(v) => write_hex::<VERSION_DIGITS>(v as u64, out, at),
        Answer::Roles(m) => write_hex::<SET_DIGITS>(m, out, at),
        Answer::Flow {
            number,
            reach,
            version,
        } => write_flow(number, reach, version, out, at),
        Answer::Constraint { flow, .. } => write_constraint(shown, flow, out, at),
        Answer::Granted | Answer::Refused(_) => at,
    }
}

// The line of an answer, from a place on that leaves room for every line.
#[tactic(auto, using(crate::proofs::Writing::wrote_hex))]
fn write_line(a: Answer, shown: Shown, out: &mut [u8], at: usize) -> usize
    requires a_bound { shown_sets a ≤ flow_count }
    requires longest_in_bounds { at + longest ≤ length out.old }
    ensures { Wrote out.old out.new at result (line_of a (constraint_of shown.entry.version shown.entry.deny shown.entry.roles.now)) }
{
    let next = write_hex::<FIELD_DIGITS>(answers::returned(a), out, at);
    let next = write_values(a, shown, out, next);
    write_feed(out, next)
}

// A number and a line feed, which is the whole answer to a read, from a place on.
// Kept: where there is no room, the place as it was and no `None`. Its caller has tested the room; a public
// function here has no `requires`, so it promises something for every buffer.
#[tactic(auto, using(output::proofs::Laws::room_there, crate::proofs::Writing::wrote_hex))]
pub fn write_number(n: u64, out: &mut [u8], at: usize) -> usize
    ensures { Puts (room_at out.old at) out.old out.new at result (hex field_digits n ++ (line_feed ∷ [])) }
{
    if !output::has_room(out, at) {
        return at;
    }
    let next = write_hex::<FIELD_DIGITS>(n, out, at);
    write_feed(out, next)
}

// A number in sixteen digits, and a line feed.
// Kept: by `write_hex` and no `write!`: its promise is that of every number in a line.
pub fn number_line(n: u64) -> [u8; SET_DIGITS + 1]
    ensures { result ≡ hex set_digits n ++ (line_feed ∷ []) }
{
    let mut out = [0; SET_DIGITS + 1];
    let next = write_hex::<SET_DIGITS>(n, &mut out, 0);
    write_feed(&mut out, next);
    out
}

// The line of an answer, from a place on; a constraint that it shows is taken from the arrays.
// Kept: where nothing is written, the place as it was and no `None`, as in `write_number`.
#[tactic(auto, using(output::proofs::Laws::room_there, crate::proofs::Writing::place_few))]
pub fn write_answer(
    a: Answer,
    versions: &[Version; Engine::PLACES],
    denies: &[u64; Engine::PLACES],
    rolesets: &[u64; Engine::ROLE_SETS],
    out: &mut [u8],
    at: usize,
) -> usize
    ensures { (opened : ℕ) (counts roots reaches : List ℕ) → Puts (room_at out.old at && has_place a) out.old out.new at result (line_of a (shown_in (sessions_of opened counts roots reaches versions.now denies.now rolesets.now) a)) }
{
    if !output::has_room(out, at) {
        return at;
    }
    let Some(k) = answers::place_to_show(a) else {
        return at;
    };
    let (sets, _) = rolesets.as_chunks::<{ Engine::FLOWS }>();
    let shown = Shown {
        version: versions[k],
        deny: denies[k],
        roles: &sets[k],
    };
    write_line(a, shown, out, at)
}

// Whether an answer shows no more role sets than a constraint has.
#[tactic(auto, unfolding(protocol::specs::Lines::shown_sets))]
fn is_writable(a: Answer) -> bool
    ensures { result ≡ leb (shown_sets a) flow_count }
{
    match a {
        Answer::Constraint { flow, .. } => flow < Engine::FLOWS,
        _ => true,
    }
}

// The line of an answer at the start of `out`, where there is room for every line and the answer
// shows no more role sets than a constraint has: how long it is. Else `out` is left as it was.
#[tactic(auto, unfolding(crate::specs::Written::writable, crate::specs::Written::line_answer, crate::specs::Written::line_written))]
pub fn answer_line(a: Answer, c: Constraint, out: &mut [u8]) -> Option<usize>
    ensures { (result ≡ line_answer out.old a c) × (out.new ≡ line_written out.old a c) }
{
    if out.len() < LONGEST || !is_writable(a) {
        return None;
    }
    let shown = Shown {
        version: c.version,
        deny: c.deny,
        roles: &c.roles,
    };
    Some(write_line(a, shown, out, 0))
}
