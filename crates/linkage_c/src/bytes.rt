// A fresh engine, and frames as bytes.
ghost use Rattle.std.specs.Prelude.{◌≡◌, ◌++◌, length, drop};
ghost use Rattle.model.specs.State.{tables_of, directory_of, sessions_of, engine_of, fresh};
ghost use Rattle.protocol.specs.Run.{fed, kept_of};
ghost use Rattle.pieces.specs.Pieces.{between};
ghost use Rattle.output.specs.Output.{ending, end_answer, end_written};
ghost use Rattle.frames.specs.Stream.{Answers, Feeds};
ghost use Rattle.linkage_c.specs.Bytes.{length_of};

use model::{Engine, Version};
use step::Parts;

// The engine is made fresh: empty tables, no open session, every version 0.
#[tactic(auto, unfolding(model::specs::State::fresh, tables::specs::Tables::fresh))]
#[unsafe(no_mangle)]
pub extern "C" fn linkage_lent_fresh(
    roles: &mut [u64; Engine::USERS],
    readers: &mut [u64; Engine::DATABASES],
    forwards: &mut [u64; Engine::DATABASES],
    mandates: &mut [u64; Engine::DATABASES],
    users: &mut [Version; Engine::USERS],
    version: &mut Version,
    opened: &mut u64,
    counts: &mut [usize; Engine::ALL_SESSIONS],
    roots: &mut [usize; Engine::PLACES],
    reaches: &mut [u64; Engine::PLACES],
    versions: &mut [Version; Engine::PLACES],
    denies: &mut [u64; Engine::PLACES],
    rolesets: &mut [u64; Engine::ROLE_SETS],
)
    ensures { (engine_of (directory_of (tables_of roles.new readers.new forwards.new mandates.new) users.new version.new) (sessions_of opened.new counts.new roots.new reaches.new versions.new denies.new rolesets.new)) ≡ fresh }
{
    *roles = [0; Engine::USERS];
    *readers = [0; Engine::DATABASES];
    *forwards = [0; Engine::DATABASES];
    *mandates = [0; Engine::DATABASES];
    *users = [0; Engine::USERS];
    *version = 0;
    *opened = 0;
    *counts = [0; Engine::ALL_SESSIONS];
    *roots = [0; Engine::PLACES];
    *reaches = [0; Engine::PLACES];
    *versions = [0; Engine::PLACES];
    *denies = [0; Engine::PLACES];
    *rolesets = [0; Engine::ROLE_SETS];
}

// One frame, a line without its line feed: its answer line at the start of `out`, and how long that is. With less room than
// the longest answer needs nothing is done, and the answer is 0.
#[unsafe(no_mangle)]
pub extern "C" fn linkage_lent_frame(
    roles: &mut [u64; Engine::USERS],
    readers: &mut [u64; Engine::DATABASES],
    forwards: &mut [u64; Engine::DATABASES],
    mandates: &mut [u64; Engine::DATABASES],
    users: &mut [Version; Engine::USERS],
    version: &mut Version,
    opened: &mut u64,
    counts: &mut [usize; Engine::ALL_SESSIONS],
    roots: &mut [usize; Engine::PLACES],
    reaches: &mut [u64; Engine::PLACES],
    versions: &mut [Version; Engine::PLACES],
    denies: &mut [u64; Engine::PLACES],
    rolesets: &mut [u64; Engine::ROLE_SETS],
    line: &[u8],
    out: &mut [u8],
) -> usize
    ensures { Answers line.now (engine_of (directory_of (tables_of roles.old readers.old forwards.old mandates.old) users.old version.old) (sessions_of opened.old counts.old roots.old reaches.old versions.old denies.old rolesets.old)) (engine_of (directory_of (tables_of roles.new readers.new forwards.new mandates.new) users.new version.new) (sessions_of opened.new counts.new roots.new reaches.new versions.new denies.new rolesets.new)) out.old out.new result }
{
    let mut parts = Parts {
        roles,
        readers,
        forwards,
        mandates,
        users,
        version,
        opened,
        counts,
        roots,
        reaches,
        versions,
        denies,
        rolesets,
    };
    frames::lent::answer_frame(&mut parts, line, out)
}

// A piece of input: its whole lines are taken as far as there is room for their answers. The answer is how many bytes were
// written, and `consumed` gets how many were taken.
#[unsafe(no_mangle)]
pub extern "C" fn linkage_lent_feed(
    roles: &mut [u64; Engine::USERS],
    readers: &mut [u64; Engine::DATABASES],
    forwards: &mut [u64; Engine::DATABASES],
    mandates: &mut [u64; Engine::DATABASES],
    users: &mut [Version; Engine::USERS],
    version: &mut Version,
    opened: &mut u64,
    counts: &mut [usize; Engine::ALL_SESSIONS],
    roots: &mut [usize; Engine::PLACES],
    reaches: &mut [u64; Engine::PLACES],
    versions: &mut [Version; Engine::PLACES],
    denies: &mut [u64; Engine::PLACES],
    rolesets: &mut [u64; Engine::ROLE_SETS],
    input: &[u8],
    out: &mut [u8],
    consumed: &mut usize,
) -> usize
    ensures { Feeds input.now out.old out.new (engine_of (directory_of (tables_of roles.new readers.new forwards.new mandates.new) users.new version.new) (sessions_of opened.new counts.new roots.new reaches.new versions.new denies.new rolesets.new)) (fed (length out.old) (engine_of (directory_of (tables_of roles.old readers.old forwards.old mandates.old) users.old version.old) (sessions_of opened.old counts.old roots.old reaches.old versions.old denies.old rolesets.old)) input.now) (record { consumed = consumed.new; written = result }) }
{
    let mut parts = Parts {
        roles,
        readers,
        forwards,
        mandates,
        users,
        version,
        opened,
        counts,
        roots,
        reaches,
        versions,
        denies,
        rolesets,
    };
    let x = frames::lent::feed(&mut parts, input, out);
    *consumed = x.consumed;
    x.written
}

// What has to be kept of a part of a buffer is moved to its start, and the answer is how many bytes that is.
#[unsafe(no_mangle)]
pub extern "C" fn linkage_keep(buffer: &mut [u8], from: usize, to: usize) -> usize
    ensures { (result ≡ length (kept_of (between buffer.old from to))) × (buffer.new ≡ kept_of (between buffer.old from to) ++ drop result buffer.old) }
{
    frames::keep(buffer, from, to)
}

// At the end of input, where this many bytes are left of a line: its answer at the start of `out`, and how long that is.
// Nothing is left, or there is no room: 0.
#[unsafe(no_mangle)]
#[tactic(auto, unfolding(crate::specs::Bytes::length_of))]
pub extern "C" fn linkage_finish(left: usize, out: &mut [u8]) -> usize
    ensures { (result ≡ length_of (end_answer out.old 0 (ending left))) × (out.new ≡ end_written out.old 0 (ending left)) }
{
    frames::finish(left, out).unwrap_or(0)
}
