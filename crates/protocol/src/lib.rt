// Frames in definitions: what a line is read as, how an answer is written, what a whole run writes.
// The code is in `decoding` (a line to its call), `encoding` (an answer to its line) and `frames` (a
// run as a stream), with contracts by these definitions. Here are only the widths that they share.
#![tactic(auto)]

use model::Engine;

/// How many digits the kind and each field have.
pub const FIELD_DIGITS: usize = 2;

/// How many digits a version has.
pub const VERSION_DIGITS: usize = 8;

/// How many digits a role set has: four roles a digit.
pub const SET_DIGITS: usize = Engine::ROLES / 4;

/// How many bytes the longest answer line has: a constraint with a role set for each flow, and its line
/// feed.
pub const LONGEST: usize = FIELD_DIGITS + VERSION_DIGITS + SET_DIGITS * (1 + Engine::FLOWS) + 1;

/// How many bytes are kept of a line that has no line feed yet: one more than the longest frame has.
pub const KEPT: usize = 3 * FIELD_DIGITS + SET_DIGITS + 1;
