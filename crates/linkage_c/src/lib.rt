// The library for C: the calls as functions of numbers, one frame to one answer line, and a stream of bytes
// in pieces. The engine is the caller's: each function is lent those of its arrays that it needs, as pointers. Nothing
// is allocated. A function of a call gives back the number refused, 0 where the call is accepted, and then puts the
// answer's values where the caller wants them; where the call is refused these stay as they were.
//
// Every function answers for any contents of the arrays and any numbers.
//
// Kept: numbers for refusals, products and sessions, and arrays one by one. A caller in C has no other names
// for them, and lends each function the arrays that it needs; two functions make `Parts` of all of them. 0 is
// how many bytes there are where none is written.
#![tactic(auto)]

mod asks;
mod bytes;
mod changes;

pub use asks::{
    linkage_lent_add, linkage_lent_conflicting, linkage_lent_open, linkage_lent_read,
    linkage_lent_show, linkage_session,
};
pub use bytes::{
    linkage_finish, linkage_keep, linkage_lent_feed, linkage_lent_frame, linkage_lent_fresh,
};
pub use changes::{
    linkage_lent_assign, linkage_lent_forward, linkage_lent_mandate, linkage_lent_permit,
    linkage_lent_revoke, linkage_lent_withdraw,
};
