// Reading a frame: two digits give the kind, and the fields are taken from the rest of the line.
ghost use Rattle.std.specs.Prelude.{◌≡◌, ◌+◌, ◌*◌, ◌≤◌, ◌&&◌, eqb, ltb, length, get_or};
ghost use Rattle.protocol.specs.Lines.{line_feed, rest_digits, call_of};
ghost use Rattle.decoding.specs.Fields.{pair_read, pairs_read, fields_read, chosen_set, addition, fields_by};
ghost use Rattle.decoding.specs.Frames.{frame_by};
ghost use Rattle.kinds.specs.Kinds.{number_of_kind};

use super::lines;
use digits::Digits;
use kinds::{Fields, Kind};
use model::Call;
use protocol::{FIELD_DIGITS, KEPT, SET_DIGITS};

// How many digits an addition's fields have, and how many pairs of them are its role set.
const ADDITION: usize = 2 * FIELD_DIGITS + SET_DIGITS;

const SET_PAIRS: usize = SET_DIGITS / 2;

// The frame that an input begins with: its call, and how many digits it has.
#[derive(Clone, Copy)]
pub struct Frame {
    pub call: Call,
    pub digits: usize,
}

// The fields of a frame, and how many digits it has with its kind.
#[derive(Clone, Copy)]
struct Rest {
    digits: usize,
    fields: Fields,
}

// The number of the two digits at a place.
#[tactic(auto, unfolding(crate::specs::Fields::pair_at, crate::specs::Fields::pair_read))]
fn two(digits: &Digits, s: &[u8], at: usize) -> Option<usize>
    requires { at + 2 ≤ length s.now }
    ensures { result ≡ pair_read digits.now.high digits.now.low s.now at }
{
    digits.pair(s[at], s[at + 1])
}

// The numbers of the first N pairs.
#[tactic(auto, using(crate::proofs::Reading::pairs_wrong, crate::proofs::Reading::pairs_all))]
fn pairs<const N: usize>(digits: &Digits, s: &[u8]) -> Option<[usize; N]>
    requires { 2 * N ≤ length s.now }
    ensures { result ≡ pairs_read digits.now.high digits.now.low s.now N }
{
    let mut pairs = [0; N];
    for (i, pair) in pairs.iter_mut().enumerate() {
        *pair = two(digits, s, 2 * i)?;
    }
    Some(pairs)
}

// Whether a line feed stands behind the first n bytes.
fn ends_behind(s: &[u8], n: usize) -> bool
    ensures { result ≡ (ltb n (length s.now) && eqb (get_or s.now n 0) line_feed) }
{
    s.get(n) == Some(&b'\n')
}

// The same, where a line feed stands behind them.
#[tactic(auto, using(crate::proofs::Reading::fields_open, crate::proofs::Reading::fields_right))]
fn fields<const N: usize>(digits: &Digits, s: &[u8]) -> Option<[usize; N]>
    requires { N ≤ 4 }
    ensures { result ≡ fields_read digits.now.high digits.now.low s.now N }
{
    if !ends_behind(s, 2 * N) {
        return None;
    }
    pairs(digits, s)
}

// A role set of sixteen digits, two at a time.
#[tactic(auto, using(crate::proofs::Reading::set_none, crate::proofs::Reading::sofar_start))]
fn role_set(digits: &Digits, s: &[u8]) -> Option<u64>
    requires { 16 ≤ length s.now }
    ensures { result ≡ chosen_set digits.now.high digits.now.low s.now }
{
    let pairs = pairs::<SET_PAIRS>(digits, s)?;
    let mut set = 0;
    for pair in pairs.iter() {
        set = set * 256 + *pair as u64;
    }
    Some(set)
}

// Two fields and a role set.
#[tactic(auto, using(crate::proofs::Reading::addition_open, crate::proofs::Reading::addition_none, crate::proofs::Reading::addition_unset))]
fn fields_and_set(digits: &Digits, s: &[u8]) -> Option<Rest>
    ensures { result ≡ addition digits.now.high digits.now.low s.now }
{
    if !ends_behind(s, ADDITION) {
        return None;
    }
    let [a, b] = pairs::<2>(digits, s)?;
    let chosen = role_set(digits, &s[4..])?;
    Some(Rest {
        digits: 2 + ADDITION,
        fields: Fields {
            numbers: [a, b, 0, 0],
            chosen,
        },
    })
}

// The fields of a frame of this kind, of whose rest the input is.
#[tactic(auto, using(crate::proofs::Reading::open_none, crate::proofs::Reading::open_some, crate::proofs::Reading::two_none, crate::proofs::Reading::two_some, crate::proofs::Reading::read_none, crate::proofs::Reading::add_some))]
fn fields_of(digits: &Digits, s: &[u8], kind: Kind) -> Option<Rest>
    ensures { result ≡ fields_by digits.now.high digits.now.low s.now (rest_digits (number_of_kind kind)) }
{
    match kind {
        Kind::Open(_) => {
            let [a] = fields::<1>(digits, s)?;
            Some(Rest {
                digits: 4,
                fields: Fields {
                    numbers: [a, 0, 0, 0],
                    chosen: 0,
                },
            })
        }
        Kind::Assign
        | Kind::Withdraw
        | Kind::Permit
        | Kind::Revoke
        | Kind::Forward
        | Kind::Conflicting(_)
        | Kind::Show(_)
        | Kind::Mandate => {
            let [a, b] = fields::<2>(digits, s)?;
            Some(Rest {
                digits: 6,
                fields: Fields {
                    numbers: [a, b, 0, 0],
                    chosen: 0,
                },
            })
        }
        Kind::Read(_) => {
            let numbers = fields::<4>(digits, s)?;
            Some(Rest {
                digits: 10,
                fields: Fields { numbers, chosen: 0 },
            })
        }
        Kind::Add(_) => fields_and_set(digits, s),
    }
}

// The frame that an input begins with.
#[tactic(auto, using(crate::proofs::Reading::frame_short, crate::proofs::Reading::frame_wrong, crate::proofs::Reading::frame_unknown, crate::proofs::Reading::frame_none, crate::proofs::Reading::frame_some))]
pub(crate) fn decode(digits: &Digits, line: &[u8]) -> Option<Frame>
    ensures { result ≡ frame_by digits.now.high digits.now.low line.now }
{
    if line.len() < 2 {
        return None;
    }
    let kind = Kind::try_from(two(digits, line, 0)?).ok()?;
    let rest = fields_of(digits, &line[2..], kind)?;
    Some(Frame {
        call: kinds::call_of(kind, rest.fields),
        digits: rest.digits,
    })
}

// The call that a line is, without its line feed.
#[tactic(auto, using(protocol::proofs::Laws::longer, crate::proofs::Meaning::line_found, crate::proofs::Meaning::line_longer, crate::proofs::Meaning::line_none))]
pub fn read_call(line: &[u8]) -> Call
    ensures { result ≡ call_of line.now }
{
    let n = line.len();
    if KEPT <= n {
        return Call::Unreadable;
    }
    let bytes = lines::with_feed(line);
    match decode(&Digits::new(), &bytes) {
        Some(frame) if frame.digits == n => frame.call,
        _ => Call::Unreadable,
    }
}
