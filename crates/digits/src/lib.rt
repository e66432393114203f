// The digits as two tables, of what a byte counts for as the first of two digits and as the second. A
// loop makes them once and lends them to whatever reads a line.
#![tactic(auto)]

ghost use Rattle.std.specs.Prelude.{◌≡◌, ◌≤◌, ◌+◌, get_or};
ghost use Rattle.digits.specs.Tables.{digit_table, high_table, low_table, pair_by};

// How many bytes there are: a table has an entry for each.
pub const BYTES: usize = 256;

// What stands in a table for a byte that is no digit.
// Kept: a number and no `Option`, so that one test of a sum tells of both digits.
const NO_DIGIT: u16 = 256;

// The bytes that are digits, in the order of their values.
const GLYPHS: [u8; 16] = *b"0123456789abcdef";

// Number b: so many times the value of byte b, or that it is no digit.
#[tactic(auto, using(crate::proofs::Meaning::table_fits, crate::proofs::Meaning::table_more), unfolding(crate::specs::Tables::digit_table))]
fn table(times: u16) -> [u16; BYTES]
    requires { times ≤ 16 }
    ensures { result ≡ digit_table times 16 }
{
    let mut table = [NO_DIGIT; BYTES];
    for (value, byte) in GLYPHS.iter().enumerate() {
        table[usize::from(*byte)] = value as u16 * times;
    }
    table
}

// The tables for the first of two digits and for the second.
#[derive(Drop)]
pub struct Digits {
    pub high: [u16; BYTES],
    pub low: [u16; BYTES],
}

impl Digits {
    // The tables of the digits.
    #[tactic(auto, unfolding(crate::specs::Tables::high_table, crate::specs::Tables::low_table))]
    pub fn new() -> Digits
        ensures high { result.high ≡ high_table }
        ensures low { result.low ≡ low_table }
    {
        Digits {
            high: table(16),
            low: table(1),
        }
    }

    // What two bytes count for together by any two tables.
    pub fn sum(&self, first: u8, second: u8) -> usize
        ensures { result ≡ get_or self.now.high first 0 + get_or self.now.low second 0 }
    {
        let high = usize::from(self.high[usize::from(first)]);
        let low = usize::from(self.low[usize::from(second)]);
        high + low
    }

    // The number of two digits by any two tables, where it is below 256: by those of the digits, where both
    // bytes are digits.
    pub fn pair(&self, first: u8, second: u8) -> Option<usize>
        ensures { result ≡ pair_by self.now.high self.now.low first second }
    {
        let sum = self.sum(first, second);
        if sum < 256 { Some(sum) } else { None }
    }
}
