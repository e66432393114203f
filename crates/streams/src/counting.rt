// Counting lines.
ghost use Rattle.std.specs.Prelude.{◌<◌, ◌≡◌, ◌^◌, sum_by};
ghost use Rattle.streams.specs.Feeds.{counted_on, feeds};
ghost use Rattle.streams.specs.Feeds.{feed as Feeds·feed};

// How many bytes are counted at once: so few that the count fits a byte, which lets the compiler count
// many of them in one step. Over the whole text one `sum` takes a list of reads 6 in 100 more
// instructions, and one `filter` with `count` 16 in 100 more.
const BLOCK: usize = 128;

// 1 for a line feed.
#[tactic(auto, unfolding(crate::specs::Feeds::feed))]
fn feed(byte: u8) -> u8
    ensures { result ≡ Feeds·feed byte }
{
    u8::from(byte == b'\n')
}

// How many line feeds a block has.
fn feeds_in(block: &[u8]) -> u8
    requires { sum_by Feeds·feed block.now < 2 ^ 8 }
    ensures { result ≡ sum_by Feeds·feed block.now }
{
    block.iter().map(|byte| feed(*byte)).sum()
}

/// How many whole lines a text has: its line feeds.
#[tactic(auto, using(crate::proofs::LineFeeds::feeds_block, crate::proofs::LineFeeds::feeds_none, crate::proofs::LineFeeds::feeds_most, crate::proofs::LineFeeds::block_fits))]
pub fn lines(text: &[u8]) -> usize
    ensures { result ≡ feeds text.now }
{
    let mut n = 0;
    for block in text.chunks(BLOCK) {
        n += usize::from(feeds_in(block));
    }
    n
}

// How many lines there are after those of a text are counted too, or the last number where that is less.
pub(crate) fn lines_and(n: u64, text: &[u8]) -> u64
    ensures { result ≡ counted_on n text.now }
{
    n.saturating_add(lines(text) as u64)
}
