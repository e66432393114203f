// The words of the command line: which session a picture is asked of.
use model::Product;
use std::fmt;
use std::fmt::{Display, Write};
use streams::words;

// A session of a product.
#[derive(Clone, Copy)]
pub(crate) struct Asked {
    product: Product,
    session: usize,
}

// What the program is asked for.
#[derive(Clone, Copy)]
pub(crate) enum Task {
    Draw(Asked),
    Help,
    Version,
}

// What is wrong with the words.
#[derive(Clone, Copy)]
pub(crate) enum Wrong {
    Words,
    Product,
    Session,
}

impl Asked {
    // The session's number among those of both products.
    pub(crate) fn number(self) -> usize {
        sessions::session_at(self.product, self.session)
    }
}

impl Display for Asked {
    fn fmt<W: Write>(&self, f: &mut fmt::Formatter<W>) -> fmt::Result {
        let session = self.session;
        match self.product {
            Product::Server => write!(f, "server's session {session:02x}"),
            Product::TermBank => write!(f, "term bank's session {session:02x}"),
        }
    }
}

impl Display for Wrong {
    fn fmt<W: Write>(&self, f: &mut fmt::Formatter<W>) -> fmt::Result {
        f.write_str(match *self {
            Wrong::Words => {
                "name a product and a session, as in: picture server 00 < FRAMES > OUT.svg"
            }
            Wrong::Product => "the product is server or bank",
            Wrong::Session => "the session has two digits, 00 to 0f",
        })
    }
}

// The product that a word names.
fn product(word: &str) -> Result<Product, Wrong> {
    match word {
        "server" => Ok(Product::Server),
        "bank" => Ok(Product::TermBank),
        _ => Err(Wrong::Product),
    }
}

// The session that a word names.
fn session(word: &str) -> Result<usize, Wrong> {
    match word.as_bytes() {
        [b'0', digit @ b'0'..=b'9'] => Ok(usize::from(*digit - b'0')),
        [b'0', digit @ b'a'..=b'f'] => Ok(usize::from(*digit - b'a') + 10),
        _ => Err(Wrong::Session),
    }
}

// What the words ask for.
pub(crate) fn read(words: &[String]) -> Result<Task, Wrong> {
    if let [first, second] = words {
        return Ok(Task::Draw(Asked {
            product: product(first.as_str())?,
            session: session(second.as_str())?,
        }));
    }
    match words::asked(words) {
        Ok(words::Task::Help) => Ok(Task::Help),
        Ok(words::Task::Version) => Ok(Task::Version),
        _ => Err(Wrong::Words),
    }
}
