// The names of roles, databases and users, and texts that list them.
use super::column::Column;
use super::shapes;
use super::shapes::{Class, Look};
use std::fmt;
use std::fmt::{Display, Write};

// How far to the right of the first line the others of a text begin.
const INDENT: usize = 16;

// A name, with the digits that frames have for it; a role and a database have no zero in front.
#[derive(Clone, Copy)]
pub(crate) enum Name {
    Role(usize),
    Database(usize),
    User(usize),
}

// Names in an open text of a column, which goes on in a new line where one is full.
#[derive(Clone, Copy)]
pub(crate) struct Names {
    // How many names a line has room for, and how many this one has room for still.
    room: usize,
    left: usize,
}

// The digits of users, of whom a large picture has very many: `{u:02x}` takes several times as long.
const DIGITS: [&str; 16] = [
    "0", "1", "2", "3", "4", "5", "6", "7", "8", "9", "a", "b", "c", "d", "e", "f",
];

impl Name {
    // Writes it. Lists do so on the page itself, without a formatter for each name.
    fn put<W: Write>(self, text: &mut W) -> fmt::Result {
        match self {
            Name::Role(r) => write!(text, "R{r:x}"),
            Name::Database(d) => write!(text, "D{d:x}"),
            Name::User(u) => {
                text.write_str("u")?;
                text.write_str(DIGITS[u / 16 % 16])?;
                text.write_str(DIGITS[u % 16])
            }
        }
    }
}

impl Display for Name {
    fn fmt<W: Write>(&self, f: &mut fmt::Formatter<W>) -> fmt::Result {
        self.put(f)
    }
}

impl Names {
    // No name yet. Each line has room for n.
    pub(crate) fn new(n: usize) -> Names {
        Names { room: n, left: n }
    }

    // One more name.
    pub(crate) fn put(&mut self, column: &mut Column, name: Name) -> fmt::Result {
        if self.left == 0 {
            self.left = self.room;
            column.end_text()?;
            let next = column.at.right(INDENT);
            shapes::begin_text(column.page, Class::Plain(Look::Text), next)?;
        }
        self.left = self.left.saturating_sub(1);
        column.page.write_str(" ")?;
        name.put(column.page)
    }
}
