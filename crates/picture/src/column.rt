// A column of the picture: texts and shapes that stand one below the other.
use super::page::Page;
use super::shapes;
use super::shapes::{Class, Look, Point};
use std::fmt;
use std::fmt::{Display, Write};

// How deep a line of a text is.
pub(crate) const LINE: usize = 18;

// The page, and where the next part of the column stands. What draws a part moves that down.
#[derive(Drop)]
pub(crate) struct Column<'a> {
    pub(crate) page: &'a mut Page,
    pub(crate) at: Point,
}

impl<'a> Column<'a> {
    // A column that begins here.
    pub(crate) fn new(page: &'a mut Page, at: Point) -> Column<'a> {
        Column { page, at }
    }

    pub(crate) fn down(&mut self, n: usize) {
        self.at = self.at.down(n);
    }

    // A text begins; what it says follows, and then its end.
    pub(crate) fn begin_text(&mut self, class: Class) -> fmt::Result {
        shapes::begin_text(self.page, class, self.at)
    }

    // The next part stands on the line below the text.
    pub(crate) fn end_text(&mut self) -> fmt::Result {
        shapes::end_text(self.page)?;
        self.down(LINE);
        Ok(())
    }

    // A text of one line.
    pub(crate) fn line<D: Display + Drop>(&mut self, look: Look, words: D) -> fmt::Result {
        self.begin_text(Class::Plain(look))?;
        self.page.write(words)?;
        self.end_text()
    }
}
