// The shapes of the picture. Colours and widths are in the style that stands at its start: a shape has a
// class of one letter, and where it is of a flow, the same with the flow's number.
use super::names::Name;
use super::page::Page;
use std::fmt;
use std::fmt::{Display, Write};

#[derive(Clone, Copy)]
pub(crate) struct Point {
    pub(crate) x: usize,
    pub(crate) y: usize,
}

// A rectangle: its upper left corner, and how large it is.
#[derive(Clone, Copy)]
pub(crate) struct Area {
    pub(crate) corner: Point,
    pub(crate) width: usize,
    pub(crate) height: usize,
}

// How a shape or a text looks.
#[derive(Clone, Copy)]
pub(crate) enum Look {
    // Of a flow: its band, a border, that of a root, a line, the head of an arrow, and texts in its
    // colour, as a heading and small.
    Band,
    Border,
    Root,
    Line,
    Head,
    FlowHeading,
    FlowText,
    // Of no flow: texts, as the title, a heading, plain, around their place, and so in white; squares,
    // empty, grey and filled.
    Title,
    Heading,
    Text,
    Middle,
    White,
    Empty,
    Grey,
    Filled,
}

// A look, and the number of the flow whose colour it has.
#[derive(Clone, Copy)]
pub(crate) enum Class {
    Plain(Look),
    Of(Look, usize),
}

// A part of a line: where it begins, where it goes straight, and the three points of a curve.
#[derive(Clone, Copy)]
pub(crate) enum Step {
    Start(Point),
    Straight(Point),
    Curve(Point, Point, Point),
}

impl Point {
    pub(crate) fn at(x: usize, y: usize) -> Point {
        Point { x, y }
    }

    pub(crate) fn down(self, n: usize) -> Point {
        Point::at(self.x, self.y.saturating_add(n))
    }

    pub(crate) fn up(self, n: usize) -> Point {
        Point::at(self.x, self.y.saturating_sub(n))
    }

    pub(crate) fn right(self, n: usize) -> Point {
        Point::at(self.x.saturating_add(n), self.y)
    }
}

impl Area {
    // A square around its middle.
    pub(crate) fn around(middle: Point, side: usize) -> Area {
        let left = middle.x.saturating_sub(side / 2);
        Area {
            corner: Point::at(left, middle.y).up(side / 2),
            width: side,
            height: side,
        }
    }
}

impl Display for Point {
    fn fmt<W: Write>(&self, f: &mut fmt::Formatter<W>) -> fmt::Result {
        write!(f, "{} {}", self.x, self.y)
    }
}

impl Display for Area {
    fn fmt<W: Write>(&self, f: &mut fmt::Formatter<W>) -> fmt::Result {
        let Point { x, y } = self.corner;
        let width = self.width;
        let height = self.height;
        write!(f, "x='{x}' y='{y}' width='{width}' height='{height}'")
    }
}

impl Display for Look {
    fn fmt<W: Write>(&self, f: &mut fmt::Formatter<W>) -> fmt::Result {
        f.write_str(match *self {
            Look::Band => "b",
            Look::Border => "d",
            Look::Root => "r",
            Look::Line => "e",
            Look::Head => "a",
            Look::FlowHeading => "i",
            Look::FlowText => "j",
            Look::Title => "t",
            Look::Heading => "h",
            Look::Text => "n",
            Look::Middle => "m",
            Look::White => "w",
            Look::Empty => "k",
            Look::Grey => "p",
            Look::Filled => "x",
        })
    }
}

impl Display for Class {
    fn fmt<W: Write>(&self, f: &mut fmt::Formatter<W>) -> fmt::Result {
        match *self {
            Class::Plain(look) => write!(f, "class='{look}'"),
            Class::Of(look, g) => write!(f, "class='{look} {look}{g:x}'"),
        }
    }
}

impl Display for Step {
    fn fmt<W: Write>(&self, f: &mut fmt::Formatter<W>) -> fmt::Result {
        match *self {
            Step::Start(to) => write!(f, "M{to}"),
            Step::Straight(to) => write!(f, "L{to}"),
            Step::Curve(one, other, to) => write!(f, "C{one} {other} {to}"),
        }
    }
}

pub(crate) fn rectangle(page: &mut Page, class: Class, area: Area) -> fmt::Result {
    writeln!(page, "<rect {class} {area}/>")
}

// A circle of flow g.
pub(crate) fn circle(page: &mut Page, g: usize, middle: Point, radius: usize) -> fmt::Result {
    let class = Class::Of(Look::Border, g);
    let Point { x, y } = middle;
    writeln!(page, "<circle {class} cx='{x}' cy='{y}' r='{radius}'/>")
}

pub(crate) fn path(page: &mut Page, class: Class, steps: &[Step]) -> fmt::Result {
    write!(page, "<path {class} d='")?;
    for step in steps {
        write!(page, "{step}")?;
    }
    page.write_str("'/>\n")
}

// A text begins; what it says follows, and then its end.
pub(crate) fn begin_text(page: &mut Page, class: Class, at: Point) -> fmt::Result {
    let Point { x, y } = at;
    write!(page, "<text {class} x='{x}' y='{y}'>")
}

pub(crate) fn end_text(page: &mut Page) -> fmt::Result {
    page.write_str("</text>\n")
}

// A whole text.
pub(crate) fn text<D: Display + Drop>(
    page: &mut Page,
    class: Class,
    at: Point,
    words: D,
) -> fmt::Result {
    begin_text(page, class, at)?;
    page.write(words)?;
    end_text(page)
}

// A name in the middle of its shape.
pub(crate) fn label(page: &mut Page, look: Look, middle: Point, name: Name) -> fmt::Result {
    text(page, Class::Plain(look), middle.down(5), name)
}
