// What the marks mean, and the style of all shapes.
use super::column::Column;
use super::page::Page;
use super::shapes::{Area, Class, Look, Point};
use super::{overlaps, shapes};
use model::Engine;
use std::fmt;
use std::fmt::Write;

const WIDTH: usize = 1280;

// How far from the left the middle of a mark is.
const MARK: usize = 67;

// How deep a mark is with what is said of it.
const DEPTH: usize = 40;

const STYLE: &str = "<style>
text{font-family:Arial,Helvetica,sans-serif;font-size:14px;fill:#111}
.t{font-size:20px;font-weight:bold}
.h,.i{font-weight:bold}
.j{font-size:12px}
.m,.w{text-anchor:middle}
.w{fill:#fff}
.b{fill-opacity:.09}
.d,.r{fill:#fff;stroke-width:1.5}
.r{stroke-width:5}
.e{fill:none;stroke-width:1.5}
.k,.p,.x{fill:#fff;stroke:#111;stroke-width:1.5}
.p{fill:#d4d4d4}
.x{fill:#111}
";

// The colour of each flow.
const COLOURS: [&str; Engine::FLOWS] = [
    "1b5fa8", "c45a00", "22803a", "7b3fb0", "b3262b", "6d4a2b", "b83a8c", "0d7d84",
];

// What is said of the squares, each with its look and whether it has a second border.
const SQUARES: [(Look, bool, &str); 4] = [
    (
        Look::Empty,
        false,
        "an overlapping role: the users on a line hold it together with the role where the line begins",
    ),
    (
        Look::Grey,
        false,
        "lines of two flows or more come to it, so it might conflict, but it doesn't",
    ),
    (
        Look::Filled,
        false,
        "it conflicts today: some user who holds it reads two flows",
    ),
    (
        Look::Empty,
        true,
        "a second border, around any of the three: the last flow's constraint denies the role",
    ),
];

// The colour of each flow, in all its classes.
fn colours(page: &mut Page) -> fmt::Result {
    for (g, colour) in COLOURS.iter().enumerate() {
        write!(page, ".b{g},.a{g},.i{g},.j{g}{{fill:#{colour}}}")?;
        writeln!(page, ".d{g},.r{g},.e{g}{{stroke:#{colour}}}")?;
    }
    Ok(())
}

// The start of a picture of this height.
pub(crate) fn begin(page: &mut Page, height: usize) -> fmt::Result {
    write!(page, "<svg xmlns='http://www.w3.org/2000/svg'")?;
    write!(page, " width='{WIDTH}' height='{height}'")?;
    writeln!(page, " viewBox='0 0 {WIDTH} {height}'>")?;
    page.write_str(STYLE)?;
    colours(page)?;
    page.write_str("</style>\n<rect width='100%' height='100%' fill='#fff'/>\n")
}

pub(crate) fn end(page: &mut Page) -> fmt::Result {
    page.write_str("</svg>\n")
}

// The names of the columns, at this height.
pub(crate) fn columns(page: &mut Page, y: usize) -> fmt::Result {
    let names = [
        (162, "databases"),
        (350, "roles that read"),
        (622, "users who hold both"),
        (762, "overlapping roles"),
    ];
    for (x, name) in names {
        shapes::text(page, Class::Plain(Look::Middle), Point::at(x, y), name)?;
    }
    Ok(())
}

// What is said of the mark that stands here. The next mark stands below it.
fn said(column: &mut Column, words: &str) -> fmt::Result {
    let at = column.at.right(100).down(5);
    shapes::text(column.page, Class::Plain(Look::Text), at, words)?;
    column.down(DEPTH);
    Ok(())
}

// A rectangle of the first flow, as a mark.
fn database(page: &mut Page, look: Look, left: Point) -> fmt::Result {
    let area = Area {
        corner: left.up(12),
        width: 34,
        height: 24,
    };
    shapes::rectangle(page, Class::Of(look, 0), area)
}

// The marks of the left half.
fn flow_marks(column: &mut Column) -> fmt::Result {
    database(column.page, Look::Border, column.at.right(4))?;
    database(column.page, Look::Root, column.at.right(50))?;
    said(
        column,
        "a database that the flow's records come to; with a thick border: its root. Arrows are forwarding",
    )?;
    shapes::circle(column.page, 0, column.at.right(MARK), 16)?;
    said(column, "a role that may read the databases at its lines")
}

// The marks of the right half.
fn role_marks(column: &mut Column) -> fmt::Result {
    for (look, is_denied, words) in SQUARES {
        overlaps::mark(column.page, look, is_denied, column.at.right(MARK))?;
        said(column, words)?;
    }
    Ok(())
}

// All marks.
pub(crate) fn marks(column: &mut Column) -> fmt::Result {
    column.line(Look::Heading, "Marks")?;
    column.down(12);
    flow_marks(column)?;
    role_marks(column)?;
    column.down(6);
    column.line(
        Look::Text,
        "Each flow has its colour. D, R and u are databases, roles and users, with the digits that frames have for them.",
    )?;
    column.down(6);
    Ok(())
}
