// The left half of the picture: a band for each flow, with its databases and the roles that may read
// them. What belongs to several flows stands in the band of each.
use super::names::Name;
use super::page::Page;
use super::shapes;
use super::shapes::{Area, Class, Look, Point, Step};
use model::{Constraint, Engine};
use sets::Members;
use std::fmt;
use tables::{Tables, lent};

// A row of a band, and what stands above the first one.
const ROW: usize = 44;

const HEAD: usize = 30;

// Where the databases begin and end, and where the middle of the roles is.
const LEFT: usize = 124;

const RIGHT: usize = 200;

const ROLES: usize = 350;

const RADIUS: usize = 16;

// Where lines to the overlapping roles begin.
pub(crate) const LEAVING: usize = ROLES + RADIUS;

// A flow of a session, and where its band begins.
#[derive(Clone, Copy)]
pub(crate) struct Flow {
    pub(crate) number: usize,
    pub(crate) root: usize,
    pub(crate) reach: u64,
    // The roles that may read a database of the reach.
    pub(crate) may: u64,
    pub(crate) constraint: Constraint,
    pub(crate) top: usize,
}

// No flow: with it an `ArrayVec` fills the places that are not in use.
impl Default for Flow {
    fn default() -> Flow {
        Flow {
            number: 0,
            root: 0,
            reach: 0,
            may: 0,
            constraint: Constraint {
                version: 0,
                deny: 0,
                roles: [0; Engine::FLOWS],
            },
            top: 0,
        }
    }
}

impl Flow {
    // The middle of row i of the band.
    pub(crate) fn row(&self, i: usize) -> usize {
        let first = self.top.saturating_add(HEAD + ROW / 2);
        first.saturating_add(i.saturating_mul(ROW))
    }

    // How deep the band is.
    fn depth(&self) -> usize {
        let most = sets::size(self.reach).max(sets::size(self.may));
        (most as usize).saturating_mul(ROW).saturating_add(HEAD + 6)
    }

    // Where the next band begins.
    pub(crate) fn below(&self) -> usize {
        self.top.saturating_add(self.depth()).saturating_add(16)
    }

    fn class(&self, look: Look) -> Class {
        Class::Of(look, self.number)
    }
}

// How far a curve between two rows of the databases goes to the left.
fn swing(from: usize, to: usize) -> usize {
    let apart = from.abs_diff(to);
    if 240 < apart { 100 } else { 40 + apart / 4 }
}

// The head of an arrow, where it comes to a database.
fn arrow_head(page: &mut Page, flow: &Flow, to: Point) -> fmt::Result {
    let back = Point::at(LEFT - 9, to.y);
    let steps = [
        Step::Start(back.up(5)),
        Step::Straight(to),
        Step::Straight(back.down(5)),
    ];
    shapes::path(page, flow.class(Look::Head), &steps)
}

// A database forwards to another: a curve from below the middle of one to above the middle of the other.
fn forwarding(page: &mut Page, flow: &Flow, from: usize, to: usize) -> fmt::Result {
    let x = LEFT.saturating_sub(swing(from, to));
    let start = Point::at(LEFT, from).down(7);
    let end = Point::at(LEFT, to).up(7);
    let steps = [
        Step::Start(start),
        Step::Curve(
            Point::at(x, start.y),
            Point::at(x, end.y),
            Point::at(LEFT - 6, end.y),
        ),
    ];
    shapes::path(page, flow.class(Look::Line), &steps)?;
    arrow_head(page, flow, end)
}

// The databases of the reach that one of them forwards to.
// Kept: a loop of this form stands three times. An iterator of the places of a set's members would be a
// struct more, for three lines each.
fn forwards_from(page: &mut Page, flow: &Flow, targets: u64, from: usize) -> fmt::Result {
    for (i, e) in Members(flow.reach).enumerate() {
        if sets::contains(targets, e) {
            forwarding(page, flow, from, flow.row(i))?;
        }
    }
    Ok(())
}

// The roles that may read one database, which are among those that may read the flow.
fn readers_of(page: &mut Page, flow: &Flow, readers: u64, from: usize) -> fmt::Result {
    for (i, r) in Members(flow.may).enumerate() {
        if sets::contains(readers, r) {
            let steps = [
                Step::Start(Point::at(RIGHT, from)),
                Step::Straight(Point::at(ROLES - RADIUS, flow.row(i))),
            ];
            shapes::path(page, flow.class(Look::Line), &steps)?;
        }
    }
    Ok(())
}

// The rectangle of a database; that of a root has a thick border.
fn database(page: &mut Page, flow: &Flow, d: usize, y: usize) -> fmt::Result {
    let look = if d == flow.root {
        Look::Root
    } else {
        Look::Border
    };
    let area = Area {
        corner: Point::at(LEFT, y).up(14),
        width: RIGHT - LEFT,
        height: 28,
    };
    shapes::rectangle(page, flow.class(look), area)?;
    let middle = Point::at((LEFT + RIGHT) / 2, y);
    shapes::label(page, Look::Middle, middle, Name::Database(d))
}

// The databases of a flow, with all lines that leave them.
fn databases(page: &mut Page, tables: &Tables, flow: &Flow) -> fmt::Result {
    for (i, d) in Members(flow.reach).enumerate() {
        let y = flow.row(i);
        forwards_from(page, flow, lent::row(&tables.forwards, d), y)?;
        readers_of(page, flow, lent::row(&tables.readers, d), y)?;
        database(page, flow, d, y)?;
    }
    Ok(())
}

// The circles of the roles that may read a flow.
fn roles(page: &mut Page, flow: &Flow) -> fmt::Result {
    for (i, r) in Members(flow.may).enumerate() {
        let middle = Point::at(ROLES, flow.row(i));
        shapes::circle(page, flow.number, middle, RADIUS)?;
        shapes::label(page, Look::Middle, middle, Name::Role(r))?;
    }
    Ok(())
}

// The band itself, with the flow's number.
fn ground(page: &mut Page, flow: &Flow) -> fmt::Result {
    let area = Area {
        corner: Point::at(16, flow.top),
        width: 400,
        height: flow.depth(),
    };
    shapes::rectangle(page, flow.class(Look::Band), area)?;
    title(page, flow, Point::at(28, flow.top).down(21))
}

// The name of a flow, in its colour.
pub(crate) fn title(page: &mut Page, flow: &Flow, at: Point) -> fmt::Result {
    let number = flow.number;
    shapes::text(
        page,
        flow.class(Look::FlowHeading),
        at,
        format_args!("Flow {number:02x}"),
    )
}

// All of a flow: its root, its reach and the roles that may read a database of it.
pub(crate) fn draw(page: &mut Page, tables: &Tables, flow: &Flow) -> fmt::Result {
    ground(page, flow)?;
    databases(page, tables, flow)?;
    roles(page, flow)
}
