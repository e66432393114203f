// The right half of the picture: the overlapping roles, each once, with a line from each role that it
// overlaps with, in the colour of the flow that this one reads. So a square shows the colours of all its
// flows.
use super::column::Column;
use super::flows::{Flow, LEAVING};
use super::names::Name;
use super::page::Page;
use super::session::Session;
use super::shapes::{Area, Class, Look, Point, Step};
use super::users::Pair;
use super::{shapes, users};
use model::Engine;
use sets::Members;
use std::fmt;
use tables::lent;

// Where a line goes on level, with the users on it, where it ends, and where the square begins.
pub(crate) const LEVEL: usize = 520;

const TURN: usize = 724;

const SQUARE: usize = 748;

const SIDE: usize = 28;

// How deep a line is with its users.
const LINE: usize = 20;

// A role, and the roles that it overlaps with: those that some user holds together with it.
#[derive(Clone, Copy)]
pub(crate) struct Overlap {
    role: usize,
    others: u64,
}

impl Overlap {
    pub(crate) fn of(session: &Session, role: usize) -> Overlap {
        Overlap {
            role,
            others: lent::parents(&session.tables.roles, sets::insert(0, role)),
        }
    }

    // How many lines it has.
    fn lines(self, session: &Session) -> usize {
        session.flows().iter().fold(0usize, |n, flow| {
            n.saturating_add(sets::size(sets::intersection(flow.may, self.others)) as usize)
        })
    }

    // Whether they have two colours or more.
    pub(crate) fn is_coloured(self, session: &Session) -> bool {
        let flows = session.flows().iter();
        2 <= flows
            .filter(|flow| sets::meets(flow.may, self.others))
            .count()
    }

    // How its square looks.
    fn look(self, session: &Session) -> Look {
        if sets::contains(session.conflicts, self.role) {
            return Look::Filled;
        }
        if self.is_coloured(session) {
            Look::Grey
        } else {
            Look::Empty
        }
    }
}

// The line from a role of a flow, which stands at height `from`, to the middle of a square, with the users
// on it.
fn edge(
    column: &mut Column,
    session: &Session,
    flow: &Flow,
    pair: Pair,
    from: usize,
    middle: usize,
) -> fmt::Result {
    let steps = [
        Step::Start(Point::at(LEAVING, from)),
        Step::Straight(column.at),
        Step::Straight(Point::at(TURN, column.at.y)),
        Step::Straight(Point::at(SQUARE, middle)),
    ];
    shapes::path(column.page, Class::Of(Look::Line, flow.number), &steps)?;
    let at = column.at.right(8).up(4);
    let mut text = Column::new(column.page, at);
    text.begin_text(Class::Of(Look::FlowText, flow.number))?;
    users::on_edge(&mut text, &session.tables.roles, pair)?;
    text.end_text()?;
    column.down(LINE);
    Ok(())
}

// The lines of one flow.
fn edges_of(
    column: &mut Column,
    session: &Session,
    flow: &Flow,
    overlap: Overlap,
    middle: usize,
) -> fmt::Result {
    for (i, r) in Members(flow.may).enumerate() {
        if sets::contains(overlap.others, r) {
            let pair = Pair(r, overlap.role);
            edge(column, session, flow, pair, flow.row(i), middle)?;
        }
    }
    Ok(())
}

// A square without a name, with a second border where it is denied.
pub(crate) fn mark(page: &mut Page, look: Look, is_denied: bool, middle: Point) -> fmt::Result {
    if is_denied {
        let border = Area::around(middle, SIDE + 8);
        shapes::rectangle(page, Class::Plain(Look::Empty), border)?;
    }
    shapes::rectangle(page, Class::Plain(look), Area::around(middle, SIDE))
}

// The square of a role.
fn square(page: &mut Page, session: &Session, overlap: Overlap, y: usize) -> fmt::Result {
    let middle = Point::at(SQUARE + SIDE / 2, y);
    let look = overlap.look(session);
    let is_denied = sets::contains(session.denied(), overlap.role);
    mark(page, look, is_denied, middle)?;
    let ink = match look {
        Look::Filled => Look::White,
        _ => Look::Middle,
    };
    shapes::label(page, ink, middle, Name::Role(overlap.role))
}

// A role with its lines, where it has any.
fn overlapping_role(column: &mut Column, session: &Session, overlap: Overlap) -> fmt::Result {
    let n = overlap.lines(session);
    if n == 0 {
        return Ok(());
    }
    let depth = n.saturating_mul(LINE).saturating_add(18);
    let middle = column.at.down(depth / 2).y;
    let next = column.at.down(depth);
    column.down(9 + LINE / 2);
    for flow in session.flows() {
        edges_of(column, session, flow, overlap, middle)?;
    }
    square(column.page, session, overlap, middle)?;
    column.at = next;
    Ok(())
}

// All overlapping roles, in a column at LEVEL.
pub(crate) fn overlapping_roles(column: &mut Column, session: &Session) -> fmt::Result {
    for o in 0..Engine::ROLES {
        overlapping_role(column, session, Overlap::of(session, o))?;
    }
    Ok(())
}
