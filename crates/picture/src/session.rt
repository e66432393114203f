// The picture of a session.
ghost use Rattle.std.specs.Prelude.{◌<◌};
ghost use Rattle.model.specs.Limits.{flow_count};
ghost use Rattle.model.specs.State.{all_sessions};

use super::arguments::Asked;
use super::column::Column;
use super::flows::Flow;
use super::page::Page;
use super::shapes::{Class, Look, Point};
use super::{flows, legend, overlaps, panel, shapes, users};
use arrayvec::ArrayVec;
use model::{Engine, Sessions};
use std::{fmt, io};
use tables::Tables;

// Where the columns begin.
const TOP: usize = 84;

// How far from the left the text beside the picture stands, and what stands below all columns.
const BESIDE: usize = 830;

const LEFT: usize = 24;

// An open session, as a picture shows it.
#[derive(Drop)]
pub(crate) struct Session<'a> {
    pub(crate) tables: &'a Tables,
    flows: ArrayVec<Flow, { Engine::FLOWS }>,
    // The roles that conflict today.
    pub(crate) conflicts: u64,
}

// Flow g of session s, with the roles that may read it and where its band begins.
fn flow_of(kept: &Sessions, s: usize, g: usize, may: u64, top: usize) -> Flow
    requires s_lt_all_sessions { s < all_sessions }
    requires g_lt_flow_count { g < flow_count }
{
    let at = s * Engine::FLOWS + g;
    Flow {
        number: g,
        root: kept.roots[at],
        reach: kept.reaches[at],
        may,
        constraint: values::shown(*kept, s, g).constraint,
        top,
    }
}

impl<'a> Session<'a> {
    // Session s of an engine, where it is open. It has its number among those of both products.
    #[tactic(auto, unfolding(today::specs::Today::flows_today))]
    pub(crate) fn of(engine: &'a Engine, s: usize) -> Option<Session<'a>> {
        let tables = &engine.directory.tables;
        let kept = &engine.sessions;
        if Engine::ALL_SESSIONS <= s || !sets::contains(kept.opened, s) {
            return None;
        }
        let count = today::flows_today(kept, s);
        let may = graph::roles_by_flow(&tables.readers, &kept.reaches, s, count, 0);
        let mut flows = ArrayVec::new();
        let mut top = TOP;
        for (g, roles) in may[..count].iter().enumerate() {
            let flow = flow_of(kept, s, g, *roles, top);
            top = flow.below();
            flows.push(flow);
        }
        Some(Session {
            tables,
            flows,
            conflicts: today::conflicts_today(tables, kept, s),
        })
    }

    pub(crate) fn flows(&self) -> &[Flow] {
        &self.flows
    }

    // The roles that the last flow's constraint denies.
    pub(crate) fn denied(&self) -> u64 {
        let last = self.flows().last();
        last.map_or(0, |flow| flow.constraint.deny)
    }

    // The height below the bands.
    fn below(&self) -> usize {
        self.flows().last().map_or(TOP, |flow| flow.below())
    }

    // The roles that may read some flow.
    fn readers(&self) -> u64 {
        self.flows()
            .iter()
            .fold(0, |all, flow| sets::union(all, flow.may))
    }
}

// The bands of the flows.
fn bands(page: &mut Page, session: &Session) -> fmt::Result {
    for flow in session.flows() {
        flows::draw(page, session.tables, flow)?;
    }
    Ok(())
}

// The columns of a session that has flows, beside one another. What comes next stands below them all.
fn columns(foot: &mut Column, session: &Session) -> fmt::Result {
    legend::columns(foot.page, TOP - 14)?;
    bands(foot.page, session)?;
    let mut right = Column::new(foot.page, Point::at(overlaps::LEVEL, TOP));
    overlaps::overlapping_roles(&mut right, session)?;
    let lowest = session.below().max(right.at.y);
    let mut beside = Column::new(foot.page, Point::at(BESIDE, TOP));
    panel::constraints(&mut beside, session)?;
    beside.down(8);
    panel::conflicting(&mut beside, session)?;
    foot.at.y = lowest.max(beside.at.y);
    Ok(())
}

// Draws all that stands below the title. Gives the height of the picture.
fn whole(page: &mut Page, session: &Session) -> Result<usize, fmt::Error> {
    let mut column = Column::new(page, Point::at(LEFT, 70));
    if session.flows().is_empty() {
        column.line(Look::Text, "The session is open and has no flows.")?;
        column.down(12);
    } else {
        columns(&mut column, session)?;
        column.down(30);
        users::notes(&mut column, &session.tables.roles, session.readers())?;
        column.down(10);
        legend::marks(&mut column)?;
    }
    Ok(column.at.y)
}

// Draws the picture of the session that was asked for. It is measured before, since its height stands at
// its start.
fn draw(page: &mut Page, asked: Asked, session: &Session) -> fmt::Result {
    let height = whole(&mut Page::measured(), session)?;
    legend::begin(page, height)?;
    let words = format_args!("The {asked}");
    shapes::text(page, Class::Plain(Look::Title), Point::at(LEFT, 36), words)?;
    whole(page, session)?;
    legend::end(page)?;
    page.flush()
}

// Writes the picture of the session that was asked for.
pub(crate) fn show(rt: HostRuntime, asked: Asked, session: &Session) -> io::Result<()> {
    let mut page = Page::written(rt);
    match draw(&mut page, asked, session) {
        Ok(()) => Ok(()),
        Err(_) => Err(page.failure()),
    }
}
