// The text beside the picture: the constraint of each flow, and why each role conflicts.
use super::column::{Column, LINE};
use super::flows::Flow;
use super::names::{Name, Names};
use super::overlaps::Overlap;
use super::session::Session;
use super::shapes::{Class, Look};
use super::{flows, shapes};
use model::Engine;
use sets::Members;
use std::fmt;
use std::fmt::{Display, Write};

// How many roles stand on a line.
const ON_A_LINE: usize = 9;

// A flow, and the role by which a user reads it.
#[derive(Clone, Copy)]
struct Reading {
    flow: usize,
    role: usize,
}

// Why a role conflicts: a user who holds it, and two flows that this user reads.
#[derive(Clone, Copy)]
struct Reason {
    user: usize,
    one: Reading,
    other: Reading,
}

impl Reading {
    // The first role by which a user with these roles reads a flow.
    fn of(flow: &Flow, held: u64) -> Option<Reading> {
        let role = Members(sets::intersection(held, flow.may)).next()?;
        Some(Reading {
            flow: flow.number,
            role,
        })
    }
}

impl Display for Reading {
    fn fmt<W: Write>(&self, f: &mut fmt::Formatter<W>) -> fmt::Result {
        let flow = self.flow;
        let role = Name::Role(self.role);
        write!(f, "flow {flow:02x} by {role}")
    }
}

impl Display for Reason {
    fn fmt<W: Write>(&self, f: &mut fmt::Formatter<W>) -> fmt::Result {
        let user = self.user;
        let one = self.one;
        let other = self.other;
        write!(f, "user {user:02x} holds it, reads {one} and {other}")
    }
}

// A heading.
fn heading(column: &mut Column, words: &str) -> fmt::Result {
    column.line(Look::Heading, words)?;
    column.down(2);
    Ok(())
}

// A text: its first words, and then the roles of a set, or what is said of none.
fn roles<D: Display + Drop>(column: &mut Column, words: D, set: u64, none: &str) -> fmt::Result {
    column.begin_text(Class::Plain(Look::Text))?;
    column.page.write(words)?;
    if set == 0 {
        column.page.write_str(none)?;
    }
    let mut names = Names::new(ON_A_LINE);
    for r in Members(set) {
        names.put(column, Name::Role(r))?;
    }
    column.end_text()
}

// A constraint's role sets: one for each flow up to its own.
fn role_sets(column: &mut Column, flow: &Flow) -> fmt::Result {
    for (h, set) in flow.constraint.roles.iter().enumerate() {
        if h <= flow.number {
            let words = format_args!("role set for flow {h:02x}:");
            roles(column, words, *set, " none")?;
        }
    }
    Ok(())
}

// The constraint of a flow: its version, whom it denies, its role sets.
fn constraint(column: &mut Column, flow: &Flow) -> fmt::Result {
    flows::title(column.page, flow, column.at)?;
    let version = flow.constraint.version;
    let words = format_args!("version {version:08x}");
    let beside = column.at.right(62);
    shapes::text(column.page, Class::Plain(Look::Text), beside, words)?;
    column.down(LINE);
    roles(column, "denies:", flow.constraint.deny, " nobody")?;
    role_sets(column, flow)?;
    column.down(6);
    Ok(())
}

// The constraints of all flows.
pub(crate) fn constraints(column: &mut Column, session: &Session) -> fmt::Result {
    heading(column, "Constraints")?;
    for flow in session.flows() {
        constraint(column, flow)?;
    }
    Ok(())
}

// The first two flows that a user with these roles reads.
fn two_readings(session: &Session, held: u64) -> Option<(Reading, Reading)> {
    let mut readings = session
        .flows()
        .iter()
        .filter_map(|flow| Reading::of(flow, held));
    Some((readings.next()?, readings.next()?))
}

// Why role c conflicts: the first user who holds it and reads two flows, and the first two of these.
fn why(session: &Session, c: usize) -> Option<Reason> {
    let mut users = session.tables.roles.iter().enumerate();
    users.find_map(|(user, held)| {
        if !sets::contains(*held, c) {
            return None;
        }
        let (one, other) = two_readings(session, *held)?;
        Some(Reason { user, one, other })
    })
}

// Why each role conflicts that does.
fn reasons(column: &mut Column, session: &Session) -> fmt::Result {
    for c in Members(session.conflicts) {
        if let Some(reason) = why(session, c) {
            let role = Name::Role(c);
            column.line(Look::Text, format_args!("{role}: {reason}"))?;
        }
    }
    Ok(())
}

// The roles that have two colours or more and don't conflict.
fn cleared(session: &Session) -> u64 {
    let coloured = (0..Engine::ROLES)
        .filter(|o| Overlap::of(session, *o).is_coloured(session))
        .fold(0, sets::insert);
    sets::difference(coloured, session.conflicts)
}

// Says of them that they don't.
fn clearings(column: &mut Column, session: &Session) -> fmt::Result {
    let set = cleared(session);
    if set == 0 {
        return Ok(());
    }
    column.down(14);
    heading(column, "Lines of two flows, and no conflict")?;
    let words = "Nobody who holds the role reads two flows:";
    column.line(Look::Text, words)?;
    roles(column, "", set, "")
}

// Which roles conflict today, and why.
pub(crate) fn conflicting(column: &mut Column, session: &Session) -> fmt::Result {
    let words = if session.conflicts == 0 {
        "No role conflicts today"
    } else {
        "Why roles conflict today"
    };
    heading(column, words)?;
    reasons(column, session)?;
    clearings(column, session)
}
