// The users who hold two roles: on an edge where they are few, else in a list below the picture.
use super::column::Column;
use super::names::{Name, Names};
use super::shapes::{Class, Look};
use model::Engine;
use sets::Members;
use std::fmt;
use std::fmt::{Display, Write};

// How many users an edge has room for, and a line of the list.
const FIT: usize = 6;

const ON_A_LINE: usize = 32;

// Two roles, or the same one twice.
#[derive(Clone, Copy)]
pub(crate) struct Pair(pub(crate) usize, pub(crate) usize);

impl Pair {
    // Whether a user with these roles holds both. By the set of both, which stays the same from user to user:
    // all pairs of a large picture are looked for among all users.
    fn is_within(self, held: u64) -> bool {
        let both = sets::insert(sets::insert(0, self.0), self.1);
        sets::difference(both, held) == 0
    }

    // How many users hold both.
    fn count(self, roles: &[u64; Engine::USERS]) -> usize {
        roles.iter().filter(|held| self.is_within(**held)).count()
    }
}

// Which two roles a list is of, or which one.
impl Display for Pair {
    fn fmt<W: Write>(&self, f: &mut fmt::Formatter<W>) -> fmt::Result {
        let one = Name::Role(self.0);
        let other = Name::Role(self.1);
        if self.0 == self.1 {
            return write!(f, "{one} is held by");
        }
        write!(f, "{one} and {other} are held by")
    }
}

// The names of those who hold both roles, in an open text. A function of its own in the program too: within
// the one that draws the whole session its loop would keep its number in memory.
#[inline(never)]
fn users(column: &mut Column, roles: &[u64; Engine::USERS], pair: Pair) -> fmt::Result {
    let mut names = Names::new(ON_A_LINE);
    for (u, held) in roles.iter().enumerate() {
        if pair.is_within(*held) {
            names.put(column, Name::User(u))?;
        }
    }
    Ok(())
}

// What stands on the edge from one role to the other, in an open text.
pub(crate) fn on_edge(
    column: &mut Column,
    roles: &[u64; Engine::USERS],
    pair: Pair,
) -> fmt::Result {
    let role = Name::Role(pair.0);
    write!(column.page, "{role}:")?;
    let n = pair.count(roles);
    if FIT < n {
        return write!(column.page, " {n} users, listed below");
    }
    users(column, roles, pair)
}

// The users who hold both roles, where an edge has no room for them.
fn note(column: &mut Column, roles: &[u64; Engine::USERS], pair: Pair) -> fmt::Result {
    if pair.count(roles) <= FIT {
        return Ok(());
    }
    column.begin_text(Class::Plain(Look::Text))?;
    write!(column.page, "{pair}")?;
    users(column, roles, pair)?;
    column.end_text()
}

// Whether the edge between r and o comes first here: from both sides it is one pair of roles.
fn is_first(may: u64, r: usize, o: usize) -> bool {
    r <= o || !sets::contains(may, o)
}

// The lists of the edges that leave role r.
fn notes_from(
    column: &mut Column,
    roles: &[u64; Engine::USERS],
    may: u64,
    r: usize,
) -> fmt::Result {
    for o in 0..Engine::ROLES {
        if is_first(may, r, o) {
            note(column, roles, Pair(r, o))?;
        }
    }
    Ok(())
}

// All lists, of the roles that may read some flow.
pub(crate) fn notes(column: &mut Column, roles: &[u64; Engine::USERS], may: u64) -> fmt::Result {
    for r in Members(may) {
        notes_from(column, roles, may, r)?;
    }
    Ok(())
}
