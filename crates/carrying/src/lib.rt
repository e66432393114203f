// An engine of the width before request K4 is carried over: its versions had 16 bits. Any value of the
// old struct is taken, also one that no calls lead to.
#![tactic(auto)]

ghost use Rattle.std.specs.Prelude.{◌≡◌};
ghost use Rattle.carrying.specs.Carrying.{carried_directory, carried_sessions, carried_over};

use model::{Directory, Engine, Sessions, Version};
use tables::Tables;

// What versions were kept in.
pub type OldVersion = u16;

// Who held and might read what, and since when. The tables have the rows that they have today.
// Kept: the old structs stand by themselves and share no struct with today's, so that no change of those
// reaches them: what is promised of carrying over speaks of the engine that there was. So they have its
// arrays beside one another.
#[derive(Clone, Copy)]
pub struct OldDirectory {
    pub roles: [u64; Engine::USERS],
    pub readers: [u64; Engine::DATABASES],
    pub forwards: [u64; Engine::DATABASES],
    pub mandates: [u64; Engine::DATABASES],
    pub versions: [OldVersion; Engine::USERS],
    pub version: OldVersion,
}

// What was asked to be kept apart, in the places that it has today.
#[derive(Clone, Copy)]
pub struct OldSessions {
    pub opened: u64,
    pub counts: [usize; Engine::ALL_SESSIONS],
    pub roots: [usize; Engine::PLACES],
    pub reaches: [u64; Engine::PLACES],
    pub versions: [OldVersion; Engine::PLACES],
    pub denies: [u64; Engine::PLACES],
    pub rolesets: [u64; Engine::ROLE_SETS],
}

#[derive(Clone, Copy)]
pub struct OldEngine {
    pub directory: OldDirectory,
    pub sessions: OldSessions,
}

// Each user's version and the system's, and the tables as they are.
impl From<OldDirectory> for Directory {
    ghost from_gives = { λ old new. new ≡ carried_directory old };

    fn from(old: OldDirectory) -> Self {
        let OldDirectory {
            roles,
            readers,
            forwards,
            mandates,
            versions: narrow,
            version,
        } = old;
        let users = narrow.map(|v| Version::from(v));
        let tables = Tables {
            roles,
            readers,
            forwards,
            mandates,
        };
        Directory {
            tables,
            versions: users,
            version: Version::from(version),
        }
    }
}

// Each flow's version, and all else as it is.
impl From<OldSessions> for Sessions {
    ghost from_gives = { λ old new. new ≡ carried_sessions old };

    fn from(old: OldSessions) -> Self {
        let OldSessions {
            opened,
            counts,
            roots,
            reaches,
            versions: narrow,
            denies,
            rolesets,
        } = old;
        let flows = narrow.map(|v| Version::from(v));
        Sessions {
            opened,
            counts,
            roots,
            reaches,
            versions: flows,
            denies,
            rolesets,
        }
    }
}

// Each version's number and all else, unchanged.
#[tactic(auto, unfolding(crate::specs::Carrying::carried_over))]
pub fn carry_over(old: OldEngine) -> Engine
    ensures { result ≡ carried_over old }
{
    let directory = Directory::from(old.directory);
    let sessions = Sessions::from(old.sessions);
    Engine {
        directory,
        sessions,
    }
}
