// Tries the last version, which no list of frames reaches in a test's time: engines are made by value
// just below it and at it, and one of the old width is carried over at its own last version. Each call
// gives its answer line.
#![tactic(auto)]

use carrying::{OldDirectory, OldEngine, OldSessions, OldVersion};
use engine::{
    Answer, Changed, Constraint, Directory, Engine, Product, Sessions, Shown, Verdict, Version,
    add_flow, assign, forward, fresh, mandate, open_session, permit, read, revoke, show, withdraw,
};
use protocol::LONGEST;
use std::io::Print;
use tables::Tables;

fn main(rt: HostRuntime) {
    below(rt, engine_at(Engine::LAST_VERSION - 1));
    last(rt, engine_at(Engine::LAST_VERSION));
    moved(rt, carrying::carry_over(old()));
    versions(rt);
}

// User 1 holds role 0, which may read database 0. Nobody holds role 9, which may read database 1.
fn tables() -> Tables {
    let t = tables_by_value::empty();
    let t = tables_by_value::assign(t, 1, 0);
    let t = tables_by_value::permit(t, 0, 0);
    tables_by_value::permit(t, 9, 1)
}

// An engine with these tables at a system version; user 1 has it too.
fn engine_at(version: Version) -> Engine {
    let mut versions = [0 as Version; Engine::USERS];
    versions[1] = version;
    let directory = Directory {
        tables: tables(),
        versions,
        version,
    };
    Engine {
        directory,
        sessions: fresh().sessions,
    }
}

// One version is left: it is given once, to an assignment or to the holders of a role.
fn below(rt: HostRuntime, e: Engine) {
    said(rt, assign(e, 1, 0));
    said(rt, permit(e, 9, 2));
    said(rt, revoke(e, 9, 1));
    let permitted = said(rt, permit(e, 0, 1));
    said(rt, revoke(permitted, 0, 1));
    let revoked = said(rt, revoke(e, 0, 0));
    said(rt, permit(revoked, 0, 0));
    let assigned = said(rt, assign(e, 2, 0));
    said(rt, assign(assigned, 2, 1));
    said(rt, withdraw(assigned, 2, 0));
}

// None is left.
fn last(rt: HostRuntime, e: Engine) {
    said(rt, assign(e, 1, 1));
    said(rt, assign(e, 1, 0));
    said(rt, assign(e, 1, 64));
    said(rt, permit(e, 0, 1));
    said(rt, permit(e, 0, 0));
    said(rt, revoke(e, 0, 0));
    said(rt, revoke(e, 0, 1));
    said(rt, permit(e, 9, 2));
    said(rt, revoke(e, 9, 1));
    let mandated = said(rt, mandate(e, 0, 0));
    said(rt, revoke(mandated, 0, 0));
    let unheld = said(rt, withdraw(e, 1, 0));
    said(rt, permit(unheld, 0, 1));
    said(rt, revoke(unheld, 0, 0));
    let chained = said(rt, forward(e, 0, 1));
    let opened = said(rt, open_session(chained, Product::Server, 0));
    let added = said(rt, add_flow(opened, Product::Server, 0, 0, 0));
    shown(rt, show(added, Product::Server, 0, 0));
    answered(rt, read(added, Product::Server, 1, 0, 0, 0));
    let bank = said(rt, open_session(added, Product::TermBank, 15));
    let both = said(rt, add_flow(bank, Product::TermBank, 15, 0, 0));
    answered(rt, read(both, Product::TermBank, 1, 15, 0, 0));
}

// Users 1, 2 and 254 hold role 0, which may read database 0. The server's session 0 has a flow of the old
// last version, the term bank's session 15 one of version 255.
fn old() -> OldEngine {
    let t = tables_by_value::assign(tables(), 2, 0);
    OldEngine {
        directory: old_directory(tables_by_value::assign(t, 254, 0)),
        sessions: old_sessions(),
    }
}

fn old_directory(t: Tables) -> OldDirectory {
    let mut versions = [0 as OldVersion; Engine::USERS];
    versions[1] = 65535;
    versions[2] = 255;
    versions[254] = 256;
    let Tables {
        roles,
        readers,
        forwards,
        mandates,
    } = t;
    OldDirectory {
        roles,
        readers,
        forwards,
        mandates,
        versions,
        version: 65535,
    }
}

fn old_sessions() -> OldSessions {
    let mut counts = [0usize; Engine::ALL_SESSIONS];
    let mut reaches = [0u64; Engine::PLACES];
    let mut flows = [0 as OldVersion; Engine::PLACES];
    counts[0] = 1;
    reaches[0] = 1;
    flows[0] = 65535;
    counts[31] = 1;
    reaches[248] = 1;
    flows[248] = 255;
    OldSessions {
        opened: 1 + 2147483648,
        counts,
        roots: [0; Engine::PLACES],
        reaches,
        versions: flows,
        denies: [0; Engine::PLACES],
        rolesets: [0; Engine::ROLE_SETS],
    }
}

// It answers as before, and then goes on past the old last version.
fn moved(rt: HostRuntime, e: Engine) {
    shown(rt, show(e, Product::Server, 0, 0));
    shown(rt, show(e, Product::TermBank, 15, 0));
    reads_of_both(rt, e);
    let assigned = said(rt, assign(e, 1, 1));
    reads_of_both(rt, assigned);
    let added = said(rt, add_flow(assigned, Product::Server, 0, 0, 0));
    answered(rt, read(added, Product::Server, 1, 0, 1, 0));
    let permitted = said(rt, permit(added, 0, 1));
    answered(rt, read(permitted, Product::Server, 1, 0, 1, 0));
    answered(rt, read(permitted, Product::Server, 254, 0, 0, 0));
    shown(rt, show(permitted, Product::Server, 0, 1));
}

fn reads_of_both(rt: HostRuntime, e: Engine) {
    reads_of(rt, e, Product::Server, 0);
    reads_of(rt, e, Product::TermBank, 15);
}

fn reads_of(rt: HostRuntime, e: Engine, product: Product, session: usize) {
    for user in [1, 2, 254] {
        answered(rt, read(e, product, user, session, 0, 0));
    }
}

// Versions above 65535: a read is granted where the user's is not above the flow's, and changed where it
// is. But where both are the same, their last 16 bits tell the other way round, or in the last two their
// 32 bits with a sign.
fn versions(rt: HostRuntime) {
    let pairs = [
        (65536, 65535),
        (65535, 65536),
        (65536, 65536),
        (131072, 65537),
        (65537, 131072),
        (Engine::LAST_VERSION, Engine::LAST_VERSION),
        (Engine::LAST_VERSION - 65535, 65535),
        (65535, Engine::LAST_VERSION - 65535),
        (2147483648, 2147483647),
        (2147483647, 2147483648),
    ];
    for (flow, user) in pairs {
        reading(rt, flow, user);
    }
}

// User 1 reads a flow of one version with another of its own.
fn reading(rt: HostRuntime, flow: Version, user: Version) {
    let opened = open_session(engine_at(user), Product::Server, 0).engine;
    let mut added = add_flow(opened, Product::Server, 0, 0, 0).engine;
    added.sessions.versions[0] = flow;
    answered(rt, read(added, Product::Server, 1, 0, 0, 0));
}

// Gives the engine after a call, and writes the call's answer.
fn said(rt: HostRuntime, x: Changed) -> Engine {
    unshown(rt, x.answer);
    x.engine
}

fn answered(rt: HostRuntime, v: Verdict) {
    unshown(rt, Answer::from(v));
}

// An answer that shows no constraint.
fn unshown(rt: HostRuntime, a: Answer) {
    line(rt, a, Constraint::NONE);
}

fn shown(rt: HostRuntime, x: Shown) {
    line(rt, x.answer, x.constraint);
}

// Writes the line of an answer. Where it can't be written there is nobody to tell.
fn line(rt: HostRuntime, a: Answer, c: Constraint) {
    let mut out = [0u8; LONGEST];
    if let Some(n) = encoding::answer_line(a, c, &mut out) {
        let _ = rt.write_all(&out[..n.min(out.len())]);
    }
}
