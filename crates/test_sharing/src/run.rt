//! The office of a program, shared by callers of all numbers.
ghost use Rattle.std.specs.Prelude.{◌≡◌};
ghost use Rattle.behaviour_tree.specs.PartsView.{parts_of};
ghost use Rattle.office_sharing.specs.Named.{IsProgramOf, parts_by};

use crate::checker::tally_of;
use crate::copies::{in_one_thread, in_two_threads};
use crate::crowd::{Member, act};
use crate::maker::Maker;
use crate::server::Server;
use behaviour_tree::Program;
use office_core::History;
use office_plain::Office;
use office_sharing::Naming;
use office_turn::{Opened, SharedOffice};
use std::alloc::{AllocError, Global};
use std::marker::Brand;
use std::sync::Wait;
use std::thread::Threads;

/// The services of the program, each of which is single.
const SERVICES: u32 = 5;

/// The members of a crowd, whose sessions have the numbers from 1 on.
const MEMBERS: u32 = 4;

/// The actors from this number on are workers.
const FIRST_WORKER: u32 = 4_096;

/// Who calls the office.
#[derive(Clone, Copy)]
enum Callers {
    /// A worker and a session, in one thread.
    OneThread,
    /// A worker and a session, each in a thread of its own.
    TwoThreads,
    /// Four workers and four sessions, in four threads.
    Crowd,
}

/// What the office of a program gives that is shared so.
pub fn told<R: Threads + Wait + Sync>(
    rt: &R,
    alloc: Global,
    program: &Program,
    what: &str,
) -> anyhow::Result<String> {
    let callers = callers_of(what);
    let copy = program.again()?;
    let office = Office::new(alloc, copy)?;
    match Opened::new(alloc, office) {
        Ok(opened) => Ok(told_of::<Brand, _>(rt, alloc, program, opened, callers)?),
        Err(failed) => Err(failed)?,
    }
}

fn callers_of(what: &str) -> Callers {
    if what == "one thread" {
        Callers::OneThread
    } else if what == "two threads" {
        Callers::TwoThreads
    } else {
        Callers::Crowd
    }
}

fn told_of<N: Naming + Send + Sync, R: Threads + Wait + Sync>(
    rt: &R,
    alloc: Global,
    program: &Program,
    opened: Opened,
    callers: Callers,
) -> Result<String, AllocError>
    requires table { opened.table.shared.table_id ≡ N.table }
    requires program { IsProgramOf N.program opened.table.shared.key.value }
    requires parts { parts_of program.now ≡ parts_by N.program }
{
    let (office, pass) = opened.named::<N>();
    let maker = Maker::new(pass);
    match callers {
        Callers::Crowd => crowd(rt, alloc, program, office, maker),
        _ => copy(rt, alloc, &office, callers, maker),
    }
}

/// So many numbers are given to nobody.
fn pass_over<N: Naming>(office: &SharedOffice<N>, maker: &mut Maker<N>, count: u32) {
    for _ in 0..count {
        if let Some(caller) = maker.caller(office) {
            maker.join(office, caller);
        }
    }
}

/// The first session and the first worker.
fn copy<N: Naming + Send + Sync, R: Threads + Wait + Sync>(
    rt: &R,
    alloc: Global,
    office: &SharedOffice<N>,
    callers: Callers,
    mut maker: Maker<N>,
) -> Result<String, AllocError> {
    let session = maker.caller(office);
    pass_over(office, &mut maker, FIRST_WORKER - 2);
    let (Some(worker), Some(session)) = (maker.caller(office), session) else {
        return String::from_str(alloc, "no callers");
    };
    drop(maker);
    match callers {
        Callers::TwoThreads => in_two_threads(rt, alloc, office, worker, session),
        _ => in_one_thread(rt, alloc, office, worker, session),
    }
}

/// All members call; then all callers come back, and the history is looked at.
fn crowd<N: Naming + Send + Sync, R: Threads + Wait + Sync>(
    rt: &R,
    alloc: Global,
    program: &Program,
    office: SharedOffice<N>,
    mut maker: Maker<N>,
) -> Result<String, AllocError>
    requires { parts_of program.now ≡ parts_by N.program }
{
    let mut members = members(rt, alloc, program, &office, &mut maker)?;
    act(rt, alloc, &office, members.as_mut_slice());
    all_back(&office, &mut maker, members);
    match maker.history(office) {
        Some(history) => words(alloc, &history),
        None => String::from_str(alloc, "not all came back"),
    }
}

/// The sessions have the first numbers. Each member has one of them and a worker, which posts to the session of the
/// member before it.
fn members<N: Naming, R: Wait>(
    rt: &R,
    alloc: Global,
    program: &Program,
    office: &SharedOffice<N>,
    maker: &mut Maker<N>,
) -> Result<Vec<Member<N>>, AllocError>
    requires { parts_of program.now ≡ parts_by N.program }
{
    let mut sessions = Vec::new(alloc);
    for _ in 0..MEMBERS {
        if let Some(session) = adopted(rt, program, office, maker)? {
            sessions.push(session)?;
        }
    }
    pass_over(office, maker, FIRST_WORKER - MEMBERS - 1);
    with_workers(alloc, office, maker, sessions)
}

fn adopted<N: Naming, R: Wait>(
    rt: &R,
    program: &Program,
    office: &SharedOffice<N>,
    maker: &mut Maker<N>,
) -> Result<Option<Server<N>>, AllocError>
    requires { parts_of program.now ≡ parts_by N.program }
{
    match maker.newcomer(office) {
        Some(pass) => Server::adopted(rt, office, program, pass),
        None => Ok(None),
    }
}

fn with_workers<N: Naming>(
    alloc: Global,
    office: &SharedOffice<N>,
    maker: &mut Maker<N>,
    sessions: Vec<Server<N>>,
) -> Result<Vec<Member<N>>, AllocError> {
    let mut members = Vec::new(alloc);
    let mut service = MEMBERS;
    for session in sessions {
        if let Some(worker) = maker.caller(office) {
            members.push(Member {
                worker,
                session,
                service,
                posted: 0,
                answered: 0,
            })?;
        }
        service = service % MEMBERS + 1;
    }
    Ok(members)
}

fn all_back<N: Naming>(office: &SharedOffice<N>, maker: &mut Maker<N>, members: Vec<Member<N>>) {
    for member in members {
        let Member {
            worker,
            session,
            service: _,
            posted: _,
            answered: _,
        } = member;
        maker.join(office, worker);
        maker.join_server(office, session);
    }
}

fn words(alloc: Global, history: &History) -> Result<String, AllocError> {
    match tally_of(alloc, SERVICES, history)? {
        Some(tally) => {
            let posted = tally.posted;
            let taken = tally.taken;
            let answered = tally.answered;
            format!(in alloc; "{posted} posted, {taken} taken, {answered} answered, legal")
        }
        None => String::from_str(alloc, "not legal"),
    }
}
