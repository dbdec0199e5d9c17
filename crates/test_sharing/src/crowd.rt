//! Four threads, each with a worker and a session of its own: the worker posts to the next one's session, which answers.
use crate::caller::Caller;
use crate::copies::{accepted, message};
use crate::server::Server;
use office_sharing::Naming;
use office_turn::SharedOffice;
use std::alloc::{AllocError, Global};
use std::sync::Wait;
use std::thread;
use std::thread::{Threads, for_each_mut};

/// How many messages each worker posts, and each session takes and answers.
const EACH: u32 = 2_500;

/// How often a thread tries to go on.
const TRIES: u32 = 200_000_000;

/// What one thread calls with.
#[derive(Drop)]
pub struct Member<N: Naming> {
    pub worker: Caller<N>,
    pub session: Server<N>,
    /// The service to which the worker posts.
    pub service: u32,
    pub posted: u32,
    pub answered: u32,
}

/// All members call, each in a thread of its own.
pub fn act<N: Naming + Send + Sync, R: Threads + Wait + Sync>(
    rt: &R,
    alloc: Global,
    office: &SharedOffice<N>,
    members: &mut [Member<N>],
) {
    for_each_mut(
        rt,
        members,
        4,
        &|_, member| act_alone(rt, alloc, office, member),
    );
}

/// Out of memory, the member does no more: its counts tell.
fn act_alone<N: Naming, R: Wait>(
    rt: &R,
    alloc: Global,
    office: &SharedOffice<N>,
    member: &mut Member<N>,
) {
    for _ in 0..TRIES {
        if step(rt, alloc, office, member).unwrap_or(true) {
            return;
        }
        thread::yield_now();
    }
}

/// Posts one message more and answers one, where one is left, and says whether none was.
fn step<N: Naming, R: Wait>(
    rt: &R,
    alloc: Global,
    office: &SharedOffice<N>,
    member: &mut Member<N>,
) -> Result<bool, AllocError> {
    let posted = post_next(rt, alloc, office, member)?;
    let answered = answer_next(rt, alloc, office, member)?;
    Ok(posted && answered)
}

/// Posts one message more, where one is left, and says whether none was.
fn post_next<N: Naming, R: Wait>(
    rt: &R,
    alloc: Global,
    office: &SharedOffice<N>,
    member: &mut Member<N>,
) -> Result<bool, AllocError> {
    if member.posted >= EACH {
        return Ok(true);
    }
    let posted = message(alloc, member.service)?;
    let reply = member.worker.post(rt, office, posted)?;
    if accepted(reply).is_some() {
        member.posted += 1;
    }
    Ok(false)
}

/// Answers one message more, where one is left, and says whether none was.
fn answer_next<N: Naming, R: Wait>(
    rt: &R,
    alloc: Global,
    office: &SharedOffice<N>,
    member: &mut Member<N>,
) -> Result<bool, AllocError> {
    if member.answered >= EACH {
        return Ok(true);
    }
    if member.session.serve(rt, alloc, office)? {
        member.answered += 1;
    }
    Ok(false)
}
