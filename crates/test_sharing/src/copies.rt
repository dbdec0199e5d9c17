//! A message that one caller posted, and a session that takes in what that caller has seen.
use crate::caller::{Caller, Copied};
use crossbeam_queue::ArrayQueue;
use jolie_trees::{Text, Tree};
use office_core::{PostReply, Posted};
use office_sharing::Naming;
use office_turn::SharedOffice;
use std::alloc::{AllocError, Global};
use std::sync::Wait;
use std::thread;
use std::thread::{Threads, join};

/// How often a thread looks for what another hands it.
const LOOKS: u32 = 200_000_000;

/// The message that was posted, and the one that was taken.
#[derive(Clone, Copy)]
struct Passed {
    posted: Option<u32>,
    taken: Option<u32>,
}

/// In one thread.
pub fn in_one_thread<N: Naming, R: Wait>(
    rt: &R,
    alloc: Global,
    office: &SharedOffice<N>,
    mut worker: Caller<N>,
    mut session: Caller<N>,
) -> Result<String, AllocError> {
    let (posted, copied) = posted_and_copied(rt, alloc, office, &mut worker)?;
    let taken = taken_after(rt, office, &mut session, copied)?;
    words(alloc, &Passed { posted, taken })
}

/// In two threads, one of which hands the copy to the other.
pub fn in_two_threads<N: Naming + Send + Sync, R: Threads + Wait + Sync>(
    rt: &R,
    alloc: Global,
    office: &SharedOffice<N>,
    worker: Caller<N>,
    session: Caller<N>,
) -> Result<String, AllocError> {
    let queue = ArrayQueue::new(alloc, 1)?;
    let (taken, posted) = join(
        rt,
        || taken_of_copy(rt, office, &queue, session),
        || posted_and_handed(rt, alloc, office, &queue, worker),
    );
    words(
        alloc,
        &Passed {
            posted: posted?,
            taken: taken?,
        },
    )
}

fn posted_and_handed<N: Naming, R: Wait>(
    rt: &R,
    alloc: Global,
    office: &SharedOffice<N>,
    queue: &ArrayQueue<Copied<N>>,
    mut worker: Caller<N>,
) -> Result<Option<u32>, AllocError> {
    let (posted, copied) = posted_and_copied(rt, alloc, office, &mut worker)?;
    if queue.push(rt, copied).is_err() {
        return Ok(None);
    }
    Ok(posted)
}

fn taken_of_copy<N: Naming, R: Wait>(
    rt: &R,
    office: &SharedOffice<N>,
    queue: &ArrayQueue<Copied<N>>,
    mut session: Caller<N>,
) -> Result<Option<u32>, AllocError> {
    for _ in 0..LOOKS {
        if let Some(copied) = queue.pop(rt) {
            return taken_after(rt, office, &mut session, copied);
        }
        thread::yield_now();
    }
    Ok(None)
}

/// The message that the worker posts to the first service, and a copy of what the worker has seen then.
fn posted_and_copied<N: Naming, R: Wait>(
    rt: &R,
    alloc: Global,
    office: &SharedOffice<N>,
    worker: &mut Caller<N>,
) -> Result<(Option<u32>, Copied<N>), AllocError> {
    let posted = message(alloc, 1)?;
    let reply = worker.post(rt, office, posted)?;
    let copied = worker.copied(office);
    Ok((accepted(reply), copied))
}

/// The message that the session takes, once it took the copy in.
fn taken_after<N: Naming, R: Wait>(
    rt: &R,
    office: &SharedOffice<N>,
    session: &mut Caller<N>,
    copied: Copied<N>,
) -> Result<Option<u32>, AllocError> {
    session.take_in(office, copied);
    session.adopt(rt, office)?;
    match session.take(rt, office)? {
        Some(mail) => Ok(Some(mail.message)),
        None => Ok(None),
    }
}

/// The number of a message that was accepted.
pub fn accepted(reply: Option<PostReply>) -> Option<u32> {
    match reply {
        Some(PostReply::Accepted(number)) => Some(number),
        _ => None,
    }
}

/// A message to a service.
pub fn message(alloc: Global, service: u32) -> Result<Posted, AllocError> {
    let op = Text::new(alloc, "tell")?;
    Ok(Posted {
        service,
        op,
        value: Tree::void(alloc),
    })
}

fn words(alloc: Global, passed: &Passed) -> Result<String, AllocError> {
    match (passed.posted, passed.taken) {
        (Some(posted), Some(taken)) => format!(in alloc; "posted {posted}, taken {taken}"),
        (Some(posted), None) => format!(in alloc; "posted {posted}, nothing taken"),
        _ => String::from_str(alloc, "nothing posted"),
    }
}
