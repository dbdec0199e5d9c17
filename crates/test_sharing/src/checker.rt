//! Whether a history is one that an office gives whose services are single, by rules that stand here alone.
use behaviour_tree::{Outcome, Reason};
use office_core::{Act, Entry, History, PostReply};
use std::alloc::{AllocError, Global};

/// How many messages wait for a session at most.
const ROOM: usize = 256;

/// The actors from this number on are workers.
const FIRST_WORKER: u32 = 4_096;

/// A session, which is of the service of the same number: whether it was adopted, the messages that were posted to it,
/// how many of them it took, and how many of these it answered.
#[derive(Drop)]
struct Session {
    adopted: bool,
    messages: Vec<u32>,
    taken: usize,
    answered: usize,
}

/// What happened so far.
#[derive(Drop)]
pub struct Tally {
    sessions: Vec<Session>,
    pub posted: u32,
    pub taken: u32,
    pub answered: u32,
}

/// What a history tells; none where an entry of it breaks a rule.
pub fn tally_of(
    alloc: Global,
    services: u32,
    history: &History,
) -> Result<Option<Tally>, AllocError> {
    let mut tally = Tally::nothing(alloc, services)?;
    for entry in &history.entries {
        if !tally.goes_on(entry)? {
            return Ok(None);
        }
    }
    Ok(Some(tally))
}

impl Tally {
    fn nothing(alloc: Global, services: u32) -> Result<Tally, AllocError> {
        let mut sessions = Vec::new(alloc);
        for _ in 0..services {
            sessions.push(Session {
                adopted: false,
                messages: Vec::new(alloc),
                taken: 0,
                answered: 0,
            })?;
        }
        Ok(Tally {
            sessions,
            posted: 0,
            taken: 0,
            answered: 0,
        })
    }

    /// Whether the entry may come next.
    fn goes_on(&mut self, entry: &Entry) -> Result<bool, AllocError> {
        match &entry.act {
            Act::Post { posted, reply, .. } => {
                if entry.actor < FIRST_WORKER {
                    return Ok(false);
                }
                self.posts(posted.service, *reply)
            }
            Act::Adopt { service } => Ok(*service == entry.actor && self.adopts(entry.actor)),
            Act::Take { message } => Ok(self.takes(entry.actor, *message)),
            Act::Reply { message, outcome } => {
                let plain = matches!(outcome, Outcome::Value(_));
                Ok(plain && self.answers(entry.actor, *message))
            }
            _ => Ok(false),
        }
    }

    /// A message is accepted under the next number unless 256 wait, and is refused for that alone.
    fn posts(&mut self, service: u32, reply: PostReply) -> Result<bool, AllocError> {
        let next = self.posted;
        let Some(session) = self.sessions.get_mut(service as usize) else {
            return Ok(false);
        };
        let waiting = session.messages.len().wrapping_sub(session.taken);
        match reply {
            PostReply::Accepted(number) => {
                session.messages.push(number)?;
                self.posted = next.wrapping_add(1);
                Ok(number == next && waiting < ROOM)
            }
            PostReply::Refused(reason) => Ok(reason == Reason::BoxFull && waiting == ROOM),
        }
    }

    /// A session is adopted once.
    fn adopts(&mut self, number: u32) -> bool {
        let Some(session) = self.sessions.get_mut(number as usize) else {
            return false;
        };
        let first = !session.adopted;
        session.adopted = true;
        first
    }

    /// A session that was adopted takes the oldest message that waits for it.
    fn takes(&mut self, number: u32, message: u32) -> bool {
        let Some(session) = self.sessions.get_mut(number as usize) else {
            return false;
        };
        let oldest = session.messages.get(session.taken).copied();
        session.taken = session.taken.wrapping_add(1);
        self.taken = self.taken.wrapping_add(1);
        session.adopted && oldest == Some(message)
    }

    /// A session answers the oldest message that it took and did not answer, with a value.
    fn answers(&mut self, number: u32, message: u32) -> bool {
        let Some(session) = self.sessions.get_mut(number as usize) else {
            return false;
        };
        let oldest = session.messages.get(session.answered).copied();
        let took = session.answered < session.taken;
        session.answered = session.answered.wrapping_add(1);
        self.answered = self.answered.wrapping_add(1);
        took && oldest == Some(message)
    }
}
