//! What came for sessions, as the history has it, and who is awake for it.
ghost use Rattle.std.specs.Prelude.{◌≡◌, ℕ, ◌+◌, ◌<◌, [], true, Some, OnOk, IfSome, length, slice_get};
ghost use Rattle.std.specs.List.{list_any};
ghost use Rattle.std.specs.Option.{option_copied};
ghost use Rattle.std.specs.Prelude.{nat_eq};
ghost use Rattle.office_core.specs.declared.history.Entry.{Entry as Made};
ghost use Rattle.office_core.specs.declared.message.Message.{Message as Accepted};
ghost use Rattle.office_core.specs.Laws.{number_said};
ghost use Rattle.office_plain.specs.View.{entries_of};
ghost use Rattle.run_quiet_laws.specs.Brings.{is_sent_by};
ghost use Rattle.run_cells.specs.News.{IsHeard, IsReceived, IsWoken, Keeps, Widens, is_sender, may_reach};
ghost use Rattle.run_cells.specs.View.{told_in};

use crate::awake::Awake;
use office_core::{Act, Entry, Message, Placed, PostReply};
use office_plain::Office;
use reqresp_book::Origin;
use sqlite_items::Items;
use std::alloc::{AllocError, Global};

/// Who is awake, how many entries of the history were looked at for that, and the sessions that sent messages to each
/// session by them.
#[derive(Drop)]
pub struct News {
    pub(crate) awake: Awake,
    pub(crate) heard: usize,
    pub(crate) senders: Vec<Items<u32>>,
}

impl News {
    /// Before the first entry.
    pub(crate) fn new(alloc: Global) -> News
        ensures awake { result.awake ≡ [] }
        ensures heard { result.heard ≡ 0 }
        ensures senders { result.senders.items ≡ [] }
    {
        News {
            awake: Awake::new(alloc),
            heard: 0,
            senders: Vec::new(alloc),
        }
    }

    /// Looks at the next entry, and wakes those of the first so many sessions for whom it may bring something.
    pub(crate) fn hear_next(&mut self, office: &Office, count: u32) -> Result<(), AllocError>
        requires there { self.old.heard < length (entries_of office.now) }
        ensures heard { OnOk result (self.new.heard ≡ self.old.heard + 1) }
        ensures looked { OnOk result ((e : Made) → slice_get (entries_of office.now) self.old.heard ≡ Some e
            → IsHeard office.now.kept.messages count e (told_in self.old) (told_in self.new)) }
    {
        let entry = &office.history().entries[self.heard];
        self.hear(entry, &office.kept().messages, count)?;
        self.heard += 1;
        Ok(())
    }

    /// Looks at an entry.
    fn hear(
        &mut self,
        entry: &Entry,
        messages: &Items<Message>,
        count: u32,
    ) -> Result<(), AllocError>
        ensures heard { self.new.heard ≡ self.old.heard }
        ensures looked { OnOk result (IsHeard messages.now count entry.now (told_in self.old) (told_in self.new)) }
    {
        answer(
            &mut self.awake,
            self.senders.as_slice(),
            entry,
            messages,
            count,
        )?;
        match said(&entry.act) {
            None => Ok(()),
            Some(number) => self.receive(messages.get(number as usize), count),
        }
    }

    /// Looks at a message that came, if one did: it wakes its session, and the session that sent it is noted.
    #[tactic(auto, using(crate::proofs::Hearing::received_port, crate::proofs::Hearing::received_session, crate::proofs::Hearing::keeps_not, crate::proofs::Hearing::widens_not))]
    fn receive(&mut self, message: Option<&Message>, count: u32) -> Result<(), AllocError>
        ensures heard { self.new.heard ≡ self.old.heard }
        ensures awake { OnOk result (Widens count self.old.awake self.new.awake) }
        ensures senders { OnOk result (Keeps self.old.senders.items self.new.senders.items) }
        ensures received { OnOk result (IfSome (option_copied message.entry)
            (λ m. IsReceived count m (told_in self.new))) }
    {
        let Some(message) = message else {
            return Ok(());
        };
        wake_one(&mut self.awake, message.session, count)?;
        match message.origin {
            Origin::Port { .. } => Ok(()),
            Origin::Session { session, .. } => note(&mut self.senders, message.session, session),
        }
    }
}

/// The number of the message that a call says was accepted.
fn said(act: &Act) -> Option<u32>
    ensures { result ≡ number_said act.now }
{
    match act {
        Act::Post {
            reply: PostReply::Accepted(number),
            ..
        } => Some(*number),
        Act::Send {
            placed: Placed::At(number),
            ..
        } => Some(*number),
        _ => None,
    }
}

/// Wakes those of the first so many sessions whose call an entry may answer.
#[tactic(auto, using(crate::proofs::Hearing::widens_not))]
fn answer(
    awake: &mut Awake,
    senders: &[Items<u32>],
    entry: &Entry,
    messages: &Items<Message>,
    count: u32,
) -> Result<(), AllocError>
    ensures awake { OnOk result (Widens count awake.old awake.new) }
    ensures woken { OnOk result ((s : ℕ) → may_reach messages.now senders.now s entry.now ≡ true
        → IsWoken count awake.new s) }
{
    match &entry.act {
        Act::Reply { message, .. } => wake_sender(awake, messages.get(*message as usize), count),
        Act::Answered { session, .. } => wake_one(awake, *session, count),
        Act::End => wake_senders(awake, senders.get(entry.actor as usize), count),
        _ => Ok(()),
    }
}

/// Wakes the session that sent a message, if there is one and a session sent it.
#[tactic(auto, using(crate::proofs::Hearing::widens_not))]
fn wake_sender(awake: &mut Awake, message: Option<&Message>, count: u32) -> Result<(), AllocError>
    ensures awake { OnOk result (Widens count awake.old awake.new) }
    ensures woken { OnOk result (IfSome (option_copied message.entry)
        (λ m. (s : ℕ) → is_sent_by s m ≡ true → IsWoken count awake.new s)) }
{
    let Some(message) = message else {
        return Ok(());
    };
    match message.origin {
        Origin::Port { .. } => Ok(()),
        Origin::Session { session, .. } => wake_one(awake, session, count),
    }
}

/// Wakes the sessions on a list, if there is one.
#[tactic(auto, using(crate::proofs::Hearing::widens_not))]
fn wake_senders(
    awake: &mut Awake,
    senders: Option<&Items<u32>>,
    count: u32,
) -> Result<(), AllocError>
    ensures awake { OnOk result (Widens count awake.old awake.new) }
    ensures woken { OnOk result (IfSome (option_copied senders.entry)
        (λ ss. (s : ℕ) → list_any (nat_eq s) ss ≡ true → IsWoken count awake.new s)) }
{
    match senders {
        None => Ok(()),
        Some(sessions) => wake_all(awake, sessions.as_slice(), count),
    }
}

/// Wakes those of some sessions that are of the first so many.
fn wake_all(awake: &mut Awake, sessions: &[u32], count: u32) -> Result<(), AllocError>
    ensures awake { OnOk result (Widens count awake.old awake.new) }
    ensures woken { OnOk result ((s : ℕ) → list_any (nat_eq s) sessions.now ≡ true → IsWoken count awake.new s) }
{
    for session in sessions {
        wake_one(awake, *session, count)?;
    }
    Ok(())
}

/// Wakes a session that is one of the first so many.
fn wake_one(awake: &mut Awake, session: u32, count: u32) -> Result<(), AllocError>
    ensures awake { OnOk result (Widens count awake.old awake.new) }
    ensures woken { OnOk result (IsWoken count awake.new session) }
{
    if session >= count {
        return Ok(());
    }
    awake.wake(session)
}

/// Notes who sent a message to a session.
fn note(senders: &mut Vec<Items<u32>>, session: u32, sender: u32) -> Result<(), AllocError>
    ensures kept { OnOk result (Keeps senders.old.items senders.new.items) }
    ensures noted { OnOk result (is_sender senders.new.items session sender ≡ true) }
{
    reach(senders, session)?;
    senders[session as usize].push(sender)
}

/// Makes lists up to that of a session.
fn reach(senders: &mut Vec<Items<u32>>, session: u32) -> Result<(), AllocError>
    ensures within { OnOk result (session < length senders.new.items) }
    ensures kept { OnOk result (Keeps senders.old.items senders.new.items) }
{
    while senders.len() <= session as usize {
        let none = Items::new(*senders.allocator());
        senders.push(none)?;
    }
    Ok(())
}
