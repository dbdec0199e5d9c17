ghost use Rattle.std.specs.Prelude.{◌≡◌, Some, IfOk, option_map, slice_get};
ghost use Rattle.office_plain.specs.Endings.{ended_in};

use crate::queue::Queue;
use behaviour_tree::Outcome;
use correlation::Rows;
use office_core::{Call, Mail, Message};
use post_box::Boxes;
use reqresp_book::Book;
use sqlite_items::Items;
use std::alloc::AllocError;

/// What is kept of a session: its service, and whether it was adopted and has ended.
#[derive(Clone, Copy, Debug, PartialEq, Eq)]
pub struct SessionRow {
    pub service: u32,
    pub adopted: bool,
    pub ended: bool,
}

/// What the office keeps of its history, so that no call looks through it: accepted messages, their weight and that of
/// replies, sessions with the places of their calls, boxes, answers, correlation, calls with what was brought for them,
/// and those that go out.
#[derive(Drop)]
pub struct Kept {
    pub messages: Items<Message>,
    pub weight: u64,
    pub sessions: Items<SessionRow>,
    pub places: Vec<Items<usize>>,
    pub boxes: Boxes,
    pub book: Book,
    pub rows: Rows,
    pub calls: Items<Call>,
    pub outcomes: Items<Option<Outcome>>,
    pub console: Queue,
    pub remote: Queue,
}

impl Kept {
    ghost use Rattle.office_plain.specs.Replies.{mail_of};
    ghost use Rattle.office_plain.specs.Rows.{unadopted_in};

    /// A session that was born and not adopted.
    pub fn unadopted(&self, session: u32) -> Option<SessionRow>
        ensures { result ≡ unadopted_in (slice_get self.now.sessions session) }
    {
        match self.sessions.get(session as usize) {
            Some(row) if !row.adopted => Some(*row),
            Some(_) | None => None,
        }
    }

    /// A message as its session takes it.
    pub fn mail(&self, number: u32) -> Result<Option<Mail>, AllocError>
        ensures { IfOk result (λ mail. mail ≡ option_map (mail_of number) (slice_get self.now.messages number)) }
    {
        let Some(message) = self.messages.get(number as usize) else {
            return Ok(None);
        };
        Ok(Some(Mail {
            message: number,
            op: message.op,
            value: message.value.copied()?,
        }))
    }
}

/// Notes that a session ended.
pub fn end_row(rows: &mut Items<SessionRow>, session: u32)
    ensures { rows.new ≡ ended_in rows.old session }
{
    if let Some(row) = rows.get(session as usize) {
        let ended = SessionRow {
            ended: true,
            ..*row
        };
        rows.set(session as usize, ended);
    }
}
