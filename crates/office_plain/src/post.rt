ghost use Rattle.std.specs.Prelude.{◌≡◌, ◌<◌, length, true, None, Some, if◌then◌else◌, IfOk, OnErr, OnOk, false};
ghost use Rattle.behaviour_tree.specs.Conforms.{conforms};
ghost use Rattle.behaviour_tree.specs.PartsView.{parts_of};
ghost use Rattle.office_core.specs.Past.{is_running};
ghost use Rattle.office_core.specs.Sessions.{births};
ghost use Rattle.office_core.specs.Limits.{run_of};
ghost use Rattle.office_core.specs.Legal.{is_at_work};
ghost use Rattle.office_core.specs.Accepted as accepted;
ghost use Rattle.office_core.specs.Route.{post_reply, route, send_reply, to_new, to_session};
ghost use Rattle.office_plain.specs.Accepting.{placed_as, with_accepted};
ghost use Rattle.office_plain.specs.Entries.{post_entry};
ghost use Rattle.office_plain.specs.Replies.{is_port};
ghost use Rattle.office_plain.specs.Ties.{Ties};
ghost use Rattle.office_plain.specs.Views.{asked_view};
ghost use Rattle.office_plain.specs.Ways.{replied_as, way_view};
ghost use Rattle.office_plain.specs.View.{setting_of, past_in, Adds};

use crate::asked::{Asked, asked_of};
use crate::office::Office;
use crate::route::Way;
use behaviour_tree::{Program, Reason, numbered};
use message_types::widen;
use office_core::{Act, Entry, Message, PostReply, Posted};
use reqresp_book::Origin;
use std::alloc::AllocError;

impl Office {
    /// Takes a message that comes in at a port, or says why it is refused.
    pub fn post(
        &mut self,
        actor: u32,
        origin: Origin,
        posted: Posted,
    ) -> Result<PostReply, AllocError>
        requires worker { is_at_work (past_in self.old) actor ≡ true }
        requires port { is_port origin ≡ true }
        ensures reply { IfOk result (λ r. r
            ≡ post_reply (past_in self.old) (route (setting_of self.old) (past_in self.old) posted)) }
        ensures added { IfOk result (λ r. Adds (post_entry actor origin posted r) self.old self.new) }
        ensures ready { OnOk result (self.new.spent ≡ false) }
        ensures able { OnOk result (self.old.out_of_memory ≡ false) }
        ensures lasting { OnErr result (self.new.out_of_memory ≡ true) }
        ensures unchanged { OnErr result (Adds None self.old self.new) }
    {
        let Origin::Port { posting, index } = origin else {
            unreachable!()
        };
        self.begin()?;
        let way = self.route(&posted)?;
        let reply = reply_of(self.accepted(origin, &posted, way)?);
        self.log.put(Entry {
            actor,
            act: Act::Post {
                posting,
                index,
                posted,
                reply,
            },
        });
        self.spent = false;
        self.out_of_memory = false;
        Ok(reply)
    }

    /// Notes a message that goes a way, and gives its number; a refusal where it goes nowhere.
    pub(crate) fn accepted(
        &mut self,
        origin: Origin,
        posted: &Posted,
        way: Way,
    ) -> Result<Result<u32, Reason>, AllocError>
        requires ready { self.old.spent ≡ false }
        requires running { is_running (past_in self.old) ≡ true }
        requires way { way_view way ≡ route (setting_of self.old) (past_in self.old) posted.now }
        ensures program { self.new.program ≡ self.old.program }
        ensures log { self.new.log ≡ self.old.log }
        ensures closed { self.new.closed ≡ self.old.closed }
        ensures lasting { self.new.out_of_memory ≡ self.old.out_of_memory }
        ensures placed { IfOk result (λ r. placed_as r ≡ send_reply (past_in self.old) (way_view way)) }
        ensures kept { OnOk result (Ties (setting_of self.old)
            (with_accepted (past_in self.old)
            (accepted.message_of (setting_of self.old) (past_in self.old) origin posted.now)) self.new.kept) }
    {
        match way {
            Way::Session(session) => Ok(Ok(self.accept(origin, posted, session, false)?)),
            Way::New => {
                let session = numbered(self.kept.sessions.len());
                Ok(Ok(self.accept(origin, posted, session, true)?))
            }
            Way::Refused(reason) => Ok(Err(reason)),
        }
    }

    /// Notes a message that goes to a session, and gives its number. The office is spent from here to the entry, since
    /// want of memory would leave it halfway.
    fn accept(
        &mut self,
        origin: Origin,
        posted: &Posted,
        session: u32,
        starts: bool,
    ) -> Result<u32, AllocError>
        requires ready { self.old.spent ≡ false }
        requires running { is_running (past_in self.old) ≡ true }
        requires way { route (setting_of self.old) (past_in self.old) posted.now
            ≡ (if starts then to_new else to_session session) }
        requires next { starts ≡ true → session ≡ length (births (setting_of self.old) (past_in self.old)) }
        ensures program { self.new.program ≡ self.old.program }
        ensures log { self.new.log ≡ self.old.log }
        ensures closed { self.new.closed ≡ self.old.closed }
        ensures lasting { self.new.out_of_memory ≡ self.old.out_of_memory }
        ensures number { IfOk result (λ n. n ≡ length (past_in self.old).messages) }
        ensures kept { OnOk result (Ties (setting_of self.old)
            (with_accepted (past_in self.old)
            (accepted.message_of (setting_of self.old) (past_in self.old) origin posted.now)) self.new.kept) }
    {
        let Some(asked) = asked_of(&self.program, posted) else {
            unreachable!()
        };
        let message = message_to(&self.program, asked, origin, session, starts)?;
        let number = numbered(self.kept.messages.len());
        self.spent = true;
        self.kept
            .accept(self.alloc, &self.program, asked.operation, message)?;
        Ok(number)
    }
}

/// The message that goes to a session, its value widened to the type of the request.
fn message_to(
    program: &Program,
    asked: Asked<'_>,
    origin: Origin,
    session: u32,
    starts: bool,
) -> Result<Message, AllocError>
    requires { conforms (parts_of program.now).types (asked_view asked).value (asked_view asked).operation.request
        ≡ true }
    ensures { IfOk result (λ m. m
        ≡ accepted.message_to (run_of (parts_of program.now)) origin session starts (asked_view asked.entry)) }
{
    let mut value = asked.value.copied()?;
    widen(&mut value, &asked.operation.request, program);
    Ok(Message {
        service: asked.number,
        op: asked.op,
        value,
        origin,
        session,
        starts,
    })
}

/// What a post answers.
fn reply_of(number: Result<u32, Reason>) -> PostReply
    ensures { result ≡ replied_as number }
{
    match number {
        Ok(number) => PostReply::Accepted(number),
        Err(reason) => PostReply::Refused(reason),
    }
}
