//! What an accepted message makes of what is kept.

ghost use Rattle.std.specs.Prelude.{◌≡◌, ◌≢◌, ◌<◌, ◌^◌, ◌++◌, [], ◌∷◌, ℕ, false, true, None, Some, OnOk, is_some, length};
ghost use Rattle.behaviour_tree.specs.PartsView.{operation_view, parts_of};
ghost use Rattle.correlation.specs.Sessions.{is_born};
ghost use Rattle.correlation.specs.View.{sessions_of};
ghost use Rattle.post_box.specs.Oldest.{waiting};
ghost use Rattle.post_box.specs.Refusals.{HasRoom};
ghost use Rattle.post_box.specs.View.{box_of, ChangesOnly};
ghost use Rattle.reqresp_book.specs.View.{origin_of, standing_of};
ghost use Rattle.office_plain.specs.Accepting.{standing_first, Accepts, CanStart, Starts};

use crate::kept::Kept;
use crate::weights::weight;
use crate::writing::write_first;
use behaviour_tree::{Operation, Outcome, Program, numbered};
use jolie_trees::Tree;
use office_core::Message;
use post_box::{Boxes, PutError};
use reqresp_book::{Book, Origin};
use std::alloc::{AllocError, Global};

impl Kept {
    /// Notes an accepted message.
    pub(crate) fn accept(
        &mut self,
        alloc: Global,
        program: &Program,
        operation: &Operation,
        message: Message,
    ) -> Result<(), AllocError>
        requires few { length self.old.messages < 2 ^ 32 }
        requires fresh { origin_of self.old.book (length self.old.messages) ≡ None }
        requires unborn { message.starts ≡ true → is_born (sessions_of self.old.rows) message.session ≡ false }
        requires free { CanStart (parts_of program.now) (operation_view operation.now) message
            (sessions_of self.old.rows) }
        requires room { HasRoom (box_of self.old.boxes message.session) }
        ensures { OnOk result (Accepts (parts_of program.now) (operation_view operation.now) message self.old
            self.new) }
    {
        let number = numbered(self.messages.len());
        note(alloc, &mut self.book, operation, number, message.origin)?;
        self.start(alloc, program, operation, &message)?;
        put(&mut self.boxes, message.session, message.op, number)?;
        self.weight = self.weight.saturating_add(weight(&message.value));
        self.messages.push(message)?;
        Ok(())
    }

    /// Notes the session that a message starts, with what it has of the session's variables.
    fn start(
        &mut self,
        alloc: Global,
        program: &Program,
        operation: &Operation,
        message: &Message,
    ) -> Result<(), AllocError>
        requires unborn { message.now.starts ≡ true → is_born (sessions_of self.old.rows) message.now.session
            ≡ false }
        requires free { CanStart (parts_of program.now) (operation_view operation.now) message.now
            (sessions_of self.old.rows) }
        ensures { OnOk result (Starts (parts_of program.now) (operation_view operation.now) message.now self.old
            self.new) }
    {
        if !message.starts {
            return Ok(());
        }
        self.open_session(alloc, program, message.service, message.session)?;
        write_first(&mut self.rows, program, operation, message)?;
        Ok(())
    }
}

/// Notes where a message came from; one that asks for no answer has its answer at once.
fn note(
    alloc: Global,
    book: &mut Book,
    operation: &Operation,
    number: u32,
    origin: Origin,
) -> Result<(), AllocError>
    requires { origin_of book.old number ≡ None }
    ensures noted { OnOk result (origin_of book.new number ≡ Some origin) }
    ensures origins { OnOk result ((n : ℕ) → n ≢ number → origin_of book.new n ≡ origin_of book.old n) }
    ensures standing { OnOk result (standing_of book.new number
        ≡ Some (standing_first (is_some (operation_view operation.now).response))) }
    ensures standings { OnOk result ((n : ℕ) → n ≢ number → standing_of book.new n ≡ standing_of book.old n) }
{
    book.open(number, origin)?;
    if operation.response.is_some() {
        return Ok(());
    }
    book.answer(number, Outcome::Value(Tree::void(alloc)));
    Ok(())
}

/// Puts a message into the box of its session, which has room.
fn put(boxes: &mut Boxes, session: u32, op: u32, number: u32) -> Result<(), AllocError>
    requires { HasRoom (box_of boxes.old session) }
    ensures { OnOk result (ChangesOnly session (box_of boxes.old session ++ waiting op number ∷ []) boxes.old
        boxes.new) }
{
    match boxes.put(session, op, number) {
        Ok(()) => Ok(()),
        Err(PutError::Full) => unreachable!(),
        Err(PutError::Memory(error)) => Err(error),
    }
}
