//! Open messages are answered.

ghost use Rattle.std.specs.Prelude.{◌≡◌, ◌≢◌, ℕ, []};
ghost use Rattle.post_box.specs.View.{box_of};
ghost use Rattle.reqresp_book.specs.View.{standing_of, HaveSameOrigins};
ghost use Rattle.office_plain.specs.Endings.{answered_at, ended_at, stopped_at};

use behaviour_tree::{Outcome, Reason};
use post_box::Boxes;
use reqresp_book::Book;

/// Answers a message, if it is open.
pub fn answer_if_open(book: &mut Book, message: u32, outcome: Outcome)
    ensures origins { HaveSameOrigins book.old book.new }
    ensures standings { (n : ℕ) → standing_of book.new n ≡ answered_at message outcome n (standing_of book.old n) }
{
    if !book.is_open(message) {
        return;
    }
    book.answer(message, outcome);
}

/// Empties the boxes of a session, and answers the open messages that waited there.
pub fn answer_waiting(boxes: &mut Boxes, book: &mut Book, session: u32)
    ensures emptied { box_of boxes.new session ≡ [] }
    ensures others { (s : ℕ) → s ≢ session → box_of boxes.new s ≡ box_of boxes.old s }
    ensures origins { HaveSameOrigins book.old book.new }
    ensures standings { (n : ℕ) → standing_of book.new n
        ≡ ended_at n (box_of boxes.old session) (standing_of book.old n) }
{
    while let Some(message) = boxes.take_any(session) {
        answer_if_open(book, message, Outcome::Refused(Reason::SessionEnded));
    }
}

/// Answers each open message below a number by the stop.
pub fn answer_below(book: &mut Book, count: u32)
    ensures origins { HaveSameOrigins book.old book.new }
    ensures standings { (n : ℕ) → standing_of book.new n ≡ stopped_at count n (standing_of book.old n) }
{
    for number in 0..count {
        answer_if_open(book, number, Outcome::Refused(Reason::Stopped));
    }
}
