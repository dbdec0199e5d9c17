//! The session comes to its desk.

ghost use Rattle.std.specs.Prelude.{◌≡◌, ◌<◌, None, IfOk, IfSome, MatchOption, length};
ghost use Rattle.behaviour_tree.specs.PartsView.{parts_of};
ghost use Rattle.office_core.specs.Limits.{run_of};
ghost use Rattle.office_core.specs.Sessions.{service_of};
ghost use Rattle.run_cells.specs.RunStates.{past_in};
ghost use Rattle.run_cells.specs.Turns.{IsAdoption, fresh};
ghost use Rattle.test_seats.specs.Opening.{state_before};
ghost use Rattle.test_seats.specs.Seats.{IsSeated, stand_in, state_in};

use crate::opening::opened_after;
use crate::seat::Seat;
use behaviour_tree::Program;
use office_core::{Birth, Posted};
use office_plain::Office;
use session_term_turns::Seated;
use session_turn::Seating;
use sqlite_items::Items;
use std::alloc::{AllocError, Global};

/// Seats session 0 of a program at the start of its service, if it was born: a message came in before, if there is one.
pub fn seated<'p>(
    alloc: Global,
    program: &'p Program,
    first: Option<Posted>,
    budget: u32,
) -> Result<Option<Seat<'p>>, AllocError>
    ensures adopted { IfOk result (λ o. MatchOption o
        (service_of (run_of (parts_of program.now)) (past_in (state_before program.now budget first)) 0 ≡ None)
        (λ s. IsAdoption (state_before program.now budget first) (state_in s))) }
    ensures seated { IfOk result (λ o. IfSome o IsSeated) }
{
    let mut office = opened_after(alloc, program, first)?;
    let born = office.adopt(0)?;
    let Some(birth) = born else {
        return Ok(None);
    };
    let seat = begun(alloc, program, office, birth, budget)?;
    Ok(Some(seat))
}

/// A session that was adopted, at the start of its service.
fn begun<'p>(
    alloc: Global,
    program: &'p Program,
    office: Office,
    birth: Birth,
    budget: u32,
) -> Result<Seat<'p>, AllocError>
    requires { birth.service < length (parts_of program.now).services }
    ensures program { IfOk result (λ s. s.program.now ≡ program.now) }
    ensures office { IfOk result (λ s. s.office ≡ office) }
    ensures budget { IfOk result (λ s. s.budget ≡ budget) }
    ensures stand { IfOk result (λ s. stand_in s ≡ fresh (run_of (parts_of program.now)) birth.service) }
{
    let session = Seated::start(alloc, program, birth.service)?;
    let events = Items::new(alloc);
    Ok(Seat {
        program,
        office,
        session,
        events,
        budget,
    })
}
