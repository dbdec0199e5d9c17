//! What is asked of the run and of sessions.

ghost use Rattle.std.specs.Prelude.{◌≡◌, map, nat_lt, if◌then◌else◌, IfOk};
ghost use Rattle.std.specs.Option.{option_copied};
ghost use Rattle.behaviour_tree.specs.PartsView.{set_view, parts_view};
ghost use Rattle.office_core.specs.Past as past;
ghost use Rattle.office_core.specs.Legal as legal;
ghost use Rattle.office_plain.specs.View.{setting_of, past_in};
ghost use Rattle.test_conditions.specs.Told as spec;

use crate::calls::both;
use behaviour_tree::{CorrelationSet, Parts};
use office_plain::{Office, SessionRow};
use std::alloc::AllocError;

/// The actors from this number on are workers.
const FIRST_WORKER: u32 = 4_096;

/// Whether the run did not stop.
pub fn is_running(office: &Office) -> bool
    ensures { result ≡ past.is_running (past_in office.now) }
{
    keeps_more(office.log().places(), office.is_closed())
}

/// Whether a worker works: it is no session, and the run did not stop.
pub fn works(office: &Office, actor: u32) -> bool
    ensures { result ≡ legal.is_at_work (past_in office.now) actor }
{
    both(is_running(office), actor >= FIRST_WORKER)
}

/// Whether a session acts: it lives and was adopted, and the run did not stop.
pub fn acts(office: &Office, session: u32) -> Result<bool, AllocError>
    ensures { IfOk result (λ b. b ≡ legal.is_acting (setting_of office.now) (past_in office.now) session) }
{
    office.ready()?;
    let row = office.kept().sessions.get(session as usize);
    Ok(row_acts(is_running(office), row))
}

/// Whether the service of a session has a variable.
pub fn has_variable(office: &Office, session: u32, variable: u32) -> Result<bool, AllocError>
    ensures { IfOk result
        (λ b. b ≡ legal.has_variable (setting_of office.now) (past_in office.now) session variable) }
{
    office.ready()?;
    match office.kept().sessions.get(session as usize) {
        Some(row) => Ok(service_has(office.program().parts(), row.service, variable)),
        None => Ok(false),
    }
}

/// Whether room is kept for more than the entry of a close that is still to come.
fn keeps_more(places: u32, closed: bool) -> bool
    ensures { result ≡ nat_lt (if closed then 0 else 1) places }
{
    if closed { places > 0 } else { places > 1 }
}

/// Whether the session of a row acts.
fn row_acts(running: bool, row: Option<&SessionRow>) -> bool
    ensures { result ≡ spec.acts_by running (option_copied row.entry) }
{
    match row {
        Some(row) => running && !row.ended && row.adopted,
        None => false,
    }
}

/// Whether the service of a number has a variable.
fn service_has(parts: &Parts, service: u32, variable: u32) -> bool
    ensures { result ≡ spec.has_in (parts_view parts.now) service variable }
{
    match parts.services.get(service as usize) {
        Some(service) => reaches(variable, &service.sets),
        None => false,
    }
}

/// Whether sets have a variable of that number, counted over all of them.
fn reaches(variable: u32, sets: &[CorrelationSet]) -> bool
    ensures { result ≡ spec.reaches variable (map set_view sets.now) }
{
    let mut left = variable as usize;
    for set in sets {
        if left < set.variables.len() {
            return true;
        }
        left -= set.variables.len();
    }
    false
}
