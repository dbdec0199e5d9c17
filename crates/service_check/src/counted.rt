//! That all that a program numbers is little enough for numbers of 32 bits.

ghost use Rattle.std.specs.Prelude.{◌≡◌, ◌<◌, ◌+◌, ◌^◌, true, map, IfOk, OnOk};
ghost use Rattle.std.specs.List.{list_all};
ghost use Rattle.behaviour_tree.specs.FormedNumbers.{are_numbered, count_sets, count_variables, is_numbered};
ghost use Rattle.behaviour_tree.specs.PartsView.{parts_view, service_view, set_view};

use behaviour_tree::{CorrelationSet, Parts, Service};
use check_base::fitting;
use std::alloc::AllocError;

/// Makes sure that all that a program numbers has a number of 32 bits.
#[tactic(auto, using(crate::proofs::AllNumbered::parts_numbered))]
pub fn all_numbered(parts: &Parts) -> Result<(), AllocError>
    ensures { OnOk result (are_numbered (parts_view parts.now) ≡ true) }
{
    numbered(parts.names.len())?;
    numbered(parts.types.len())?;
    numbered(parts.interfaces.len())?;
    numbered(parts.services.len())?;
    sets_numbered(&parts.services)?;
    services_numbered(&parts.services)
}

/// The correlation sets of all services.
fn sets_numbered(services: &[Service]) -> Result<(), AllocError>
    ensures { OnOk result (count_sets (map service_view services.now) < 2 ^ 32) }
{
    let mut count = 0;
    for service in services {
        count = sum(count, service.sets.len())?;
    }
    Ok(())
}

/// What each service has.
fn services_numbered(services: &[Service]) -> Result<(), AllocError>
    ensures { OnOk result (list_all is_numbered (map service_view services.now) ≡ true) }
{
    for service in services {
        service_numbered(service)?;
    }
    Ok(())
}

/// The ports and the correlation variables of a service.
#[tactic(auto, using(crate::proofs::AllNumbered::service_numbered))]
fn service_numbered(service: &Service) -> Result<(), AllocError>
    ensures { OnOk result (is_numbered (service_view service.now) ≡ true) }
{
    numbered(service.ports.len())?;
    variables_numbered(&service.sets)
}

/// The variables of correlation sets.
fn variables_numbered(sets: &[CorrelationSet]) -> Result<(), AllocError>
    ensures { OnOk result (count_variables (map set_view sets.now) < 2 ^ 32) }
{
    let mut count = 0;
    for set in sets {
        count = sum(count, set.variables.len())?;
    }
    Ok(())
}

/// So many things.
fn numbered(count: usize) -> Result<(), AllocError>
    ensures { OnOk result (count < 2 ^ 32) }
{
    fitting(count)?;
    Ok(())
}

/// A count with some more.
fn sum(count: u32, more: usize) -> Result<u32, AllocError>
    ensures value { IfOk result (λ n. n ≡ count + more) }
    ensures fits { IfOk result (λ n. n < 2 ^ 32) }
{
    fitting((count as usize).saturating_add(more))
}
