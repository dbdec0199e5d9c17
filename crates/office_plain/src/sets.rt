//! The correlation sets of services, numbered over the whole program.

ghost use Rattle.std.specs.Prelude.{◌≡◌, ◌≤◌, ◌<◌, ◌+◌, ◌-◌, ◌^◌, ◌++◌, IfOk, OnOk, Some, length, map, slice_get, take};
ghost use Rattle.std.specs.List.{range_with_len};
ghost use Rattle.behaviour_tree.specs.Data.{ServicePart};
ghost use Rattle.behaviour_tree.specs.FormedNumbers.{count_sets as count_of_sets, count_variables};
ghost use Rattle.behaviour_tree.specs.PartsView.{parts_of, service_view, set_view};
ghost use Rattle.office_core.specs.Keys.{sets_from};
ghost use Rattle.office_plain.specs.SetNumbers as spec;

use crate::numbers::sum;
use crate::services::services_of;
use behaviour_tree::{CorrelationSet, Program, Service};
use correlation::{SetOf, Variables};
use std::alloc::{AllocError, Global};

/// How many sets the services before one have.
pub fn sets_before(program: &Program, service: u32) -> u32
    ensures count { result ≡ spec.sets_before (parts_of program.now) service }
    ensures few { (d : ServicePart) → slice_get (parts_of program.now).services service ≡ Some d
        → result + length d.sets < 2 ^ 32 }
{
    let first = first_services(services_of(program), service as usize);
    count_sets(first)
}

/// The first services, as many as there are up to a number.
fn first_services(services: &[Service], count: usize) -> &[Service]
    ensures { result.now ≡ take count services.now }
{
    if count < services.len() {
        &services[..count]
    } else {
        services
    }
}

/// How many sets services have.
fn count_sets(services: &[Service]) -> u32
    requires { count_of_sets (map service_view services.now) < 2 ^ 32 }
    ensures { result ≡ count_of_sets (map service_view services.now) }
{
    let mut count = 0;
    for service in services {
        count = sum(count, service.sets.len());
    }
    count
}

/// The sets of a service that have a variable, numbered over the whole program.
pub fn numbered_sets(
    alloc: Global,
    program: &Program,
    service: u32,
) -> Result<Vec<SetOf>, AllocError>
    ensures { IfOk result (λ sets. sets.items ≡ spec.numbered_sets (parts_of program.now) service) }
{
    let Some(part) = program.parts().services.get(service as usize) else {
        return Ok(Vec::new(alloc));
    };
    let first = sets_before(program, service);
    let sets = numbered_from(alloc, first, &part.sets)?;
    Ok(sets)
}

/// Sets that have a variable, numbered from a number on.
fn numbered_from(
    alloc: Global,
    first: u32,
    sets: &[CorrelationSet],
) -> Result<Vec<SetOf>, AllocError>
    requires sets { first + length sets.now < 2 ^ 32 }
    requires variables { count_variables (map set_view sets.now) < 2 ^ 32 }
    ensures { IfOk result (λ list. list.items ≡ spec.numbered_from first (sets_from 0 (map set_view sets.now))) }
{
    let mut list = Vec::new(alloc);
    let mut number = first;
    let mut variable = 0;
    for set in sets {
        let next = sum(variable, set.variables.len());
        push_set(alloc, &mut list, number, variable, next)?;
        number = sum(number, 1);
        variable = next;
    }
    Ok(list)
}

/// Adds the set of a number with the variables from one number to another, if there are any.
fn push_set(
    alloc: Global,
    list: &mut Vec<SetOf>,
    set: u32,
    first: u32,
    end: u32,
) -> Result<(), AllocError>
    ensures { OnOk result (list.new.items ≡ list.old.items ++ spec.set_from set first end) }
{
    if first >= end {
        return Ok(());
    }
    let variables = numbers_from(alloc, first, end)?;
    list.push(SetOf { set, variables })?;
    Ok(())
}

/// The numbers from one on, below another.
fn numbers_from(alloc: Global, first: u32, end: u32) -> Result<Variables, AllocError>
    requires { first ≤ end }
    ensures { IfOk result (λ variables. variables ≡ range_with_len first (end - first)) }
{
    let mut numbers = Vec::new(alloc);
    for number in first..end {
        numbers.push(number)?;
    }
    Ok(Variables::from_vec(numbers))
}
