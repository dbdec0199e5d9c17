//! What the message that starts a session writes into its variables.

ghost use Rattle.std.specs.Prelude.{◌≡◌, ◌+◌, ◌<◌, ◌^◌, [], Some, true, flat_map, map, length, IfOk, OnOk};
ghost use Rattle.std.specs.List.{cons_option, filter_map};
ghost use Rattle.std.specs.Option.{option_copied};
ghost use Rattle.behaviour_tree.specs.FormedNumbers.{count_variables};
ghost use Rattle.behaviour_tree.specs.PartsView.{operation_view, parts_of, set_view, variable_view};
ghost use Rattle.behaviour_tree.specs.View.{type_view};
ghost use Rattle.correlation.specs.Sessions.{changed, is_live, reply_to, write};
ghost use Rattle.correlation.specs.View.{sessions_of};
ghost use Rattle.correlation.specs.declared.bind_reply.BindReply.TheVariants.{Bound};
ghost use Rattle.office_core.specs.Keys.{sets_from, variables_from};
ghost use Rattle.office_plain.specs.Accepting.{brought, write_all, written_by, written_into, CanWrite};
ghost use Rattle.office_plain.specs.Kept.{variables_of};

use crate::aliases::value_of;
use crate::numbers::sum;
use behaviour_tree::{CorrelationSet, Operation, Program, SetVariable, TypeDef};
use correlation::{BindReply, Rows};
use jolie_trees::Root;
use office_core::Message;
use std::alloc::AllocError;

/// Writes what the message that starts a session has of its variables.
pub(crate) fn write_first(
    rows: &mut Rows,
    program: &Program,
    operation: &Operation,
    message: &Message,
) -> Result<(), AllocError>
    requires live { is_live (sessions_of rows.old) message.now.session ≡ true }
    requires free { CanWrite message.now.session (sessions_of rows.old)
        (brought (parts_of program.now) (operation_view operation.now) message.now) }
    ensures { OnOk result (sessions_of rows.new ≡ changed message.now.session
        (write_all (brought (parts_of program.now) (operation_view operation.now) message.now)) (sessions_of rows.old)) }
{
    let sets = sets_of(program, message.service);
    write_sets(rows, sets, &operation.request, message)?;
    Ok(())
}

/// The sets of the service of a number.
fn sets_of(program: &Program, service: u32) -> &[CorrelationSet]
    ensures variables { flat_map (λ vs. vs) (sets_from 0 (map set_view result.now))
        ≡ variables_of (parts_of program.now) service }
    ensures few { count_variables (map set_view result.now) < 2 ^ 32 }
{
    match program.parts().services.get(service as usize) {
        Some(service) => service.sets.as_slice(),
        None => &[],
    }
}

/// Writes what a message of a type has of the variables of sets.
fn write_sets(
    rows: &mut Rows,
    sets: &[CorrelationSet],
    ty: &TypeDef,
    message: &Message,
) -> Result<(), AllocError>
    requires live { is_live (sessions_of rows.old) message.now.session ≡ true }
    requires free { CanWrite message.now.session (sessions_of rows.old)
        (filter_map (written_by (type_view ty.now) message.now.value)
        (flat_map (λ vs. vs) (sets_from 0 (map set_view sets.now)))) }
    requires few { count_variables (map set_view sets.now) < 2 ^ 32 }
    ensures { OnOk result (sessions_of rows.new ≡ changed message.now.session
        (write_all (filter_map (written_by (type_view ty.now) message.now.value)
        (flat_map (λ vs. vs) (sets_from 0 (map set_view sets.now))))) (sessions_of rows.old)) }
{
    let mut number = 0;
    for set in sets {
        number = write_set(rows, number, &set.variables, ty, message)?;
    }
    Ok(())
}

/// Writes what a message of a type has of variables, the first of which has that number, and gives the next number.
fn write_set(
    rows: &mut Rows,
    first: u32,
    variables: &[SetVariable],
    ty: &TypeDef,
    message: &Message,
) -> Result<u32, AllocError>
    requires live { is_live (sessions_of rows.old) message.now.session ≡ true }
    requires free { CanWrite message.now.session (sessions_of rows.old)
        (filter_map (written_by (type_view ty.now) message.now.value)
        (variables_from first (map variable_view variables.now))) }
    requires few { first + length variables.now < 2 ^ 32 }
    ensures next { IfOk result (λ n. n ≡ first + length variables.now) }
    ensures live { OnOk result (is_live (sessions_of rows.new) message.now.session ≡ true) }
    ensures rows { OnOk result (sessions_of rows.new ≡ changed message.now.session
        (write_all (filter_map (written_by (type_view ty.now) message.now.value)
        (variables_from first (map variable_view variables.now)))) (sessions_of rows.old)) }
{
    let mut number = first;
    for variable in variables {
        let value = value_of(variable, ty, &message.value);
        write_value(rows, message.session, number, value)?;
        number = sum(number, 1);
    }
    Ok(number)
}

/// Writes a value, where there is one, into a variable of a session.
fn write_value(
    rows: &mut Rows,
    session: u32,
    variable: u32,
    value: Option<&Root>,
) -> Result<(), AllocError>
    requires live { is_live (sessions_of rows.old) session ≡ true }
    requires free { CanWrite session (sessions_of rows.old)
        (cons_option (written_into variable (option_copied value)) []) }
    ensures { OnOk result (sessions_of rows.new ≡ changed session
        (write_all (cons_option (written_into variable (option_copied value.entry)) [])) (sessions_of rows.old)) }
{
    let Some(root) = value else {
        return Ok(());
    };
    let copy = root.copied()?;
    write_one(rows, session, variable, copy)?;
    Ok(())
}

/// Writes a value into a variable of a session.
fn write_one(rows: &mut Rows, session: u32, variable: u32, value: Root) -> Result<(), AllocError>
    requires live { is_live (sessions_of rows.old) session ≡ true }
    requires free { reply_to (sessions_of rows.old) session variable value ≡ Some Bound }
    ensures { OnOk result (sessions_of rows.new ≡ changed session (write variable value) (sessions_of rows.old)) }
{
    match rows.bind(session, variable, value)? {
        BindReply::Bound => Ok(()),
        BindReply::Held(_) => unreachable!(),
        BindReply::Fixed => unreachable!(),
    }
}
