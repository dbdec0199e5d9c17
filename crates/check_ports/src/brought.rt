ghost use Rattle.std.specs.Prelude.{◌≡◌, [], ◌++◌, IfOk, OnOk, flat_map, map};
ghost use Rattle.std.specs.List.{filter_map};
ghost use Rattle.std.specs.Option.{option_copied};
ghost use Rattle.jolie_ast.specs.declared.name.Name.{Name};
ghost use Rattle.check_base.specs.Files.{first_there, input_port_in};
ghost use Rattle.check_base.specs.Least.{joined};
ghost use Rattle.check_ports.specs.PortRules.{answering_at, group_at, input_ports_refused, operations_repeated, silent_at};
ghost use Rattle.check_ports.specs.Spared.{first_alone, group_texts, spared, spared_in, spared_unless};

use check_base::{Interfaces, Least, Mention, Names, add_names, input_port_in, repeated_refused};
use jolie_ast::{Clause, Name, OneWay, OperationGroup, Port, RequestResponse};
use std::alloc::{AllocError, Global};

/// The operations that a port brings: those of its interfaces, but of those that are among others. An interface that
/// the port names again brings its first operation alone, which is refused as all of them would be.
fn bring<'a>(
    alloc: Global,
    interfaces: &Interfaces<'a>,
    others: &Names<'a>,
    names: &[Name],
    mentions: &mut Vec<Mention<'a>>,
) -> Result<(), AllocError>
    ensures { OnOk result (mentions.new.items ≡ mentions.old.items ++ spared interfaces.now others.now names.now) }
{
    let mut seen = Names::new(alloc);
    for name in names {
        bring_unless(interfaces, others, &seen, name, mentions)?;
        seen.add(name.text.as_str())?;
    }
    Ok(())
}

#[tactic(auto, using(crate::proofs::BroughtGroups::brought_groups))]
fn bring_unless<'a>(
    interfaces: &Interfaces<'a>,
    others: &Names<'a>,
    seen: &Names<'_>,
    name: &Name,
    mentions: &mut Vec<Mention<'a>>,
) -> Result<(), AllocError>
    ensures { OnOk result (mentions.new.items ≡ mentions.old.items
        ++ spared_unless interfaces.now others.now seen.now name.now) }
{
    let text = name.text.as_str();
    if others.has(text) {
        return Ok(());
    }
    let Some(interface) = interfaces.get(text) else {
        return Ok(());
    };
    let groups = interface.groups.as_slice();
    if seen.has(text) {
        bring_first(groups, name.at, mentions)
    } else {
        bring_groups(groups, name.at, mentions)
    }
}

/// The first operation of groups alone.
#[tactic(auto, using(crate::proofs::BroughtIn::first_of_groups))]
fn bring_first<'a>(
    groups: &'a [OperationGroup],
    at: u32,
    mentions: &mut Vec<Mention<'a>>,
) -> Result<(), AllocError>
    ensures { OnOk result (mentions.new.items ≡ mentions.old.items
        ++ first_alone (flat_map (group_at at) groups.now)) }
{
    if let Some(operation) = first_operation(groups) {
        mentions.push(Mention::new(operation, at))?;
    }
    Ok(())
}

/// The name of the first operation of groups.
#[tactic(auto, using(crate::proofs::BroughtIn::group_passes, crate::proofs::BroughtIn::group_stops))]
fn first_operation(groups: &[OperationGroup]) -> Option<&str>
    ensures { option_copied result ≡ first_there (flat_map group_texts groups.now) }
{
    for group in groups {
        if let Some(operation) = first_in_group(group) {
            return Some(operation);
        }
    }
    None
}

fn first_in_group(group: &OperationGroup) -> Option<&str>
    ensures { option_copied result ≡ first_there (group_texts group.now) }
{
    match group {
        OperationGroup::RequestResponse { operations, .. } => match operations.as_slice() {
            [operation, ..] => Some(operation.name.text.as_str()),
            [] => None,
        },
        OperationGroup::OneWay { operations, .. } => match operations.as_slice() {
            [operation, ..] => Some(operation.name.text.as_str()),
            [] => None,
        },
    }
}

fn bring_groups<'a>(
    groups: &'a [OperationGroup],
    at: u32,
    mentions: &mut Vec<Mention<'a>>,
) -> Result<(), AllocError>
    ensures { OnOk result (mentions.new.items ≡ mentions.old.items ++ flat_map (group_at at) groups.now) }
{
    for group in groups {
        bring_group(group, at, mentions)?;
    }
    Ok(())
}

#[tactic(auto, using(crate::proofs::BroughtGroups::answering_brought, crate::proofs::BroughtGroups::silent_brought))]
fn bring_group<'a>(
    group: &'a OperationGroup,
    at: u32,
    mentions: &mut Vec<Mention<'a>>,
) -> Result<(), AllocError>
    ensures { OnOk result (mentions.new.items ≡ mentions.old.items ++ group_at at group.now) }
{
    match group {
        OperationGroup::RequestResponse { operations, .. } => bring_answering(
            operations.as_slice(),
            at,
            mentions,
        ),
        OperationGroup::OneWay { operations, .. } => bring_silent(
            operations.as_slice(),
            at,
            mentions,
        ),
    }
}

fn bring_answering<'a>(
    operations: &'a [RequestResponse],
    at: u32,
    mentions: &mut Vec<Mention<'a>>,
) -> Result<(), AllocError>
    ensures { OnOk result (mentions.new.items ≡ mentions.old.items ++ map (answering_at at) operations.now) }
{
    for operation in operations {
        mentions.push(Mention::new(operation.name.text.as_str(), at))?;
    }
    Ok(())
}

fn bring_silent<'a>(
    operations: &'a [OneWay],
    at: u32,
    mentions: &mut Vec<Mention<'a>>,
) -> Result<(), AllocError>
    ensures { OnOk result (mentions.new.items ≡ mentions.old.items ++ map (silent_at at) operations.now) }
{
    for operation in operations {
        mentions.push(Mention::new(operation.name.text.as_str(), at))?;
    }
    Ok(())
}

/// The operations that an input port brings, but of interfaces that earlier ports have; its own are among those then.
fn bring_in<'a>(
    alloc: Global,
    interfaces: &Interfaces<'a>,
    port: &'a Port,
    earlier: &mut Names<'a>,
    mentions: &mut Vec<Mention<'a>>,
) -> Result<(), AllocError>
    ensures earlier { OnOk result (earlier.new ≡ earlier.old ++ map (λ (n : Name). n.text) port.now.interfaces) }
    ensures mentions { OnOk result (mentions.new.items ≡ mentions.old.items
        ++ spared interfaces.now earlier.old port.now.interfaces) }
{
    let names = port.interfaces.as_slice();
    bring(alloc, interfaces, earlier, names, mentions)?;
    add_names(names, earlier)
}

/// The operations that the input ports bring: an interface that an earlier port has brings nothing new.
fn brought_in<'a>(
    alloc: Global,
    interfaces: &Interfaces<'a>,
    clauses: &'a [Clause],
) -> Result<Vec<Mention<'a>>, AllocError>
    ensures { IfOk result
        (λ mentions. mentions.items ≡ spared_in interfaces.now [] (filter_map input_port_in clauses.now)) }
{
    let mut earlier = Names::new(alloc);
    let mut mentions = Vec::new(alloc);
    for clause in clauses {
        if let Some(port) = input_port_in(clause) {
            bring_in(alloc, interfaces, port, &mut earlier, &mut mentions)?;
        }
    }
    Ok(mentions)
}

/// An operation that the input ports have a second time, together or one of them alone.
#[tactic(auto, using(check_base::proofs::Joined::joined_append, crate::proofs::Spared::input_spared))]
pub fn input_ports_refused<'a>(
    alloc: Global,
    interfaces: &Interfaces<'a>,
    clauses: &'a [Clause],
    least: &mut Least,
) -> Result<(), AllocError>
    ensures { OnOk result (least.new ≡ joined least.old
        (input_ports_refused interfaces.now (filter_map input_port_in clauses.now))) }
{
    let mentions = brought_in(alloc, interfaces, clauses)?;
    repeated_refused(alloc, mentions.as_slice(), least)?;
    each_input_repeated(alloc, interfaces, clauses, least)
}

/// Operations that one input port has a second time.
fn each_input_repeated(
    alloc: Global,
    interfaces: &Interfaces,
    clauses: &[Clause],
    least: &mut Least,
) -> Result<(), AllocError>
    ensures { OnOk result (least.new ≡ joined least.old
        (flat_map (operations_repeated interfaces.now) (filter_map input_port_in clauses.now))) }
{
    for clause in clauses {
        if let Some(port) = input_port_in(clause) {
            operations_repeated(alloc, interfaces, port, least)?;
        }
    }
    Ok(())
}

/// An operation that a port has a second time.
#[tactic(auto, using(crate::proofs::Spared::output_spared))]
pub fn operations_repeated(
    alloc: Global,
    interfaces: &Interfaces,
    port: &Port,
    least: &mut Least,
) -> Result<(), AllocError>
    ensures { OnOk result (least.new ≡ joined least.old (operations_repeated interfaces.now port.now)) }
{
    let none = Names::new(alloc);
    let mut mentions = Vec::new(alloc);
    bring(
        alloc,
        interfaces,
        &none,
        port.interfaces.as_slice(),
        &mut mentions,
    )?;
    repeated_refused(alloc, mentions.as_slice(), least)
}
