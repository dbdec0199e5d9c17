ghost use Rattle.std.specs.Prelude.{◌≡◌, [], ◌++◌, IfOk, OnOk, flat_map, map};
ghost use Rattle.std.specs.List.{filter_map, list_all};
ghost use Rattle.jolie_ast.specs.declared.name.Name.{Name};
ghost use Rattle.jolie_ast.specs.declared.service.Alias.{Alias};
ghost use Rattle.jolie_ast.specs.declared.service.CorrelationVariable.{CorrelationVariable};
ghost use Rattle.behaviour_tree.specs.Distinct.{is_in};
ghost use Rattle.check_base.specs.Files.{set_in, sets_of, set_names};
ghost use Rattle.check_base.specs.Least.{joined};
ghost use Rattle.check_base.specs.Repeated.{first_names};
ghost use Rattle.check_ports.specs.SetRules.{alias_names, alias_texts, all_have, partly, partly_among, set_of_single, set_refused, set_texts, set_types, sets_refused, two_sets, types_in_sets, variable_refused, wrong_alias};

use crate::aliases::leads_to_value;
use check_base::{
    CheckName, Least, Mention, Names, Types, is_concurrent, repeated_refused, repeated_refused_as,
    set_in,
};
use jolie_ast::{Alias, Clause, CorrelationVariable, Name, Service};
use std::alloc::{AllocError, Global};

/// What is refused of the correlation sets of a service.
pub fn sets_refused(
    alloc: Global,
    types: &Types,
    service: &Service,
    least: &mut Least,
) -> Result<(), AllocError>
    ensures { OnOk result (least.new ≡ joined least.old (sets_refused types.now service.now)) }
{
    let clauses = service.clauses.as_slice();
    let names = variable_mentions(alloc, clauses)?;
    repeated_refused(alloc, names.as_slice(), least)?;
    each_set_refused(alloc, types, clauses, least)?;
    two_sets(alloc, clauses, least)?;
    sets_of_single(is_concurrent(service), clauses, least);
    Ok(())
}

// ---- variables

/// The variables of a service.
fn variable_mentions(alloc: Global, clauses: &[Clause]) -> Result<Vec<Mention<'_>>, AllocError>
    ensures { IfOk result (λ names. names.items ≡ flat_map set_names (filter_map set_in clauses.now)) }
{
    let mut mentions = Vec::new(alloc);
    for clause in clauses {
        if let Some(set) = set_in(clause) {
            mention_variables(set, &mut mentions)?;
        }
    }
    Ok(mentions)
}

fn mention_variables<'a>(
    set: &'a [CorrelationVariable],
    mentions: &mut Vec<Mention<'a>>,
) -> Result<(), AllocError>
    ensures { OnOk result (mentions.new.items ≡ mentions.old.items ++ set_names set.now) }
{
    for variable in set {
        mentions.push(Mention::name(&variable.name))?;
    }
    Ok(())
}

// ---- a set by itself

fn each_set_refused(
    alloc: Global,
    types: &Types,
    clauses: &[Clause],
    least: &mut Least,
) -> Result<(), AllocError>
    ensures { OnOk result (least.new ≡ joined least.old
        (flat_map (set_refused types.now) (filter_map set_in clauses.now))) }
{
    for clause in clauses {
        if let Some(set) = set_in(clause) {
            set_refused(alloc, types, set, least)?;
        }
    }
    Ok(())
}

/// What is refused of a set by itself.
#[tactic(auto, using(check_base::proofs::Joined::joined_append))]
fn set_refused(
    alloc: Global,
    types: &Types,
    set: &[CorrelationVariable],
    least: &mut Least,
) -> Result<(), AllocError>
    ensures { OnOk result (least.new ≡ joined least.old (set_refused types.now set.now)) }
{
    variables_refused(alloc, types, set, least)?;
    all_partly(alloc, set, least)
}

fn variables_refused(
    alloc: Global,
    types: &Types,
    set: &[CorrelationVariable],
    least: &mut Least,
) -> Result<(), AllocError>
    ensures { OnOk result (least.new ≡ joined least.old (flat_map (variable_refused types.now) set.now)) }
{
    for variable in set {
        variable_refused(alloc, types, variable, least)?;
    }
    Ok(())
}

/// Aliases that lead to no value, and types that a variable has two aliases of.
#[tactic(auto, using(check_base::proofs::Joined::joined_append))]
fn variable_refused(
    alloc: Global,
    types: &Types,
    variable: &CorrelationVariable,
    least: &mut Least,
) -> Result<(), AllocError>
    ensures { OnOk result (least.new ≡ joined least.old (variable_refused types.now variable.now)) }
{
    wrong_aliases(types, variable.aliases.as_slice(), least);
    let names = alias_mentions(alloc, variable)?;
    repeated_refused(alloc, names.as_slice(), least)
}

fn wrong_aliases(types: &Types, aliases: &[Alias], least: &mut Least)
    ensures { least.new ≡ joined least.old (flat_map (wrong_alias types.now) aliases.now) }
{
    for alias in aliases {
        wrong_alias(types, alias, least);
    }
}

/// An alias that leads to no value.
fn wrong_alias(types: &Types, alias: &Alias, least: &mut Least)
    ensures { least.new ≡ joined least.old (wrong_alias types.now alias.now) }
{
    let is_wrong = !leads_to_value(types, alias);
    least.offer_if(is_wrong, CheckName::UnknownType, alias.ty.at);
}

/// The types of the aliases of a variable.
fn alias_mentions(
    alloc: Global,
    variable: &CorrelationVariable,
) -> Result<Vec<Mention<'_>>, AllocError>
    ensures { IfOk result (λ names. names.items ≡ alias_names variable.now) }
{
    let mut names = Vec::new(alloc);
    for alias in variable.aliases.as_slice() {
        names.push(Mention::name(&alias.ty))?;
    }
    Ok(names)
}

/// Types that have aliases for some variables of a set only.
#[tactic(auto, using(crate::proofs::Sets::each_partly))]
fn all_partly(
    alloc: Global,
    set: &[CorrelationVariable],
    least: &mut Least,
) -> Result<(), AllocError>
    ensures { OnOk result (least.new ≡ joined least.old (flat_map (partly set.now) (set_types set.now))) }
{
    let tables = alias_tables(alloc, set)?;
    let types = set_types(alloc, set)?;
    each_partly(tables.as_slice(), types.as_slice(), least);
    Ok(())
}

fn each_partly(tables: &[Names], types: &[&Name], least: &mut Least)
    ensures { least.new ≡ joined least.old (flat_map (partly_among tables.now) (map (λ n. n.now) types.now)) }
{
    for ty in types {
        partly(tables, ty, least);
    }
}

/// A type that is not among the aliases of each variable.
fn partly(tables: &[Names], ty: &Name, least: &mut Least)
    ensures { least.new ≡ joined least.old (partly_among tables.now ty.now) }
{
    let is_partly = !all_have(ty.text.as_str(), tables);
    least.offer_if(is_partly, CheckName::Uncorrelated, ty.at);
}

/// Whether each variable has an alias of a type.
fn all_have(ty: &str, tables: &[Names]) -> bool
    ensures { result ≡ list_all (is_in ty.now) tables.now }
{
    tables.iter().all(|table| table.has(ty))
}

/// The types of the aliases of each variable.
fn alias_tables(alloc: Global, set: &[CorrelationVariable]) -> Result<Vec<Names<'_>>, AllocError>
    ensures { IfOk result (λ tables. tables.items ≡ map alias_texts set.now) }
{
    let mut tables = Vec::new(alloc);
    for variable in set {
        tables.push(alias_table(alloc, variable)?)?;
    }
    Ok(tables)
}

fn alias_table(alloc: Global, variable: &CorrelationVariable) -> Result<Names<'_>, AllocError>
    ensures { IfOk result (λ table. table ≡ alias_texts variable.now) }
{
    let mut table = Names::new(alloc);
    for alias in variable.aliases.as_slice() {
        table.add(alias.ty.text.as_str())?;
    }
    Ok(table)
}

// ---- the types of a set

/// The types that a set names, each at its first alias there.
fn set_types(alloc: Global, set: &[CorrelationVariable]) -> Result<Vec<&Name>, AllocError>
    ensures { IfOk result (λ types. map (λ n. n.now) types.items ≡ set_types set.now) }
{
    let names = all_alias_names(alloc, set)?;
    first_names(alloc, names.as_slice())
}

fn all_alias_names(alloc: Global, set: &[CorrelationVariable]) -> Result<Vec<&Name>, AllocError>
    ensures { IfOk result (λ names. map (λ n. n.now) names.items ≡ flat_map alias_names set.now) }
{
    let mut names = Vec::new(alloc);
    for variable in set {
        add_alias_names(variable, &mut names)?;
    }
    Ok(names)
}

fn add_alias_names<'a>(
    variable: &'a CorrelationVariable,
    names: &mut Vec<&'a Name>,
) -> Result<(), AllocError>
    ensures { OnOk result (map (λ n. n.now) names.new.items ≡ map (λ n. n.now) names.old.items
        ++ alias_names variable.now) }
{
    for alias in variable.aliases.as_slice() {
        names.push(&alias.ty)?;
    }
    Ok(())
}

/// Each name once, where it first stands.
fn first_names<'a>(alloc: Global, names: &[&'a Name]) -> Result<Vec<&'a Name>, AllocError>
    ensures { IfOk result (λ firsts. map (λ n. n.now) firsts.items ≡ first_names (map (λ n. n.now) names.now)) }
{
    let mut texts = Names::new(alloc);
    let mut firsts = Vec::new(alloc);
    for name in names {
        let is_known = texts.add(name.text.as_str())?;
        if !is_known {
            firsts.push(*name)?;
        }
    }
    Ok(firsts)
}

// ---- the sets of a service

/// The types that stand in a second set of the service.
fn two_sets(alloc: Global, clauses: &[Clause], least: &mut Least) -> Result<(), AllocError>
    ensures { OnOk result (least.new ≡ joined least.old (two_sets (filter_map set_in clauses.now))) }
{
    let types = types_of_sets(alloc, clauses)?;
    repeated_refused_as(alloc, CheckName::TwoSets, types.as_slice(), least)
}

/// The types of each set in order, each at its first alias there.
fn types_of_sets(alloc: Global, clauses: &[Clause]) -> Result<Vec<Mention<'_>>, AllocError>
    ensures { IfOk result (λ types. types.items ≡ flat_map set_types (filter_map set_in clauses.now)) }
{
    let mut types = Vec::new(alloc);
    for clause in clauses {
        if let Some(set) = set_in(clause) {
            mention_types(alloc, set, &mut types)?;
        }
    }
    Ok(types)
}

fn mention_types<'a>(
    alloc: Global,
    set: &'a [CorrelationVariable],
    mentions: &mut Vec<Mention<'a>>,
) -> Result<(), AllocError>
    ensures { OnOk result (mentions.new.items ≡ mentions.old.items ++ set_types set.now) }
{
    let types = set_types(alloc, set)?;
    mention_names(types.as_slice(), mentions)
}

fn mention_names<'a>(names: &[&'a Name], mentions: &mut Vec<Mention<'a>>) -> Result<(), AllocError>
    ensures { OnOk result (mentions.new.items ≡ mentions.old.items ++ map (λ n. n.now) names.now) }
{
    for name in names {
        mentions.push(Mention::name(*name))?;
    }
    Ok(())
}

/// Adds the texts of names after the others.
fn add_texts<'a>(names: &[&'a Name], texts: &mut Names<'a>) -> Result<(), AllocError>
    ensures { OnOk result (texts.new ≡ texts.old ++ map (λ (n : Name). n.text) (map (λ n. n.now) names.now)) }
{
    for name in names {
        texts.add(name.text.as_str())?;
    }
    Ok(())
}

/// The types of the sets of a service.
pub fn types_in_sets(alloc: Global, service: &Service) -> Result<Names<'_>, AllocError>
    ensures { IfOk result (λ names. names ≡ types_in_sets (sets_of service.now)) }
{
    let mut names = Names::new(alloc);
    for clause in service.clauses.as_slice() {
        if let Some(set) = set_in(clause) {
            add_set_types(alloc, set, &mut names)?;
        }
    }
    Ok(names)
}

fn add_set_types<'a>(
    alloc: Global,
    set: &'a [CorrelationVariable],
    names: &mut Names<'a>,
) -> Result<(), AllocError>
    ensures { OnOk result (names.new ≡ names.old ++ set_texts set.now) }
{
    let types = set_types(alloc, set)?;
    add_texts(types.as_slice(), names)
}

/// Sets of a service whose sessions run one alone.
fn sets_of_single(is_concurrent: bool, clauses: &[Clause], least: &mut Least)
    ensures { least.new ≡ joined least.old (flat_map (set_of_single is_concurrent) clauses.now) }
{
    for clause in clauses {
        set_of_single(is_concurrent, clause, least);
    }
}

fn set_of_single(is_concurrent: bool, clause: &Clause, least: &mut Least)
    ensures { least.new ≡ joined least.old (set_of_single is_concurrent clause.now) }
{
    if let Clause::CorrelationSet { at, .. } = clause {
        least.offer_if(!is_concurrent, CheckName::WrongKind, *at);
    }
}
