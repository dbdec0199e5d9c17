ghost use Rattle.std.specs.Prelude.{◌≡◌, ◌+◌, ◌-◌, ◌<◌, ◌≤◌, IfOk, IfSome, Some, false, length, replicate};
ghost use Rattle.std.specs.Option.{option_copied};
ghost use Rattle.jolie_ast.specs.declared.types.TypeBody.{out-TypeBody};
ghost use Rattle.check_types.specs.declared.circles.Mark.TheVariants.{Unseen};
ghost use Rattle.check_types.specs.Circles.{AllSeen, Came, Known, KnownOnRound, KnownOnWalk, OnlyCircles, StaysSeen, WalksBelow, is_circle, is_unseen, mark_at, next_place, steps_on, unseen};
ghost use Rattle.check_base.specs.Files.{body_of, name_in};
ghost use Rattle.check_base.specs.TypeNames.{leads_back};

use check_base::Types;
use jolie_ast::{DefinedType, TypeBody};
use std::alloc::{AllocError, Global};
use std::marker::Model;

/// What is known of the type at a place.
#[derive(Clone, Copy)]
pub enum Mark {
    /// No walk has come to it.
    Unseen,
    /// A walk came to it at a step.
    Walked { walk: usize, step: usize },
    /// It leads back to itself.
    Circle,
}

impl Mark {
    fn is_unseen(self) -> bool
        ensures { result ≡ is_unseen self }
    {
        match self {
            Mark::Unseen => true,
            Mark::Walked { .. } => false,
            Mark::Circle => false,
        }
    }

    fn is_circle(self) -> bool
        ensures { result ≡ is_circle self }
    {
        match self {
            Mark::Unseen => false,
            Mark::Walked { .. } => false,
            Mark::Circle => true,
        }
    }
}

/// Types, and for each whether its names lead back to it.
#[derive(Drop)]
pub struct Circles<'t, 'a> {
    types: &'t Types<'a>,
    marks: Vec<Mark>,
}

impl<'t, 'a> Model for Circles<'t, 'a> {
    ghost use Rattle.std.specs.Prelude.{◌≡◌, List, length};
    ghost use Rattle.std.specs.Coded.{codes};
    ghost use Rattle.jolie_ast.specs.contracts.types.TypeDefinition as definition;
    ghost use Rattle.jolie_ast.specs.declared.types.TypeDefinition.{TypeDefinition};
    ghost use Rattle.check_types.specs.Circles.{AllSeen, Known, next_place};

    ghost Value = { List TypeDefinition };

    ghost coded = { Prim.hlevel (codes, definition.the_row.coded) };

    ghost view = { λ c. c.types.now };

    ghost invariant = { λ c. (length c.marks.items ≡ length c.types.now)
        × Known (next_place c.types.now) (length c.types.now) c.marks.items
        × AllSeen (length c.types.now) c.marks.items };
}

impl<'t, 'a> Circles<'t, 'a> {
    /// Finds which types lead back to themselves, in walks that come to each type once.
    pub fn of(alloc: Global, types: &'t Types<'a>) -> Result<Circles<'t, 'a>, AllocError>
        ensures { IfOk result (λ circles. circles ≡ types.now) }
    {
        let mut marks = unseen_marks(alloc, types.len())?;
        let mut seen = 0;
        for place in 0..types.len() {
            seen = walk_over(types, marks.as_mut_slice(), place, seen);
        }
        Ok(Circles { types, marks })
    }

    pub fn types(&self) -> &Types<'a>
        ensures { result.now ≡ self.now }
    {
        self.types
    }

    /// Whether the names from one on lead back to it.
    pub fn leads_back(&self, name: &str) -> bool
        ensures { result ≡ leads_back self.now name.now }
    {
        match self.types.names().place(name) {
            Some(place) => self.marks[place].is_circle(),
            None => false,
        }
    }
}

fn unseen_marks(alloc: Global, count: usize) -> Result<Vec<Mark>, AllocError>
    ensures { IfOk result (λ marks. marks.items ≡ replicate count Unseen) }
{
    Ok(vec![in alloc; Mark::Unseen; count]?)
}

/// How many places were seen when a walk ended, and the place that it would have come to.
#[derive(Drop)]
struct End {
    seen: usize,
    place: Option<usize>,
}

/// Walks from a place on, if no walk has come to it, and marks the circle that the walk ends in, if it does. Gives how
/// many places were seen.
fn walk_over(types: &Types, marks: &mut [Mark], start: usize, seen: usize) -> usize
    requires start_in { start < length types.now }
    requires same_length { length marks.old ≡ length types.now }
    requires known { Known (next_place types.now) (length types.now) marks.old }
    requires walks { WalksBelow start marks.old }
    requires counted { seen + unseen marks.old ≤ length types.now }
    ensures known { Known (next_place types.now) (length types.now) marks.new }
    ensures walks { WalksBelow (start + 1) marks.new }
    ensures counted { result + unseen marks.new ≤ length types.now }
    ensures stays { StaysSeen marks.old marks.new }
    ensures start_seen { is_unseen (mark_at marks.new start) ≡ false }
{
    let end = walk(types, marks, start, seen);
    close(types, marks, start, &end);
    end.seen
}

/// Walks from a place on to the first that was seen.
fn walk(types: &Types, marks: &mut [Mark], start: usize, seen: usize) -> End
    requires start_in { start < length types.now }
    requires same_length { length marks.old ≡ length types.now }
    requires known { Known (next_place types.now) (length types.now) marks.old }
    requires walks { WalksBelow start marks.old }
    requires counted { seen + unseen marks.old ≤ length types.now }
    ensures known { KnownOnWalk (next_place types.now) (length types.now) marks.new start result.place }
    ensures came { Came (next_place types.now) marks.new start result.seen result.place }
    ensures walks { WalksBelow (start + 1) marks.new }
    ensures counted { result.seen + unseen marks.new ≤ length types.now }
    ensures stays { StaysSeen marks.old marks.new }
    ensures start_seen { is_unseen (mark_at marks.new start) ≡ false }
    ensures end_in { IfSome result.place (λ p. p < length types.now) }
    ensures end_seen { IfSome result.place (λ p. is_unseen (mark_at marks.new p) ≡ false) }
{
    let mut place = start;
    let mut step = seen;
    while marks[place].is_unseen() {
        marks[place] = Mark::Walked { walk: start, step };
        step += 1;
        match next_place(types, place) {
            Some(next) => place = next,
            None => {
                return End {
                    seen: step,
                    place: None,
                };
            }
        }
    }
    End {
        seen: step,
        place: Some(place),
    }
}

/// Marks the circle that a walk ended in, if it came to its end before.
fn close(types: &Types, marks: &mut [Mark], walk: usize, end: &End)
    requires same_length { length marks.old ≡ length types.now }
    requires known { KnownOnWalk (next_place types.now) (length types.now) marks.old walk end.now.place }
    requires came { Came (next_place types.now) marks.old walk end.now.seen end.now.place }
    requires walks { WalksBelow (walk + 1) marks.old }
    requires counted { end.now.seen + unseen marks.old ≤ length types.now }
    requires end_in { IfSome end.now.place (λ p. p < length types.now) }
    requires end_seen { IfSome end.now.place (λ p. is_unseen (mark_at marks.old p) ≡ false) }
    ensures known { Known (next_place types.now) (length types.now) marks.new }
    ensures walks { WalksBelow (walk + 1) marks.new }
    ensures counted { unseen marks.new ≤ unseen marks.old }
    ensures stays { StaysSeen marks.old marks.new }
{
    let Some(place) = end.place else {
        return;
    };
    match marks[place] {
        Mark::Walked { walk: found, step } => {
            if found == walk {
                go_round(types, marks, place, end.seen - step);
            }
        }
        Mark::Circle => {}
        Mark::Unseen => {}
    }
}

/// Marks the places of a circle.
fn go_round(types: &Types, marks: &mut [Mark], start: usize, round: usize)
    requires start_in { start < length types.now }
    requires same_length { length marks.old ≡ length types.now }
    requires round { steps_on (next_place types.now) round start ≡ Some start }
    requires some { 0 < round }
    requires within { round ≤ length types.now }
    requires known { KnownOnRound (next_place types.now) (length types.now) marks.old start start }
    ensures known { Known (next_place types.now) (length types.now) marks.new }
    ensures only { OnlyCircles marks.old marks.new }
    ensures counted { unseen marks.new ≤ unseen marks.old }
{
    let mut place = start;
    for _step in 0..round {
        marks[place] = Mark::Circle;
        match next_place(types, place) {
            Some(next) => place = next,
            None => return,
        }
    }
}

/// The place that a place leads to.
fn next_place(types: &Types, place: usize) -> Option<usize>
    requires { place < length types.now }
    ensures next { result ≡ next_place types.now place }
    ensures within { IfSome result (λ next. next < length types.now) }
{
    match name_in(&types.at(place).body) {
        Some(name) => types.names().place(name),
        None => None,
    }
}

/// The name that a type is defined as, if it is one.
fn name_in(body: &DefinedType) -> Option<&str>
    ensures { option_copied result ≡ name_in (out-TypeBody (body_of body.now)) }
{
    match body {
        DefinedType::Body(TypeBody::Named(name)) => Some(name.text.as_str()),
        DefinedType::Body(TypeBody::Root { .. }) => None,
        DefinedType::Body(TypeBody::Undefined(_)) => None,
        DefinedType::Fields(_) => None,
    }
}
