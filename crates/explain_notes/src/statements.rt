//! What the parts of a statement mention.

ghost use Rattle.std.specs.Prelude.{◌≡◌, ◌++◌, OnOk};
ghost use Rattle.explain_notes.specs.declared.role.Role.TheVariants as roles;
ghost use Rattle.explain_notes.specs.Expressions.{expr_mentions};
ghost use Rattle.explain_notes.specs.Statements as spec;

use crate::list::Mentions;
use crate::role::Role;
use jolie_ast::{Assignment, Expr, ExprForm, ForStep, Member, Name, Path, Step};
use std::alloc::AllocError;

impl<'a> Mentions<'a> {
    /// A value that may be written.
    pub(crate) fn value(&mut self, value: &'a Option<Expr>) -> Result<(), AllocError>
        ensures { OnOk result (self.new ≡ self.old ++ spec.if_written expr_mentions value.now) }
    {
        match value {
            Some(value) => self.expr(value),
            None => Ok(()),
        }
    }

    /// A path that gets a value.
    #[tactic(auto, using(crate::proofs::Lists::behind_two))]
    pub(crate) fn target(&mut self, role: Role, path: &'a Path) -> Result<(), AllocError>
        ensures { OnOk result (self.new ≡ self.old ++ spec.target_mentions role path.now) }
    {
        self.path(role, path)?;
        self.branched(path.rest.as_slice(), &path.first.name)
    }

    /// The variable of a path, where the path goes on.
    fn branched(&mut self, rest: &[Step], variable: &'a Name) -> Result<(), AllocError>
        ensures { OnOk result (self.new ≡ self.old ++ spec.where_some rest.now roles.Branched variable.now) }
    {
        match rest {
            [] => Ok(()),
            _ => self.add(Role::Branched, variable),
        }
    }

    /// A path that takes a message or an answer, if one is written.
    pub(crate) fn received(&mut self, path: &'a Option<Path>) -> Result<(), AllocError>
        ensures { OnOk result (self.new ≡ self.old ++ spec.received_mentions path.now) }
    {
        match path {
            Some(path) => self.target(Role::Received, path),
            None => Ok(()),
        }
    }

    /// The right side of `=`, after a variable.
    #[tactic(auto, using(crate::proofs::Lists::behind_two))]
    fn root(&mut self, variable: &'a Name, value: &'a Expr) -> Result<(), AllocError>
        ensures { OnOk result (self.new ≡ self.old ++ spec.root_mentions variable.now value.now) }
    {
        match value.form.get() {
            ExprForm::Path(path) => self.path(taken_role(path.rest.as_slice()), path),
            ExprForm::Literal(members) => {
                self.flattened(members.as_slice(), variable)?;
                self.expr(value)
            }
            _ => self.expr(value),
        }
    }

    /// A variable that `++` or `--` changes: this is a sum.
    fn counted(&mut self, variable: &Name) -> Result<(), AllocError>
        ensures { OnOk result (self.new ≡ self.old ++ spec.count_mentions variable.now) }
    {
        self.failing(true, variable.at)
    }

    /// A variable that is set by `=` to a literal with these members.
    fn flattened(&mut self, members: &[Member], variable: &'a Name) -> Result<(), AllocError>
        ensures { OnOk result (self.new ≡ self.old ++ spec.where_some members.now roles.Flattened variable.now) }
    {
        match members {
            [] => Ok(()),
            _ => self.add(Role::Flattened, variable),
        }
    }

    /// A path and what is done to it.
    #[tactic(auto, using(crate::proofs::Lists::behind_two))]
    pub(crate) fn assigned(
        &mut self,
        path: &'a Path,
        assignment: &'a Assignment,
    ) -> Result<(), AllocError>
        ensures { OnOk result (self.new ≡ self.old ++ spec.assigned_mentions path.now assignment.now) }
    {
        self.target(Role::Set, path)?;
        match assignment {
            Assignment::Root(value) => self.root(&path.first.name, value),
            Assignment::Copy(value) => self.expr(value),
            Assignment::Count(_) => self.counted(&path.first.name),
        }
    }

    /// What a `for` begins with, and its test.
    #[tactic(auto, using(crate::proofs::Lists::behind_three))]
    pub(crate) fn begun(
        &mut self,
        path: &'a Path,
        first: &'a Expr,
        test: &'a Expr,
    ) -> Result<(), AllocError>
        ensures { OnOk result (self.new ≡ self.old ++ spec.begun_mentions path.now first.now test.now) }
    {
        self.target(Role::Set, path)?;
        self.expr(first)?;
        self.expr(test)
    }

    /// A path and what the last part of a `for` does to it.
    #[tactic(auto, using(crate::proofs::Lists::behind_two))]
    pub(crate) fn stepped(&mut self, path: &'a Path, step: &'a ForStep) -> Result<(), AllocError>
        ensures { OnOk result (self.new ≡ self.old ++ spec.stepped_mentions path.now step.now) }
    {
        self.target(Role::Set, path)?;
        match step {
            ForStep::Root(value) => self.expr(value),
            ForStep::Count(_) => self.counted(&path.first.name),
        }
    }
}

/// The role of a path on the right side of `=`, by what stands after its variable.
fn taken_role(rest: &[Step]) -> Role
    ensures { result ≡ spec.taken_role rest.now }
{
    match rest {
        [] => Role::RootTaken,
        _ => Role::FieldRead,
    }
}
