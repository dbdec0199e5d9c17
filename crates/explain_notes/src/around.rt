//! What stands around mentions, and how it changes their roles.

ghost use Rattle.std.specs.Prelude.{◌≡◌, ◌++◌, IfOk, OnOk, bytes_eq, map};
ghost use Rattle.explain_notes.specs.Mentions as spec;

use crate::list::{Mention, Mentions};
use crate::role::Role;
use check_base::Names;
use jolie_ast::Name;
use std::alloc::AllocError;

impl<'a> Mentions<'a> {
    /// Adds mentions as they are.
    pub(crate) fn add_all(&mut self, inner: &Mentions<'a>) -> Result<(), AllocError>
        ensures { OnOk result (self.new ≡ self.old ++ inner.now) }
    {
        for mention in inner.as_slice() {
            self.again(mention.role(), mention)?;
        }
        Ok(())
    }

    /// Adds what stands in a loop.
    pub(crate) fn add_looped(&mut self, inner: &Mentions<'a>) -> Result<(), AllocError>
        ensures { OnOk result (self.new ≡ self.old ++ map (spec.in_role spec.looped_role) inner.now) }
    {
        for mention in inner.as_slice() {
            self.again(mention.role().in_loop(), mention)?;
        }
        Ok(())
    }

    /// Adds what stands in a `while`.
    pub(crate) fn add_while(&mut self, inner: &Mentions<'a>) -> Result<(), AllocError>
        ensures { OnOk result (self.new ≡ self.old ++ spec.around_while inner.now) }
    {
        if inner.takes() {
            self.add_turned(inner)
        } else {
            self.add_looped(inner)
        }
    }

    /// Adds what stands in a `while` that takes messages.
    fn add_turned(&mut self, inner: &Mentions<'a>) -> Result<(), AllocError>
        ensures { OnOk result (self.new ≡ self.old ++ map (spec.in_role spec.turned_role) inner.now) }
    {
        for mention in inner.as_slice() {
            self.again(mention.role().in_turn(), mention)?;
        }
        Ok(())
    }

    /// Adds what stands after an input that is not answered.
    pub(crate) fn add_kept(&mut self, inner: &Mentions<'a>) -> Result<(), AllocError>
        ensures { OnOk result (self.new ≡ self.old ++ map (spec.in_role spec.kept_role) inner.now) }
    {
        for mention in inner.as_slice() {
            self.again(mention.role().after_one_way(), mention)?;
        }
        Ok(())
    }

    /// Adds what stands in a handler under `this`.
    pub(crate) fn add_of_this(&mut self, inner: &Mentions<'a>) -> Result<(), AllocError>
        ensures { OnOk result (self.new ≡ self.old ++ map (spec.in_role spec.caught_role) inner.now) }
    {
        for mention in inner.as_slice() {
            self.again(mention.role().caught(), mention)?;
        }
        Ok(())
    }

    /// Adds what stands in the handler of a fault.
    pub(crate) fn add_of_handler(
        &mut self,
        fault: &Name,
        inner: &Mentions<'a>,
    ) -> Result<(), AllocError>
        ensures { OnOk result (self.new ≡ self.old ++ map (spec.in_role_of fault.now spec.rethrown_role) inner.now) }
    {
        for mention in inner.as_slice() {
            self.again(role_in_handler(mention, fault), mention)?;
        }
        Ok(())
    }

    /// Adds what stands in a scope that handles these faults.
    pub(crate) fn add_scoped(
        &mut self,
        handled: &Names<'a>,
        inner: &Mentions<'a>,
    ) -> Result<(), AllocError>
        ensures { OnOk result (self.new ≡ self.old ++ map (spec.out_of_scope handled.now) inner.now) }
    {
        for mention in inner.as_slice() {
            self.again(role_out_of_scope(mention, handled), mention)?;
        }
        Ok(())
    }

    /// Adds what stands in a request that is answered by a variable.
    pub(crate) fn add_requested(
        &mut self,
        variable: &Name,
        inner: &Mentions<'a>,
    ) -> Result<(), AllocError>
        ensures { OnOk result (self.new ≡ self.old ++ map (spec.in_role_of variable.now spec.filled_role) inner.now) }
    {
        for mention in inner.as_slice() {
            self.again(role_in_request(mention, variable), mention)?;
        }
        Ok(())
    }

    /// The faults that have a handler in the nearest scope.
    pub(crate) fn handled(&self) -> Result<Names<'a>, AllocError>
        ensures { IfOk result (λ names. names ≡ spec.names_in spec.is_handled self.now) }
    {
        let mut names = Names::new(self.alloc());
        for mention in self.as_slice() {
            if mention.role().is_handled() {
                names.add(mention.text())?;
            }
        }
        Ok(names)
    }

    /// Whether a fault is thrown that nothing of this catches.
    pub(crate) fn faults(&self) -> bool
        ensures { result ≡ spec.faults self.now }
    {
        for mention in self.as_slice() {
            if mention.role().is_free() {
                return true;
            }
        }
        false
    }

    /// Whether a message is taken.
    pub(crate) fn takes(&self) -> bool
        ensures { result ≡ spec.takes self.now }
    {
        for mention in self.as_slice() {
            if mention.role().is_taken() {
                return true;
            }
        }
        false
    }

    /// The role of a scope around this.
    pub(crate) fn scope_role(&self) -> Role
        ensures { result ≡ spec.scope_role self.now }
    {
        if self.undoes() {
            Role::Undone
        } else {
            Role::Scope
        }
    }

    /// Whether a handler under `this` is put up in the nearest scope.
    fn undoes(&self) -> bool
        ensures { result ≡ spec.undoes self.now }
    {
        for mention in self.as_slice() {
            if mention.role().is_undoing() {
                return true;
            }
        }
        false
    }

    /// Whether the variable of a name gets a value.
    pub(crate) fn sets(&self, variable: &Name) -> bool
        ensures { result ≡ spec.sets variable.now self.now }
    {
        for mention in self.as_slice() {
            if mention.role().is_set() && is_named(mention, variable) {
                return true;
            }
        }
        false
    }
}

/// The role of what stands in the handler of a fault.
fn role_in_handler(mention: &Mention<'_>, fault: &Name) -> Role
    ensures { spec.mention result mention.now.name ≡ spec.in_role_of fault.now spec.rethrown_role mention.now }
{
    let role = mention.role();
    if is_named(mention, fault) {
        rethrown(role)
    } else {
        role
    }
}

/// The role around a scope that handles these faults.
fn role_out_of_scope(mention: &Mention<'_>, handled: &Names<'_>) -> Role
    ensures { spec.mention result mention.now.name ≡ spec.out_of_scope handled.now mention.now }
{
    let role = mention.role();
    if handled.has(mention.text()) {
        role_handled(role)
    } else {
        role.freed()
    }
}

/// The role in a request that is answered by a variable.
fn role_in_request(mention: &Mention<'_>, variable: &Name) -> Role
    ensures { spec.mention result mention.now.name ≡ spec.in_role_of variable.now spec.filled_role mention.now }
{
    let role = mention.role();
    if is_named(mention, variable) {
        filled(role)
    } else {
        role
    }
}

/// Whether a mention has this name.
fn is_named(mention: &Mention<'_>, name: &Name) -> bool
    ensures { result ≡ bytes_eq mention.now.name.text name.now.text }
{
    mention.text() == name.text.as_str()
}

/// The role of a fault that its own handler throws.
fn rethrown(role: Role) -> Role
    ensures { result ≡ spec.rethrown_role role }
{
    if role.is_free() { Role::Rethrown } else { role }
}

/// The role around a scope that handles the fault.
fn role_handled(role: Role) -> Role
    ensures { result ≡ spec.handled_role role }
{
    match role {
        Role::Thrown => Role::Caught,
        Role::ThrownInLoop => Role::Caught,
        Role::Failing => Role::FailingSafely,
        Role::Calling => Role::FailingSafely,
        _ => role.freed(),
    }
}

/// The role of a variable inside of a request that it answers.
fn filled(role: Role) -> Role
    ensures { result ≡ spec.filled_role role }
{
    if role.is_set() { Role::Filled } else { role }
}
