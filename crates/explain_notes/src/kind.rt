ghost use Rattle.std.specs.Prelude.{◌≡◌};
ghost use Rattle.explain_notes.specs.declared.kind.NoteKind.TheVariants as kind;
ghost use Rattle.explain_notes.specs.Rules as spec;

use crate::role::Role;

/// What is noted of a name.
#[derive(Clone, Copy, Debug, PartialEq, Eq)]
pub enum NoteKind {
    /// A fault that nothing catches, and no `throws` names.
    Uncaught,
    /// The same in a loop of a service of which many sessions run.
    UncaughtInLoop,
    /// A fault that nothing catches, in a loop of a service of one session.
    EndsService,
    /// An expression that may have no value, in a `while` that takes messages, of which no scope handles that.
    EndsLoop,
    /// A fault with which a call may come back from a socket, in a `while` that takes messages, of which no scope handles
    /// it.
    CallEndsLoop,
    /// A handler of a fault that nothing throws.
    Unthrown,
    /// A scope that is compensated, where no scope of this name has a handler under `this`.
    NothingUndone,
    /// An output port that nothing is sent to.
    Unsent,
    /// The location of an output port that is a socket at which the file's own services are called.
    OwnSocket,
    /// A variable that is read and nowhere set.
    Unset,
    /// A variable that is set and nowhere read.
    Unread,
    /// The same after an input that is not answered, in a service of one session.
    Forgotten,
    /// A variable on the right side of `=`, below which something is set or read.
    TreeCut,
    /// A variable that is set by `=` to a literal with members.
    LiteralCut,
    /// A variable that a request is answered by, which nothing sets.
    Unanswered,
    /// A variable `global` in a service whose sessions run beside each other.
    NotShared,
    /// An operation that is answered, in a service of one session that takes no message in a loop.
    AnsweredOnce,
}

impl NoteKind {
    /// Whether it is noted of names in a role.
    pub fn is_of(self, role: Role) -> bool
        ensures { result ≡ spec.is_noted self role }
    {
        match self {
            NoteKind::Uncaught => matches!(role, Role::Thrown | Role::Rethrown),
            NoteKind::UncaughtInLoop => matches!(role, Role::ThrownInLoop),
            NoteKind::EndsService => matches!(role, Role::ThrownInLoop),
            NoteKind::EndsLoop => matches!(role, Role::FailingInLoop),
            NoteKind::CallEndsLoop => matches!(role, Role::CallingInLoop),
            NoteKind::Unthrown => matches!(role, Role::Handled | Role::HandledInside),
            NoteKind::NothingUndone => matches!(role, Role::Compensated),
            NoteKind::Unsent => matches!(role, Role::Port),
            NoteKind::OwnSocket => matches!(role, Role::Dialled),
            NoteKind::Unset => matches!(role, Role::Read | Role::FieldRead | Role::RootTaken),
            NoteKind::Unread => matches!(role, Role::Set),
            NoteKind::Forgotten => matches!(role, Role::Kept),
            NoteKind::TreeCut => matches!(role, Role::RootTaken),
            NoteKind::LiteralCut => matches!(role, Role::Flattened),
            NoteKind::Unanswered => matches!(role, Role::LeftUnset),
            NoteKind::NotShared => role.is_set() || takes_value(role),
            NoteKind::AnsweredOnce => matches!(role, Role::Asked | Role::Acknowledged),
        }
    }

    /// Whether a name stands in a role that meets it.
    pub fn is_met_by(self, role: Role) -> bool
        ensures { result ≡ spec.is_met self role }
    {
        match self {
            NoteKind::Uncaught => false,
            NoteKind::UncaughtInLoop => false,
            NoteKind::EndsService => false,
            NoteKind::EndsLoop => false,
            NoteKind::CallEndsLoop => matches!(role, Role::Elsewhere),
            NoteKind::Unthrown => throws(role),
            NoteKind::NothingUndone => matches!(role, Role::Undone),
            NoteKind::Unsent => matches!(role, Role::SentTo),
            NoteKind::OwnSocket => false,
            NoteKind::Unset => gives_value(role),
            NoteKind::Unread => takes_value(role),
            NoteKind::Forgotten => takes_value(role) || matches!(role, Role::Set),
            NoteKind::TreeCut => matches!(role, Role::Branched | Role::FieldRead),
            NoteKind::LiteralCut => matches!(role, Role::Flattened),
            NoteKind::Unanswered => matches!(role, Role::Set | Role::Kept | Role::Received),
            NoteKind::NotShared => false,
            NoteKind::AnsweredOnce => matches!(role, Role::TakenInLoop),
        }
    }
}

/// A fault that is thrown, whatever becomes of it.
fn throws(role: Role) -> bool
    ensures { result ≡ spec.is_met kind.Unthrown role }
{
    matches!(
        role,
        Role::Thrown | Role::ThrownInLoop | Role::Rethrown | Role::Caught
    )
}

/// A variable whose value is used, or answered.
fn takes_value(role: Role) -> bool
    ensures { result ≡ spec.takes_value role }
{
    matches!(
        role,
        Role::Read | Role::FieldRead | Role::RootTaken | Role::Answered | Role::LeftUnset
    )
}

/// A variable that gets a value, or a scope, whose faults stand below its name.
fn gives_value(role: Role) -> bool
    ensures { result ≡ spec.is_met kind.Unset role }
{
    matches!(
        role,
        Role::Set | Role::Kept | Role::Received | Role::Filled | Role::Scope | Role::Undone
    )
}

/// An operation whose answer is a variable.
pub fn is_asked(role: Role) -> bool
    ensures { result ≡ spec.is_asked role }
{
    matches!(role, Role::Asked)
}

/// A port that something is sent to.
pub fn is_sent(role: Role) -> bool
    ensures { result ≡ spec.is_sent role }
{
    matches!(role, Role::SentTo)
}
