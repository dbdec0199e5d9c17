ghost use Rattle.std.specs.Prelude.{◌≡◌};
ghost use Rattle.explain_notes.specs.Mentions as spec;

/// What is done with a name where it stands.
#[derive(Clone, Copy, Debug, PartialEq, Eq)]
pub enum Role {
    /// A variable whose value is used.
    Read,
    /// A variable of which a field is used.
    FieldRead,
    /// A variable that is the whole right side of `=`.
    RootTaken,
    /// A variable that a statement sets, it or a field of it.
    Set,
    /// The same, in the braces after an input that is not answered.
    Kept,
    /// A variable that takes a message or an answer, it or a field of it.
    Received,
    /// One of the last three, inside of a request that is answered by this variable.
    Filled,
    /// A variable of which a field is set.
    Branched,
    /// A variable that is set by `=` to a literal with members.
    Flattened,
    /// ExprFault, where an expression may have no value.
    Failing,
    /// The same in a `while` that takes messages, of which no scope handles it.
    FailingInLoop,
    /// One of the last two or of the next two, where something ends it.
    FailingSafely,
    /// A fault with which a call may come back from a socket.
    Calling,
    /// The same in a `while` that takes messages, of which no scope handles it.
    CallingInLoop,
    /// An operation whose message is taken.
    Taken,
    /// The same in a loop.
    TakenInLoop,
    /// An operation that is answered without a variable.
    Acknowledged,
    /// An operation whose body sets a variable that is answered, or should.
    Asked,
    /// The variable that it answers, where its body sets it or a fault may leave the body.
    Answered,
    /// The variable that it answers, where its body does neither.
    LeftUnset,
    /// A scope without a handler under `this`.
    Scope,
    /// A scope with one.
    Undone,
    /// A handler under `this` in the nearest scope.
    Undoing,
    /// A handler under `this` in a scope further inside.
    UndoingInside,
    /// A scope that is compensated.
    Compensated,
    /// An output port.
    Port,
    /// The location of an output port.
    Dialled,
    /// An output port whose location is a socket.
    Elsewhere,
    /// A port that something is sent to.
    SentTo,
    /// A fault that is thrown.
    Thrown,
    /// A fault that is thrown in a loop.
    ThrownInLoop,
    /// A fault that its own handler throws.
    Rethrown,
    /// A fault that is thrown where something ends it.
    Caught,
    /// A fault that has a handler in the nearest scope.
    Handled,
    /// A fault that has a handler in a scope further inside.
    HandledInside,
}

impl Role {
    /// Whether a variable gets a value.
    pub(crate) fn is_set(self) -> bool
        ensures { result ≡ spec.is_set self }
    {
        matches!(self, Role::Set | Role::Kept | Role::Received | Role::Filled)
    }

    /// Whether a fault is thrown that nothing caught yet.
    pub(crate) fn is_free(self) -> bool
        ensures { result ≡ spec.is_free self }
    {
        matches!(self, Role::Thrown | Role::ThrownInLoop | Role::Rethrown)
    }

    /// Whether a fault has a handler in the nearest scope.
    pub(crate) fn is_handled(self) -> bool
        ensures { result ≡ spec.is_handled self }
    {
        matches!(self, Role::Handled)
    }

    /// Whether an expression may have no value there, or a call come back with a fault, and no scope around it handles
    /// that yet.
    pub(crate) fn is_failing(self) -> bool
        ensures { result ≡ spec.is_failing self }
    {
        matches!(
            self,
            Role::Failing | Role::FailingInLoop | Role::Calling | Role::CallingInLoop
        )
    }

    /// Whether the message of an operation is taken.
    pub(crate) fn is_taken(self) -> bool
        ensures { result ≡ spec.is_taken self }
    {
        matches!(self, Role::Taken | Role::TakenInLoop)
    }

    /// Whether the nearest scope has a handler under `this`.
    pub(crate) fn is_undoing(self) -> bool
        ensures { result ≡ spec.is_undoing self }
    {
        matches!(self, Role::Undoing)
    }

    /// The role in a loop.
    pub(crate) fn in_loop(self) -> Role
        ensures { result ≡ spec.looped_role self }
    {
        match self {
            Role::Thrown => Role::ThrownInLoop,
            Role::Taken => Role::TakenInLoop,
            _ => self,
        }
    }

    /// The role in a `while` that takes messages.
    pub(crate) fn in_turn(self) -> Role
        ensures { result ≡ spec.turned_role self }
    {
        match self {
            Role::Failing => Role::FailingInLoop,
            Role::Calling => Role::CallingInLoop,
            _ => self.in_loop(),
        }
    }

    /// The role after an input that is not answered.
    pub(crate) fn after_one_way(self) -> Role
        ensures { result ≡ spec.kept_role self }
    {
        match self {
            Role::Set => Role::Kept,
            _ => self,
        }
    }

    /// The role where faults end by themselves.
    pub(crate) fn caught(self) -> Role
        ensures { result ≡ spec.caught_role self }
    {
        if self.is_free() {
            return Role::Caught;
        }
        if self.is_failing() {
            Role::FailingSafely
        } else {
            self
        }
    }

    /// The role around a scope that does not handle the fault.
    pub(crate) fn freed(self) -> Role
        ensures { result ≡ spec.freed_role self }
    {
        match self {
            Role::Rethrown => Role::Thrown,
            Role::Handled => Role::HandledInside,
            Role::Undoing => Role::UndoingInside,
            _ => self,
        }
    }
}
