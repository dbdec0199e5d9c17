//! What processes mention.

ghost use Rattle.std.specs.Prelude.{◌≡◌, [], ◌∷◌, ◌++◌, OnOk, flat_map, is_some, map, option_map};
ghost use Rattle.explain_notes.specs.declared.role.Role.TheVariants as role;
ghost use Rattle.explain_notes.specs.Mentions.{around_scope, around_while, calling, in_role, kept_role, looped_role, mention, scope_role};
ghost use Rattle.explain_notes.specs.Expressions.{expr_mentions};
ghost use Rattle.explain_notes.specs.Statements.{answered_role, begun_mentions, handler_mentions_of, if_written, received_mentions, request_mentions, stepped_mentions};
ghost use Rattle.explain_notes.specs.Processes.{block_mentions, called_back};
ghost use Rattle.explain_notes.specs.Parts.{after_input, answer_mentions, asked_mentions, branch_mentions, handler_mentions, if_mentions, input_mentions, otherwise_mentions, process_mentions, reply_mentions};

use crate::list::Mentions;
use crate::role::Role;
use jolie_ast::{
    Answer, Block, Branch, Expr, ForStep, Handler, HandlerKey, If, Input, Name, Otherwise, Path,
    Process, Reply,
};
use std::alloc::AllocError;

impl<'a> Mentions<'a> {
    #[cycle(process)]
    #[tactic(auto, using(crate::proofs::ProcessForms::nothing_is, crate::proofs::ProcessForms::assign_is, crate::proofs::ProcessForms::undef_is, crate::proofs::ProcessForms::correlate_is, crate::proofs::ProcessForms::conditional_is, crate::proofs::ProcessForms::while_is, crate::proofs::ProcessForms::for_is, crate::proofs::ProcessForms::input_form_is, crate::proofs::ProcessForms::choice_is, crate::proofs::ProcessForms::output_is, crate::proofs::ProcessForms::scope_is, crate::proofs::ProcessForms::install_is, crate::proofs::ProcessForms::throw_is, crate::proofs::ProcessForms::compensate_is, crate::proofs::ProcessForms::inner_handler_is, crate::proofs::ProcessForms::block_form_is, crate::proofs::ProcessForms::sequence_is, crate::proofs::ProcessForms::parallel_is))]
    pub(crate) fn process(&mut self, process: &'a Process) -> Result<(), AllocError>
        ensures { OnOk result (self.new ≡ self.old ++ process_mentions process.now) }
    {
        match process {
            Process::Nothing(_) => Ok(()),
            Process::Assign { path, assignment } => self.assigned(path, assignment),
            Process::Undef { path, .. } => self.indices(path),
            Process::Correlate { value, .. } => self.expr(value),
            Process::If(conditional) => self.conditional(conditional),
            Process::While { test, body, .. } => self.while_loop(body, test),
            Process::For {
                path,
                first,
                test,
                stepped,
                step,
                body,
                ..
            } => self.for_loop(body, path, first, test, stepped, step),
            Process::Input(input) => self.input(input),
            Process::Choice { branches, .. } => self.branches(branches.as_slice()),
            Process::Output {
                port,
                value,
                answer,
                ..
            } => self.output(port, value, answer),
            Process::Scope { name, body, .. } => self.scope(name, body),
            Process::Install { handlers, .. } => self.handlers(handlers.as_slice()),
            Process::Throw { fault, value, .. } => self.thrown(fault, value),
            Process::Compensate { scope, .. } => self.add(Role::Compensated, scope),
            Process::InnerHandler(_) => Ok(()),
            Process::Block(block) => self.block(block),
            Process::Sequence(statements) => self.processes(statements.as_slice()),
            Process::Parallel(members) => self.processes(members.as_slice()),
        }
    }

    #[cycle(process)]
    fn processes(&mut self, processes: &'a [Process]) -> Result<(), AllocError>
        ensures { OnOk result (self.new ≡ self.old ++ flat_map process_mentions processes.now) }
    {
        for process in processes {
            self.process(process)?;
        }
        Ok(())
    }

    #[cycle(process)]
    #[tactic(auto, using(crate::proofs::ProcessForms::block_is))]
    pub(crate) fn block(&mut self, block: &'a Block) -> Result<(), AllocError>
        ensures { OnOk result (self.new ≡ self.old ++ block_mentions block.now) }
    {
        match &block.body {
            Some(body) => self.process(body.get()),
            None => Ok(()),
        }
    }

    /// A `while` with its test.
    #[cycle(process)]
    fn while_loop(&mut self, body: &'a Block, test: &'a Expr) -> Result<(), AllocError>
        ensures { OnOk result (self.new ≡ self.old
            ++ around_while (expr_mentions test.now ++ block_mentions body.now)) }
    {
        let mut inner = self.inner();
        inner.expr(test)?;
        inner.block(body)?;
        self.add_while(&inner)
    }

    /// A `for` with what stands in its parentheses.
    #[cycle(process)]
    #[tactic(auto, using(crate::proofs::Lists::behind_three))]
    fn for_loop(
        &mut self,
        body: &'a Block,
        path: &'a Path,
        first: &'a Expr,
        test: &'a Expr,
        stepped: &'a Path,
        step: &'a ForStep,
    ) -> Result<(), AllocError>
        ensures { OnOk result (self.new ≡ self.old
            ++ (begun_mentions path.now first.now test.now
            ++ (stepped_mentions stepped.now step.now ++ map (in_role looped_role) (block_mentions body.now)))) }
    {
        self.begun(path, first, test)?;
        self.stepped(stepped, step)?;
        self.looped(body)
    }

    /// An output, and what it awaits.
    #[cycle(process)]
    #[tactic(auto, using(crate::proofs::Lists::behind_two))]
    fn output(
        &mut self,
        port: &'a Name,
        value: &'a Option<Expr>,
        answer: &'a Option<Answer>,
    ) -> Result<(), AllocError>
        ensures { OnOk result (self.new ≡ self.old
            ++ mention role.SentTo port.now ∷
            (if_written expr_mentions value.now ++ called_back port.now (option_map answer_mentions answer.now))) }
    {
        self.sent(port, value)?;
        self.called_back(answer, port)
    }

    /// What stands in a loop.
    #[cycle(process)]
    fn looped(&mut self, body: &'a Block) -> Result<(), AllocError>
        ensures { OnOk result (self.new ≡ self.old ++ map (in_role looped_role) (block_mentions body.now)) }
    {
        let mut inner = self.inner();
        inner.block(body)?;
        self.add_looped(&inner)
    }

    /// A scope: what it handles does not pass it.
    #[cycle(process)]
    fn scope(&mut self, name: &'a Name, body: &'a Block) -> Result<(), AllocError>
        ensures { OnOk result (self.new ≡ self.old
            ++ mention (scope_role (block_mentions body.now)) name.now ∷ around_scope (block_mentions body.now)) }
    {
        let mut inner = self.inner();
        inner.block(body)?;
        let handled = inner.handled()?;
        self.add(inner.scope_role(), name)?;
        self.add_scoped(&handled, &inner)
    }

    #[cycle(process)]
    #[tactic(auto, using(crate::proofs::ProcessForms::if_is, crate::proofs::Lists::behind_three))]
    fn conditional(&mut self, conditional: &'a If) -> Result<(), AllocError>
        ensures { OnOk result (self.new ≡ self.old ++ if_mentions conditional.now) }
    {
        self.expr(&conditional.test)?;
        self.block(&conditional.body)?;
        self.otherwise(&conditional.otherwise)
    }

    #[cycle(process)]
    #[tactic(auto, using(crate::proofs::ProcessForms::no_else_is, crate::proofs::ProcessForms::else_if_is, crate::proofs::ProcessForms::else_is))]
    fn otherwise(&mut self, otherwise: &'a Otherwise) -> Result<(), AllocError>
        ensures { OnOk result (self.new ≡ self.old ++ otherwise_mentions otherwise.now) }
    {
        match otherwise {
            Otherwise::Nothing => Ok(()),
            Otherwise::ElseIf(conditional) => self.conditional(conditional.get()),
            Otherwise::Else(block) => self.block(block),
        }
    }

    #[cycle(process)]
    #[tactic(auto, using(crate::proofs::ProcessForms::input_is, crate::proofs::Lists::behind_one))]
    fn input(&mut self, input: &'a Input) -> Result<(), AllocError>
        ensures { OnOk result (self.new ≡ self.old ++ input_mentions input.now []) }
    {
        self.add(Role::Taken, &input.operation)?;
        self.asked(input)
    }

    /// What an input takes, by its reply part.
    #[cycle(process)]
    fn asked(&mut self, input: &'a Input) -> Result<(), AllocError>
        ensures { OnOk result (self.new ≡ self.old ++ asked_mentions input.now) }
    {
        match &input.reply {
            Some(reply) => self.request(&input.operation, &input.request, reply),
            None => self.received(&input.request),
        }
    }

    /// A request: what it takes and does, and the variable that it is answered by.
    #[cycle(process)]
    #[tactic(auto, using(crate::proofs::ProcessForms::reply_is))]
    fn request(
        &mut self,
        operation: &'a Name,
        request: &'a Option<Path>,
        reply: &'a Reply,
    ) -> Result<(), AllocError>
        ensures { OnOk result (self.new ≡ self.old
            ++ reply_mentions reply.now operation.now (received_mentions request.now)) }
    {
        let mut inside = self.inner();
        inside.received(request)?;
        inside.block(&reply.body)?;
        self.answered(operation, &reply.path, &inside)
    }

    #[cycle(process)]
    fn branches(&mut self, branches: &'a [Branch]) -> Result<(), AllocError>
        ensures { OnOk result (self.new ≡ self.old ++ flat_map branch_mentions branches.now) }
    {
        for branch in branches {
            self.branch(branch)?;
        }
        Ok(())
    }

    #[cycle(process)]
    #[tactic(auto, using(crate::proofs::ProcessForms::branch_is, crate::proofs::Lists::behind_two))]
    fn branch(&mut self, branch: &'a Branch) -> Result<(), AllocError>
        ensures { OnOk result (self.new ≡ self.old ++ branch_mentions branch.now) }
    {
        self.input(&branch.input)?;
        self.after(&branch.after, &branch.input.reply)
    }

    /// What stands after an input, by its reply part.
    #[cycle(process)]
    fn after(&mut self, after: &'a Block, reply: &Option<Reply>) -> Result<(), AllocError>
        ensures { OnOk result (self.new ≡ self.old ++ after_input (is_some reply.now) (block_mentions after.now)) }
    {
        match reply {
            Some(_) => self.block(after),
            None => self.kept(after),
        }
    }

    /// What stands after an input that is not answered.
    #[cycle(process)]
    fn kept(&mut self, after: &'a Block) -> Result<(), AllocError>
        ensures { OnOk result (self.new ≡ self.old ++ map (in_role kept_role) (block_mentions after.now)) }
    {
        let mut inner = self.inner();
        inner.block(after)?;
        self.add_kept(&inner)
    }

    /// What a call at a port awaits, if it does: the faults with which it may come back, and its answer.
    #[cycle(process)]
    #[tactic(auto, using(crate::proofs::Lists::behind_two))]
    fn called_back(&mut self, answer: &'a Option<Answer>, port: &Name) -> Result<(), AllocError>
        ensures { OnOk result (self.new ≡ self.old ++ called_back port.now (option_map answer_mentions answer.now)) }
    {
        match answer {
            Some(answer) => {
                self.calling(port)?;
                self.answer(answer)
            }
            None => Ok(()),
        }
    }

    #[cycle(process)]
    #[tactic(auto, using(crate::proofs::ProcessForms::answer_is))]
    fn answer(&mut self, answer: &'a Answer) -> Result<(), AllocError>
        ensures { OnOk result (self.new ≡ self.old ++ answer_mentions answer.now) }
    {
        match &answer.handlers {
            Some(handlers) => self.awaited(handlers.as_slice(), &answer.path),
            None => self.received(&answer.path),
        }
    }

    /// What an output awaits, with handlers.
    #[cycle(process)]
    #[tactic(auto, using(crate::proofs::Lists::behind_two))]
    fn awaited(&mut self, handlers: &'a [Handler], path: &'a Option<Path>) -> Result<(), AllocError>
        ensures { OnOk result (self.new ≡ self.old
            ++ (received_mentions path.now ++ flat_map handler_mentions handlers.now)) }
    {
        self.received(path)?;
        self.handlers(handlers)
    }

    #[cycle(process)]
    fn handlers(&mut self, handlers: &'a [Handler]) -> Result<(), AllocError>
        ensures { OnOk result (self.new ≡ self.old ++ flat_map handler_mentions handlers.now) }
    {
        for handler in handlers {
            self.handler(handler)?;
        }
        Ok(())
    }

    #[cycle(process)]
    #[tactic(auto, using(crate::proofs::ProcessForms::handler_is))]
    fn handler(&mut self, handler: &'a Handler) -> Result<(), AllocError>
        ensures { OnOk result (self.new ≡ self.old ++ handler_mentions handler.now) }
    {
        let mut inner = self.inner();
        inner.process(&handler.body)?;
        self.handled_by(&handler.key, &inner)
    }

    /// A handler with what stands in it.
    fn handled_by(&mut self, key: &'a HandlerKey, inner: &Mentions<'a>) -> Result<(), AllocError>
        ensures { OnOk result (self.new ≡ self.old ++ handler_mentions_of key.now inner.now) }
    {
        match key {
            HandlerKey::This(at) => {
                self.put(Role::Undoing, *at, "this")?;
                self.add_of_this(inner)
            }
            HandlerKey::Named(fault) => {
                self.add(Role::Handled, fault)?;
                self.add_of_handler(fault, inner)
            }
        }
    }

    /// A request with what it takes and does.
    fn answered(
        &mut self,
        operation: &'a Name,
        path: &'a Option<Path>,
        inside: &Mentions<'a>,
    ) -> Result<(), AllocError>
        ensures { OnOk result (self.new ≡ self.old ++ request_mentions operation.now path.now inside.now) }
    {
        match path {
            Some(path) => {
                let variable = &path.first.name;
                let role = answered_by(variable, inside);
                self.add(Role::Asked, operation)?;
                self.path(role, path)?;
                self.add_requested(variable, inside)
            }
            None => {
                self.add(Role::Acknowledged, operation)?;
                self.add_all(inside)
            }
        }
    }

    /// What is sent to a port.
    fn sent(&mut self, port: &'a Name, value: &'a Option<Expr>) -> Result<(), AllocError>
        ensures { OnOk result (self.new ≡ self.old
            ++ mention role.SentTo port.now ∷ if_written expr_mentions value.now) }
    {
        self.add(Role::SentTo, port)?;
        self.value(value)
    }

    /// The faults with which a call at a socket may come back, at the place of its port.
    fn calling(&mut self, port: &Name) -> Result<(), AllocError>
        ensures { OnOk result (self.new ≡ self.old ++ calling port.now) }
    {
        self.put(Role::Calling, port.at, "IOException")?;
        self.put(Role::Calling, port.at, "TypeMismatch")?;
        self.put(Role::Calling, port.at, "UndeclaredFault")?;
        Ok(())
    }

    /// A fault that is thrown.
    fn thrown(&mut self, fault: &'a Name, value: &'a Option<Expr>) -> Result<(), AllocError>
        ensures { OnOk result (self.new ≡ self.old
            ++ mention role.Thrown fault.now ∷ if_written expr_mentions value.now) }
    {
        self.add(Role::Thrown, fault)?;
        self.value(value)
    }
}

/// The role of the variable that a request is answered by.
fn answered_by(variable: &Name, inside: &Mentions<'_>) -> Role
    ensures { result ≡ answered_role variable.now inside.now }
{
    if inside.sets(variable) || inside.faults() {
        Role::Answered
    } else {
        Role::LeftUnset
    }
}
