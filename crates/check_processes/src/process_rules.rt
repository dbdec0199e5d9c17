ghost use Rattle.std.specs.Prelude.{◌≡◌, OnOk, false, not};
ghost use Rattle.check_base.specs.Least.{joined, refused_if};
ghost use Rattle.check_processes.specs.ProcessParts.{answer_refused, bodies_refused, branch_refused, branches_refused, choice_refused, conditional_refused, handler_refused, handlers_refused, in_handler, input_refused, otherwise_refused, output_refused, processes_refused, reply_if_written, reply_refused};
ghost use Rattle.check_processes.specs.ProcessRules.{block_refused, process_refused};

use crate::process_part_rules::{
    branch_operations, handler_names, lacks_variable, sends, used_as, wrong_if_written,
};
use crate::surroundings::Surroundings;
use check_base::{CheckName, Least, repeated_refused};
use jolie_ast::{Answer, Block, Branch, Handler, If, Input, Name, Otherwise, Process, Reply};
use std::alloc::{AllocError, Global};

/// What is refused of what stands between the braces of init or main.
pub fn block_refused(
    block: &Block,
    alloc: Global,
    surroundings: &Surroundings,
    least: &mut Least,
) -> Result<(), AllocError>
    ensures { OnOk result (least.new ≡ joined least.old (block_refused surroundings.now block.now false)) }
{
    let checker = Checker {
        alloc,
        surroundings,
        place: Where::Plain,
    };
    checker.block_refused(block, least)
}

/// Where a process stands.
#[derive(Clone, Copy)]
enum Where {
    Plain,
    Handler,
}

impl Where {
    fn is_handler(self) -> bool
        ensures { result ≡ in_handler self }
    {
        match self {
            Where::Plain => false,
            Where::Handler => true,
        }
    }
}

/// Checks processes that stand at one kind of place.
#[derive(Clone, Copy)]
struct Checker<'s, 'a> {
    alloc: Global,
    surroundings: &'s Surroundings<'a>,
    place: Where,
}

impl<'s, 'a> Checker<'s, 'a> {
    /// Checks what stands in handlers.
    fn in_handlers(&self) -> Checker<'s, 'a>
        ensures surroundings { result.surroundings.now ≡ self.now.surroundings.now }
        ensures place { result.place ≡ Where.Handler }
    {
        Checker {
            alloc: self.alloc,
            surroundings: self.surroundings,
            place: Where::Handler,
        }
    }

    /// What is refused of a process.
    #[cycle(process)]
    #[tactic(auto, using(crate::proofs::ProcessForms::nothing_refused, crate::proofs::ProcessForms::assign_refused, crate::proofs::ProcessForms::undef_refused, crate::proofs::ProcessForms::correlate_refused, crate::proofs::ProcessForms::throw_refused, crate::proofs::ProcessForms::compensate_refused, crate::proofs::ProcessForms::inner_handler_refused))]
    fn process_refused(&self, process: &Process, least: &mut Least) -> Result<(), AllocError>
        ensures { OnOk result (least.new ≡ joined least.old
            (process_refused self.now.surroundings.now process.now (in_handler self.now.place))) }
    {
        match process {
            Process::Nothing(_) => Ok(()),
            Process::Assign { .. } => Ok(()),
            Process::Undef { .. } => Ok(()),
            Process::Correlate { at, variable, .. } => {
                lacks_variable(*at, variable, self.surroundings, least);
                Ok(())
            }
            Process::If(conditional) => self.conditional_refused(conditional, least),
            Process::While { body, .. } => self.block_refused(body, least),
            Process::For { body, .. } => self.block_refused(body, least),
            Process::Input(input) => self.input_refused(input, least),
            Process::Choice { branches, .. } => self.choice_refused(branches.as_slice(), least),
            Process::Output {
                operation,
                port,
                answer,
                ..
            } => self.output_refused(operation, port, answer, least),
            Process::Scope { body, .. } => self.block_refused(body, least),
            Process::Install { handlers, .. } => self.handlers_refused(handlers.as_slice(), least),
            Process::Throw { .. } => Ok(()),
            Process::Compensate { at, .. } => {
                self.outside_handler(CheckName::CompOutsideHandler, *at, least);
                Ok(())
            }
            Process::InnerHandler(at) => {
                self.outside_handler(CheckName::ChOutsideHandler, *at, least);
                Ok(())
            }
            Process::Block(block) => self.block_refused(block, least),
            Process::Sequence(statements) => self.processes_refused(statements.as_slice(), least),
            Process::Parallel(members) => self.processes_refused(members.as_slice(), least),
        }
    }

    /// What may stand in handlers alone.
    fn outside_handler(&self, cause: CheckName, at: u32, least: &mut Least)
        ensures { least.new ≡ joined least.old (refused_if (not (in_handler self.now.place)) cause at) }
    {
        least.offer_if(!self.place.is_handler(), cause, at);
    }

    /// What is refused of several processes.
    #[cycle(process)]
    fn processes_refused(&self, processes: &[Process], least: &mut Least) -> Result<(), AllocError>
        ensures { OnOk result (least.new ≡ joined least.old
            (processes_refused self.now.surroundings.now processes.now (in_handler self.now.place))) }
    {
        for process in processes {
            self.process_refused(process, least)?;
        }
        Ok(())
    }

    /// What is refused of what stands between braces.
    #[cycle(process)]
    #[tactic(auto, using(crate::proofs::ProcessForms::block_is))]
    fn block_refused(&self, block: &Block, least: &mut Least) -> Result<(), AllocError>
        ensures { OnOk result (least.new ≡ joined least.old
            (block_refused self.now.surroundings.now block.now (in_handler self.now.place))) }
    {
        match &block.body {
            Some(process) => self.process_refused(process.get(), least),
            None => Ok(()),
        }
    }

    /// What is refused of an `if`.
    #[cycle(process)]
    #[tactic(auto, using(check_base::proofs::Joined::joined_append, crate::proofs::ProcessForms::conditional_is))]
    fn conditional_refused(&self, conditional: &If, least: &mut Least) -> Result<(), AllocError>
        ensures { OnOk result (least.new ≡ joined least.old
            (conditional_refused self.now.surroundings.now conditional.now (in_handler self.now.place))) }
    {
        self.block_refused(&conditional.body, least)?;
        self.otherwise_refused(&conditional.otherwise, least)
    }

    /// What is refused of what an `if` does where its test fails.
    #[cycle(process)]
    #[tactic(auto, using(crate::proofs::ProcessForms::no_else_refused, crate::proofs::ProcessForms::else_if_refused, crate::proofs::ProcessForms::else_refused))]
    fn otherwise_refused(&self, otherwise: &Otherwise, least: &mut Least) -> Result<(), AllocError>
        ensures { OnOk result (least.new ≡ joined least.old
            (otherwise_refused self.now.surroundings.now otherwise.now (in_handler self.now.place))) }
    {
        match otherwise {
            Otherwise::Nothing => Ok(()),
            Otherwise::ElseIf(conditional) => self.conditional_refused(conditional.get(), least),
            Otherwise::Else(block) => self.block_refused(block, least),
        }
    }

    /// An input has to be of an operation of the input ports, with a reply exactly where the operation answers.
    #[cycle(process)]
    #[tactic(auto, using(check_base::proofs::Joined::joined_append, crate::proofs::ProcessForms::used_is))]
    fn input_refused(&self, input: &Input, least: &mut Least) -> Result<(), AllocError>
        ensures { OnOk result (least.new ≡ joined least.old
            (input_refused self.now.surroundings.now input.now (in_handler self.now.place))) }
    {
        let inputs = self.surroundings.inputs();
        let known = inputs.answers(input.operation.text.as_str());
        used_as(known, &input.operation, input.reply.is_some(), least);
        wrong_if_written(&input.request, least);
        self.reply_if_written(&input.reply, least)
    }

    /// What is refused of a reply, if it is written.
    #[cycle(process)]
    fn reply_if_written(&self, reply: &Option<Reply>, least: &mut Least) -> Result<(), AllocError>
        ensures { OnOk result (least.new ≡ joined least.old
            (reply_if_written self.now.surroundings.now reply.now (in_handler self.now.place))) }
    {
        match reply {
            Some(reply) => self.reply_refused(reply, least),
            None => Ok(()),
        }
    }

    /// What is refused of a reply.
    #[cycle(process)]
    #[tactic(auto, using(check_base::proofs::Joined::joined_append))]
    fn reply_refused(&self, reply: &Reply, least: &mut Least) -> Result<(), AllocError>
        ensures { OnOk result (least.new ≡ joined least.old
            (reply_refused self.now.surroundings.now reply.now (in_handler self.now.place))) }
    {
        wrong_if_written(&reply.path, least);
        self.block_refused(&reply.body, least)
    }

    /// No two branches of a choice are of one operation.
    #[cycle(process)]
    #[tactic(auto, using(check_base::proofs::Joined::joined_append))]
    fn choice_refused(&self, branches: &[Branch], least: &mut Least) -> Result<(), AllocError>
        ensures { OnOk result (least.new ≡ joined least.old
            (choice_refused self.now.surroundings.now branches.now (in_handler self.now.place))) }
    {
        let operations = branch_operations(self.alloc, branches)?;
        repeated_refused(self.alloc, operations.as_slice(), least)?;
        self.branches_refused(branches, least)
    }

    /// What is refused of branches one by one.
    #[cycle(process)]
    fn branches_refused(&self, branches: &[Branch], least: &mut Least) -> Result<(), AllocError>
        ensures { OnOk result (least.new ≡ joined least.old
            (branches_refused self.now.surroundings.now branches.now (in_handler self.now.place))) }
    {
        for branch in branches {
            self.branch_refused(branch, least)?;
        }
        Ok(())
    }

    /// What is refused of a branch.
    #[cycle(process)]
    #[tactic(auto, using(check_base::proofs::Joined::joined_append))]
    fn branch_refused(&self, branch: &Branch, least: &mut Least) -> Result<(), AllocError>
        ensures { OnOk result (least.new ≡ joined least.old
            (branch_refused self.now.surroundings.now branch.now (in_handler self.now.place))) }
    {
        self.input_refused(&branch.input, least)?;
        self.block_refused(&branch.after, least)
    }

    /// What is refused of an output.
    #[cycle(process)]
    #[tactic(auto, using(check_base::proofs::Joined::joined_append))]
    fn output_refused(
        &self,
        operation: &Name,
        port: &Name,
        answer: &Option<Answer>,
        least: &mut Least,
    ) -> Result<(), AllocError>
        ensures { OnOk result (least.new ≡ joined least.old
            (output_refused self.now.surroundings.now operation.now port.now answer.now)) }
    {
        sends(operation, port, answer.is_some(), self.surroundings, least);
        match answer {
            Some(answer) => self.answer_refused(answer, least),
            None => Ok(()),
        }
    }

    /// What is refused of what an output awaits.
    #[cycle(process)]
    #[tactic(auto, using(check_base::proofs::Joined::joined_append))]
    fn answer_refused(&self, answer: &Answer, least: &mut Least) -> Result<(), AllocError>
        ensures { OnOk result (least.new ≡ joined least.old (answer_refused self.now.surroundings.now answer.now)) }
    {
        wrong_if_written(&answer.path, least);
        match &answer.handlers {
            Some(handlers) => self.handlers_refused(handlers.as_slice(), least),
            None => Ok(()),
        }
    }

    /// No two handlers of a list have one name.
    #[cycle(process)]
    #[tactic(auto, using(check_base::proofs::Joined::joined_append))]
    fn handlers_refused(&self, handlers: &[Handler], least: &mut Least) -> Result<(), AllocError>
        ensures { OnOk result (least.new ≡ joined least.old
            (handlers_refused self.now.surroundings.now handlers.now)) }
    {
        let names = handler_names(self.alloc, handlers)?;
        repeated_refused(self.alloc, names.as_slice(), least)?;
        self.bodies_refused(handlers, least)
    }

    /// What is refused in handlers one by one.
    #[cycle(process)]
    fn bodies_refused(&self, handlers: &[Handler], least: &mut Least) -> Result<(), AllocError>
        ensures { OnOk result (least.new ≡ joined least.old (bodies_refused self.now.surroundings.now handlers.now)) }
    {
        for handler in handlers {
            self.handler_refused(handler, least)?;
        }
        Ok(())
    }

    /// What is refused in a handler.
    #[cycle(process)]
    fn handler_refused(&self, handler: &Handler, least: &mut Least) -> Result<(), AllocError>
        ensures { OnOk result (least.new ≡ joined least.old (handler_refused self.now.surroundings.now handler.now)) }
    {
        let inside = self.in_handlers();
        inside.process_refused(&handler.body, least)
    }
}
