ghost use Rattle.std.specs.Prelude.{◌≡◌, ◌∷◌, ◌++◌, [], OnOk, flat_map, codes, option_map};
ghost use Rattle.jolie_ast.specs.Spacing.{after, separated, with_token};
ghost use Rattle.jolie_ast.specs.PrintedExpressions.{in_parens, in_brackets, expr_tokens, path_tokens};
ghost use Rattle.jolie_ast.specs.PrintedParts.{maybe};
ghost use Rattle.jolie_ast.specs.PrintedProcesses.{answer_tokens, assignment_tokens, block_tokens, branch_tokens, count_token, for_step_tokens, handler_tokens, if_tokens, input_tokens, key_token, otherwise_tokens, path_parens, process_tokens, reply_tokens, thrown_tokens, value_parens};

use crate::expression::{Expr, Path};
use crate::name::Name;
use crate::printer::Printer;
use crate::process::{
    Answer, Assignment, Block, Branch, Count, ForStep, Handler, HandlerKey, If, Input, Otherwise,
    Process, Reply,
};
use std::alloc::AllocError;

impl Printer {
    fn count(&mut self, count: Count) -> Result<(), AllocError>
        ensures { OnOk result (self.new ≡ with_token self.old (count_token count)) }
    {
        self.token(match count {
            Count::Up => "++",
            Count::Down => "--",
        })
    }

    #[tactic(auto, using(crate::proofs::Spacing::after_append))]
    fn assignment(&mut self, assignment: &Assignment) -> Result<(), AllocError>
        ensures { OnOk result (self.new ≡ after self.old (assignment_tokens assignment.now)) }
    {
        match assignment {
            Assignment::Root(value) => {
                self.token("=")?;
                self.expr(value)
            }
            Assignment::Copy(value) => {
                self.token("<<")?;
                self.expr(value)
            }
            Assignment::Count(count) => self.count(*count),
        }
    }

    #[tactic(auto, using(crate::proofs::Spacing::after_append))]
    fn for_step(&mut self, step: &ForStep) -> Result<(), AllocError>
        ensures { OnOk result (self.new ≡ after self.old (for_step_tokens step.now)) }
    {
        match step {
            ForStep::Root(value) => {
                self.token("=")?;
                self.expr(value)
            }
            ForStep::Count(count) => self.count(*count),
        }
    }

    fn handler_key(&mut self, key: &HandlerKey) -> Result<(), AllocError>
        ensures { OnOk result (self.new ≡ with_token self.old (key_token key.now)) }
    {
        match key {
            HandlerKey::This(_) => self.token("this"),
            HandlerKey::Named(name) => self.token(name.text.as_str()),
        }
    }

    fn name_in_parens(&mut self, name: &Name) -> Result<(), AllocError>
        ensures { OnOk result (self.new ≡ after self.old (in_parens (name.now.text ∷ []))) }
    {
        self.token("(")?;
        self.token(name.text.as_str())?;
        self.token(")")
    }

    #[tactic(auto, using(crate::proofs::Spacing::after_append))]
    fn path_parens(&mut self, path: &Option<Path>) -> Result<(), AllocError>
        ensures { OnOk result (self.new ≡ after self.old (path_parens path.now)) }
    {
        self.token("(")?;
        if let Some(path) = path {
            self.path(path)?;
        }
        self.token(")")
    }

    #[tactic(auto, using(crate::proofs::Spacing::after_append))]
    fn value_parens(&mut self, value: &Option<Expr>) -> Result<(), AllocError>
        ensures { OnOk result (self.new ≡ after self.old (value_parens value.now)) }
    {
        self.token("(")?;
        if let Some(value) = value {
            self.expr(value)?;
        }
        self.token(")")
    }

    /// The data of a fault, if any is written.
    #[tactic(auto, using(crate::proofs::Spacing::after_append))]
    fn thrown(&mut self, value: &Option<Expr>) -> Result<(), AllocError>
        ensures { OnOk result (self.new ≡ after self.old (thrown_tokens value.now)) }
    {
        match value {
            Some(value) => {
                self.token(",")?;
                self.expr(value)
            }
            None => Ok(()),
        }
    }

    /// A fault and its data in parentheses.
    #[tactic(auto, using(crate::proofs::Spacing::after_append))]
    fn fault_in_parens(&mut self, fault: &Name, value: &Option<Expr>) -> Result<(), AllocError>
        ensures { OnOk result (self.new ≡ after self.old (in_parens (fault.now.text ∷ thrown_tokens value.now))) }
    {
        self.token("(")?;
        self.token(fault.text.as_str())?;
        self.thrown(value)?;
        self.token(")")
    }

    #[tactic(auto, using(crate::proofs::Spacing::after_append))]
    fn correlate(&mut self, variable: &Name, value: &Expr) -> Result<(), AllocError>
        ensures { OnOk result (self.new ≡ after self.old
            (codes "csets" ∷ (codes "." ∷ (variable.now.text ∷ (codes "=" ∷ expr_tokens value.now))))) }
    {
        self.token("csets")?;
        self.token(".")?;
        self.token(variable.text.as_str())?;
        self.token("=")?;
        self.expr(value)
    }

    /// What an output sends, and where.
    #[tactic(auto, using(crate::proofs::Spacing::after_append))]
    fn sent(
        &mut self,
        operation: &Name,
        port: &Name,
        value: &Option<Expr>,
    ) -> Result<(), AllocError>
        ensures { OnOk result (self.new ≡ after self.old
            (operation.now.text ∷ (codes "@" ∷ (port.now.text ∷ value_parens value.now)))) }
    {
        self.token(operation.text.as_str())?;
        self.token("@")?;
        self.token(port.text.as_str())?;
        self.value_parens(value)
    }

    /// A path that is given a value.
    #[tactic(auto, using(crate::proofs::Spacing::after_append))]
    fn path_given(&mut self, path: &Path, value: &Expr) -> Result<(), AllocError>
        ensures { OnOk result (self.new ≡ after self.old
            (path_tokens path.now ++ codes "=" ∷ expr_tokens value.now)) }
    {
        self.path(path)?;
        self.token("=")?;
        self.expr(value)
    }

    /// A path and what the last part of a `for` does to it.
    #[tactic(auto, using(crate::proofs::Spacing::after_append))]
    fn path_stepped(&mut self, path: &Path, step: &ForStep) -> Result<(), AllocError>
        ensures { OnOk result (self.new ≡ after self.old (path_tokens path.now ++ for_step_tokens step.now)) }
    {
        self.path(path)?;
        self.for_step(step)
    }

    /// A `for` before its body.
    #[tactic(auto, using(crate::proofs::Spacing::after_append))]
    fn for_head(
        &mut self,
        path: &Path,
        first: &Expr,
        test: &Expr,
        stepped: &Path,
        step: &ForStep,
    ) -> Result<(), AllocError>
        ensures { OnOk result (self.new ≡ after self.old
            (codes "for" ∷ in_parens (path_tokens path.now
            ++ codes "=" ∷ (expr_tokens first.now
            ++ codes "," ∷ (expr_tokens test.now
            ++ codes "," ∷ (path_tokens stepped.now ++ for_step_tokens step.now)))))) }
    {
        self.token("for")?;
        self.token("(")?;
        self.path_given(path, first)?;
        self.token(",")?;
        self.expr(test)?;
        self.token(",")?;
        self.path_stepped(stepped, step)?;
        self.token(")")
    }

    #[cycle(process)]
    pub fn process(&mut self, process: &Process) -> Result<(), AllocError>
        ensures { OnOk result (self.new ≡ after self.old (process_tokens process.now)) }
    {
        match process {
            Process::Nothing(_) => self.token("nullProcess"),
            Process::Assign { path, assignment } => {
                self.path(path)?;
                self.assignment(assignment)
            }
            Process::Undef { path, .. } => {
                self.token("undef")?;
                self.path_in_parens(path)
            }
            Process::Correlate {
                variable,
                value,
                ..
            } => self.correlate(variable, value),
            Process::If(conditional) => self.conditional(conditional),
            Process::While { test, body, .. } => {
                self.token("while")?;
                self.in_parens(test)?;
                self.block(body)
            }
            Process::For {
                path,
                first,
                test,
                stepped,
                step,
                body,
                ..
            } => {
                self.for_head(path, first, test, stepped, step)?;
                self.block(body)
            }
            Process::Input(input) => self.input(input),
            Process::Choice { branches, .. } => self.branches(branches.as_slice()),
            Process::Output {
                operation,
                port,
                value,
                answer,
            } => {
                self.sent(operation, port, value)?;
                self.optional_answer(answer)
            }
            Process::Scope { name, body, .. } => {
                self.token("scope")?;
                self.name_in_parens(name)?;
                self.block(body)
            }
            Process::Install { handlers, .. } => {
                self.token("install")?;
                self.handlers_in_parens(handlers.as_slice())
            }
            Process::Throw { fault, value, .. } => {
                self.token("throw")?;
                self.fault_in_parens(fault, value)
            }
            Process::Compensate { scope, .. } => {
                self.token("comp")?;
                self.name_in_parens(scope)
            }
            Process::InnerHandler(_) => self.token("cH"),
            Process::Block(block) => self.block(block),
            Process::Sequence(statements) => self.processes(";", statements.as_slice()),
            Process::Parallel(members) => self.processes("|", members.as_slice()),
        }
    }

    /// Several processes with a sign between every two.
    #[cycle(process)]
    #[tactic(auto, using(crate::proofs::Spacing::after_append, crate::proofs::Spacing::after_more))]
    fn processes(&mut self, sign: &str, processes: &[Process]) -> Result<(), AllocError>
        ensures { OnOk result (self.new ≡ after self.old (separated sign.now process_tokens processes.now)) }
    {
        if let [first, rest @ ..] = processes {
            self.process(first)?;
            for process in rest {
                self.token(sign)?;
                self.process(process)?;
            }
        }
        Ok(())
    }

    #[cycle(process)]
    #[tactic(auto, using(crate::proofs::Spacing::after_append, crate::proofs::PrintedProcesses::block_is))]
    pub fn block(&mut self, block: &Block) -> Result<(), AllocError>
        ensures { OnOk result (self.new ≡ after self.old (block_tokens block.now)) }
    {
        self.token("{")?;
        if let Some(body) = &block.body {
            self.process(body.get())?;
        }
        self.token("}")
    }

    #[cycle(process)]
    #[tactic(auto, using(crate::proofs::Spacing::after_append, crate::proofs::PrintedProcesses::if_is))]
    pub fn conditional(&mut self, conditional: &If) -> Result<(), AllocError>
        ensures { OnOk result (self.new ≡ after self.old (if_tokens conditional.now)) }
    {
        self.token("if")?;
        self.in_parens(&conditional.test)?;
        self.block(&conditional.body)?;
        self.otherwise(&conditional.otherwise)
    }

    #[cycle(process)]
    #[tactic(auto, using(crate::proofs::Spacing::after_append, crate::proofs::PrintedProcesses::no_else_shown, crate::proofs::PrintedProcesses::else_if_shown, crate::proofs::PrintedProcesses::else_shown))]
    pub fn otherwise(&mut self, otherwise: &Otherwise) -> Result<(), AllocError>
        ensures { OnOk result (self.new ≡ after self.old (otherwise_tokens otherwise.now)) }
    {
        match otherwise {
            Otherwise::Nothing => Ok(()),
            Otherwise::ElseIf(conditional) => {
                self.token("else")?;
                self.conditional(conditional.get())
            }
            Otherwise::Else(block) => {
                self.token("else")?;
                self.block(block)
            }
        }
    }

    #[cycle(process)]
    #[tactic(auto, using(crate::proofs::Spacing::after_append, crate::proofs::PrintedProcesses::input_is))]
    pub fn input(&mut self, input: &Input) -> Result<(), AllocError>
        ensures { OnOk result (self.new ≡ after self.old (input_tokens input.now)) }
    {
        self.token(input.operation.text.as_str())?;
        self.path_parens(&input.request)?;
        self.optional_reply(&input.reply)
    }

    #[cycle(process)]
    fn optional_reply(&mut self, reply: &Option<Reply>) -> Result<(), AllocError>
        ensures { OnOk result (self.new ≡ after self.old (maybe (option_map reply_tokens reply.now))) }
    {
        match reply {
            Some(reply) => self.reply(reply),
            None => Ok(()),
        }
    }

    #[cycle(process)]
    #[tactic(auto, using(crate::proofs::Spacing::after_append, crate::proofs::PrintedProcesses::reply_is))]
    pub fn reply(&mut self, reply: &Reply) -> Result<(), AllocError>
        ensures { OnOk result (self.new ≡ after self.old (reply_tokens reply.now)) }
    {
        self.path_parens(&reply.path)?;
        self.block(&reply.body)
    }

    #[cycle(process)]
    #[tactic(auto, using(crate::proofs::Spacing::after_append, crate::proofs::Spacing::after_more))]
    fn branches(&mut self, branches: &[Branch]) -> Result<(), AllocError>
        ensures { OnOk result (self.new ≡ after self.old (flat_map branch_tokens branches.now)) }
    {
        for branch in branches {
            self.branch(branch)?;
        }
        Ok(())
    }

    #[cycle(process)]
    #[tactic(auto, using(crate::proofs::Spacing::after_append, crate::proofs::PrintedProcesses::branch_is))]
    pub fn branch(&mut self, branch: &Branch) -> Result<(), AllocError>
        ensures { OnOk result (self.new ≡ after self.old (branch_tokens branch.now)) }
    {
        self.token("[")?;
        self.input(&branch.input)?;
        self.token("]")?;
        self.block(&branch.after)
    }

    #[cycle(process)]
    fn optional_answer(&mut self, answer: &Option<Answer>) -> Result<(), AllocError>
        ensures { OnOk result (self.new ≡ after self.old (maybe (option_map answer_tokens answer.now))) }
    {
        match answer {
            Some(answer) => self.answer(answer),
            None => Ok(()),
        }
    }

    #[cycle(process)]
    #[tactic(auto, using(crate::proofs::Spacing::after_append, crate::proofs::PrintedProcesses::answer_is))]
    pub fn answer(&mut self, answer: &Answer) -> Result<(), AllocError>
        ensures { OnOk result (self.new ≡ after self.old (answer_tokens answer.now)) }
    {
        self.path_parens(&answer.path)?;
        match &answer.handlers {
            Some(handlers) => self.handlers_in_brackets(handlers.as_slice()),
            None => Ok(()),
        }
    }

    #[cycle(process)]
    #[tactic(auto, using(crate::proofs::Spacing::after_append))]
    fn handlers_in_parens(&mut self, handlers: &[Handler]) -> Result<(), AllocError>
        ensures { OnOk result (self.new ≡ after self.old
            (in_parens (separated (codes ",") handler_tokens handlers.now))) }
    {
        self.token("(")?;
        self.handlers(handlers)?;
        self.token(")")
    }

    #[cycle(process)]
    #[tactic(auto, using(crate::proofs::Spacing::after_append))]
    fn handlers_in_brackets(&mut self, handlers: &[Handler]) -> Result<(), AllocError>
        ensures { OnOk result (self.new ≡ after self.old
            (in_brackets (separated (codes ",") handler_tokens handlers.now))) }
    {
        self.token("[")?;
        self.handlers(handlers)?;
        self.token("]")
    }

    #[cycle(process)]
    #[tactic(auto, using(crate::proofs::Spacing::after_append, crate::proofs::Spacing::after_more))]
    fn handlers(&mut self, handlers: &[Handler]) -> Result<(), AllocError>
        ensures { OnOk result (self.new ≡ after self.old (separated (codes ",") handler_tokens handlers.now)) }
    {
        if let [first, rest @ ..] = handlers {
            self.handler(first)?;
            for handler in rest {
                self.token(",")?;
                self.handler(handler)?;
            }
        }
        Ok(())
    }

    #[cycle(process)]
    #[tactic(auto, using(crate::proofs::Spacing::after_append, crate::proofs::PrintedProcesses::handler_is))]
    pub fn handler(&mut self, handler: &Handler) -> Result<(), AllocError>
        ensures { OnOk result (self.new ≡ after self.old (handler_tokens handler.now)) }
    {
        self.handler_key(&handler.key)?;
        self.token("=>")?;
        self.process(&handler.body)
    }
}
