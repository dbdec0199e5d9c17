//! Behaviours as words.

use crate::checks::outline::Outline;
use behaviour_tree::{Behaviour, Branch, Handler, HandlerKey, Handlers, PathExpr, ReplyPart};

impl Outline {
    /// A path that may be left out.
    fn target(&mut self, target: &Option<PathExpr>) {
        match target {
            Some(path) => self.path(path),
            None => self.word("-"),
        }
    }

    #[cycle(behaviour)]
    pub(super) fn behaviour(&mut self, behaviour: &Behaviour) {
        match behaviour {
            Behaviour::Nothing => self.word("nothing"),
            Behaviour::InnerHandler => self.word("inner"),
            Behaviour::Assign { path, value } => {
                self.word("( assign");
                self.path(path);
                self.expr(value);
                self.word(")");
            }
            Behaviour::Undef { path } => {
                self.word("( undef");
                self.path(path);
                self.word(")");
            }
            Behaviour::Copy { path, value } => {
                self.word("( copy");
                self.path(path);
                self.expr(value);
                self.word(")");
            }
            Behaviour::Bind { variable, value } => {
                self.word("( bind");
                self.number(*variable);
                self.expr(value);
                self.word(")");
            }
            Behaviour::Sequence(members) => {
                self.word("( sequence");
                self.behaviours(members);
                self.word(")");
            }
            Behaviour::Parallel(members) => {
                self.word("( parallel");
                self.behaviours(members);
                self.word(")");
            }
            Behaviour::If { test, then, other } => {
                self.word("( if");
                self.expr(test);
                self.behaviour(then);
                self.behaviour(other);
                self.word(")");
            }
            Behaviour::While { test, body } => {
                self.word("( while");
                self.expr(test);
                self.behaviour(body);
                self.word(")");
            }
            Behaviour::Choice(branches) => {
                self.word("( choice");
                self.branches(branches);
                self.word(")");
            }
            Behaviour::Notify { port, op, value } => {
                self.word("( notify");
                self.number(*port);
                self.number(*op);
                self.expr(value);
                self.word(")");
            }
            Behaviour::Solicit {
                port,
                op,
                value,
                target,
                handlers,
            } => {
                self.word("( solicit");
                self.number(*port);
                self.number(*op);
                self.expr(value);
                self.target(target);
                self.handlers(handlers);
                self.word(")");
            }
            Behaviour::Install(handlers) => {
                self.word("( install");
                self.handlers(handlers);
                self.word(")");
            }
            Behaviour::Throw { fault, value } => {
                self.word("( throw");
                self.number(*fault);
                self.expr(value);
                self.word(")");
            }
            Behaviour::Comp(scope) => {
                self.word("( comp");
                self.number(*scope);
                self.word(")");
            }
            Behaviour::Scope { name, body } => {
                self.word("( scope");
                self.number(*name);
                self.behaviour(body);
                self.word(")");
            }
            Behaviour::Block(body) => {
                self.word("( block");
                self.behaviour(body);
                self.word(")");
            }
        }
    }

    #[cycle(behaviour)]
    fn behaviours(&mut self, behaviours: &Vec<Behaviour>) {
        for behaviour in behaviours {
            self.behaviour(behaviour);
        }
    }

    #[cycle(behaviour)]
    fn branches(&mut self, branches: &Vec<Branch>) {
        for branch in branches {
            self.branch(branch);
        }
    }

    #[cycle(behaviour)]
    fn branch(&mut self, branch: &Branch) {
        self.word("(");
        self.number(branch.op);
        self.target(&branch.target);
        match &branch.reply {
            Some(reply) => self.reply(reply),
            None => {}
        }
        self.word("after");
        self.behaviour(&branch.after);
        self.word(")");
    }

    #[cycle(behaviour)]
    fn reply(&mut self, reply: &ReplyPart) {
        self.word("reply");
        self.target(&reply.path);
        self.behaviour(&reply.body);
    }

    #[cycle(behaviour)]
    fn handlers(&mut self, handlers: &Handlers) {
        self.word("[");
        for handler in &handlers.list {
            self.handler(handler);
        }
        self.word("]");
    }

    #[cycle(behaviour)]
    fn handler(&mut self, handler: &Handler) {
        self.key(handler.key);
        self.behaviour(&handler.body);
    }

    fn key(&mut self, key: HandlerKey) {
        match key {
            HandlerKey::This => self.word("this"),
            HandlerKey::Fault(name) => {
                self.word("fault");
                self.number(name);
            }
            HandlerKey::Scope(name) => {
                self.word("scope");
                self.number(name);
            }
        }
    }
}
