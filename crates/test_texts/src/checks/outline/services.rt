//! The clauses of a service as words, but for its behaviours.

use crate::checks::outline::Outline;
use behaviour_tree::{Alias, CorrelationSet, Execution, Port, SetVariable};

impl Outline {
    pub(super) fn execution(&mut self, execution: Execution) {
        self.word(match execution {
            Execution::Concurrent => "concurrent",
            Execution::Single => "single",
        })
    }

    pub(super) fn ports(&mut self, ports: &Vec<Port>) {
        for port in ports {
            self.port(port);
        }
    }

    fn port(&mut self, port: &Port) {
        self.word("(");
        self.word(if port.input { "in" } else { "out" });
        self.word(port.name.as_str());
        self.word(port.location.as_str());
        self.numbers(&port.interfaces);
        self.word(")");
    }

    pub(super) fn sets(&mut self, sets: &Vec<CorrelationSet>) {
        for set in sets {
            self.set(set);
        }
    }

    fn set(&mut self, set: &CorrelationSet) {
        self.word("(");
        for variable in &set.variables {
            self.variable(variable);
        }
        self.word(")");
    }

    fn variable(&mut self, variable: &SetVariable) {
        self.word("(");
        self.word(variable.name.as_str());
        for alias in &variable.aliases {
            self.alias(alias);
        }
        self.word(")");
    }

    fn alias(&mut self, alias: &Alias) {
        self.number(alias.ty);
        for name in &alias.path {
            self.dotted(name);
        }
    }
}
