ghost use Rattle.std.specs.Prelude.{◌≡◌, OnOk, [], ◌∷◌, codes, flat_map};
ghost use Rattle.jolie_ast.specs.Spacing.{after, separated, with_token};
ghost use Rattle.jolie_ast.specs.PrintedExpressions.{name_tokens, quoted_token};
ghost use Rattle.jolie_ast.specs.Printed.{alias_tokens, clause_tokens, execution_token, port_tokens, protocol_tokens, service_tokens, variable_tokens};

use crate::name::{Name, Quoted};
use crate::printer::Printer;
use crate::service::{Alias, Clause, CorrelationVariable, Execution, Port, Service};
use std::alloc::AllocError;

impl Printer {
    #[tactic(auto, using(crate::proofs::Spacing::after_append))]
    pub fn service(&mut self, service: &Service) -> Result<(), AllocError>
        ensures { OnOk result (self.new ≡ after self.old (service_tokens service.now)) }
    {
        self.token("service")?;
        self.name(&service.name)?;
        self.token("{")?;
        self.clauses(service.clauses.as_slice())?;
        self.token("}")
    }

    #[tactic(auto, using(crate::proofs::Spacing::after_append, crate::proofs::Spacing::after_more))]
    fn clauses(&mut self, clauses: &[Clause]) -> Result<(), AllocError>
        ensures { OnOk result (self.new ≡ after self.old (flat_map clause_tokens clauses.now)) }
    {
        for clause in clauses {
            self.clause(clause)?;
        }
        Ok(())
    }

    #[tactic(auto, using(crate::proofs::Spacing::after_append))]
    fn clause(&mut self, clause: &Clause) -> Result<(), AllocError>
        ensures { OnOk result (self.new ≡ after self.old (clause_tokens clause.now)) }
    {
        match clause {
            Clause::Execution { execution, .. } => {
                self.token("execution")?;
                self.token(":")?;
                self.execution(*execution)
            }
            Clause::InputPort(port) => {
                self.token("inputPort")?;
                self.port(port)
            }
            Clause::OutputPort(port) => {
                self.token("outputPort")?;
                self.port(port)
            }
            Clause::CorrelationSet { variables, .. } => {
                self.token("cset")?;
                self.token("{")?;
                self.variables(variables.as_slice())?;
                self.token("}")
            }
            Clause::Init { body, .. } => {
                self.token("init")?;
                self.block(body)
            }
            Clause::Main { body, .. } => {
                self.token("main")?;
                self.block(body)
            }
        }
    }

    fn execution(&mut self, execution: Execution) -> Result<(), AllocError>
        ensures { OnOk result (self.new ≡ with_token self.old (execution_token execution)) }
    {
        self.token(match execution {
            Execution::Concurrent => "concurrent",
            Execution::Single => "single",
        })
    }

    /// A port behind its first word.
    #[tactic(auto, using(crate::proofs::Spacing::after_append))]
    fn port(&mut self, port: &Port) -> Result<(), AllocError>
        ensures { OnOk result (self.new ≡ after self.old (port_tokens port.now)) }
    {
        self.name(&port.name)?;
        self.token("{")?;
        self.location(&port.location)?;
        self.protocol(&port.protocol)?;
        self.interfaces(port.interfaces.as_slice())?;
        self.token("}")
    }

    fn location(&mut self, location: &Quoted) -> Result<(), AllocError>
        ensures { OnOk result (self.new ≡ after self.old
            (codes "location" ∷ (codes ":" ∷ (quoted_token location.now.text ∷ [])))) }
    {
        self.token("location")?;
        self.token(":")?;
        self.quoted(&location.text)
    }

    fn protocol(&mut self, protocol: &Option<Name>) -> Result<(), AllocError>
        ensures { OnOk result (self.new ≡ after self.old (protocol_tokens protocol.now)) }
    {
        match protocol {
            Some(name) => {
                self.token("protocol")?;
                self.token(":")?;
                self.name(name)
            }
            None => Ok(()),
        }
    }

    fn interfaces(&mut self, names: &[Name]) -> Result<(), AllocError>
        ensures { OnOk result (self.new ≡ after self.old
            (codes "interfaces" ∷ (codes ":" ∷ separated (codes ",") name_tokens names.now))) }
    {
        self.token("interfaces")?;
        self.token(":")?;
        self.names(names)
    }

    #[tactic(auto, using(crate::proofs::Spacing::after_append, crate::proofs::Spacing::after_more))]
    fn names(&mut self, names: &[Name]) -> Result<(), AllocError>
        ensures { OnOk result (self.new ≡ after self.old (separated (codes ",") name_tokens names.now)) }
    {
        if let [first, rest @ ..] = names {
            self.name(first)?;
            for name in rest {
                self.token(",")?;
                self.name(name)?;
            }
        }
        Ok(())
    }

    #[tactic(auto, using(crate::proofs::Spacing::after_append, crate::proofs::Spacing::after_more))]
    fn variables(&mut self, variables: &[CorrelationVariable]) -> Result<(), AllocError>
        ensures { OnOk result (self.new ≡ after self.old (separated (codes ",") variable_tokens variables.now)) }
    {
        if let [first, rest @ ..] = variables {
            self.variable(first)?;
            for variable in rest {
                self.token(",")?;
                self.variable(variable)?;
            }
        }
        Ok(())
    }

    #[tactic(auto, using(crate::proofs::Spacing::after_append))]
    fn variable(&mut self, variable: &CorrelationVariable) -> Result<(), AllocError>
        ensures { OnOk result (self.new ≡ after self.old (variable_tokens variable.now)) }
    {
        self.name(&variable.name)?;
        self.token(":")?;
        self.aliases(variable.aliases.as_slice())
    }

    #[tactic(auto, using(crate::proofs::Spacing::after_append, crate::proofs::Spacing::after_more))]
    fn aliases(&mut self, aliases: &[Alias]) -> Result<(), AllocError>
        ensures { OnOk result (self.new ≡ after self.old (flat_map alias_tokens aliases.now)) }
    {
        for alias in aliases {
            self.alias(alias)?;
        }
        Ok(())
    }

    #[tactic(auto, using(crate::proofs::Spacing::after_append))]
    fn alias(&mut self, alias: &Alias) -> Result<(), AllocError>
        ensures { OnOk result (self.new ≡ after self.old (alias_tokens alias.now)) }
    {
        self.name(&alias.ty)?;
        self.token(".")?;
        self.name(&alias.first)?;
        self.further_fields(alias.rest.as_slice())
    }

    /// Fields, each behind a dot.
    #[tactic(auto, using(crate::proofs::Spacing::after_append, crate::proofs::Spacing::after_more))]
    fn further_fields(&mut self, fields: &[Name]) -> Result<(), AllocError>
        ensures { OnOk result (self.new ≡ after self.old
            (flat_map (λ name. codes "." ∷ name_tokens name) fields.now)) }
    {
        for field in fields {
            self.token(".")?;
            self.name(field)?;
        }
        Ok(())
    }
}
