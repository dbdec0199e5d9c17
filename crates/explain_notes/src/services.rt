//! What services mention.

ghost use Rattle.std.specs.Prelude.{◌≡◌, ◌++◌, IfOk, OnOk};
ghost use Rattle.explain_notes.specs.Mentions.{around_scope};
ghost use Rattle.explain_notes.specs.Processes.{block_mentions};
ghost use Rattle.explain_notes.specs.Services.{clause_mentions, dialled_mentions, port_mentions, service_mentions};

use crate::list::Mentions;
use crate::role::Role;
use crate::sockets::is_socket;
use jolie_ast::{Block, Clause, Port, Service};
use std::alloc::{AllocError, Global};

/// What a service mentions, in the order of its text, but that the variable a request is answered by stands before what
/// the request takes.
pub fn mentions_of(alloc: Global, service: &Service) -> Result<Mentions<'_>, AllocError>
    ensures { IfOk result (λ mentions. mentions ≡ service_mentions service.now) }
{
    let mut mentions = Mentions::new(alloc);
    for clause in service.clauses.as_slice() {
        mentions.clause(clause)?;
    }
    Ok(mentions)
}

impl<'a> Mentions<'a> {
    fn clause(&mut self, clause: &'a Clause) -> Result<(), AllocError>
        ensures { OnOk result (self.new ≡ self.old ++ clause_mentions clause.now) }
    {
        match clause {
            Clause::Execution { .. } => Ok(()),
            Clause::InputPort(_) => Ok(()),
            Clause::OutputPort(port) => self.output_port(port),
            Clause::CorrelationSet { .. } => Ok(()),
            Clause::Init { body, .. } => self.block(body),
            Clause::Main { body, .. } => self.outermost(body),
        }
    }

    /// An output port: its name and its location.
    #[tactic(auto, using(crate::proofs::Lists::behind_one))]
    fn output_port(&mut self, port: &'a Port) -> Result<(), AllocError>
        ensures { OnOk result (self.new ≡ self.old ++ port_mentions port.now) }
    {
        self.add(Role::Port, &port.name)?;
        self.dialled(port)
    }

    /// The location of an output port, and its name once more where that is a socket.
    #[tactic(auto, using(crate::proofs::Lists::behind_one))]
    fn dialled(&mut self, port: &'a Port) -> Result<(), AllocError>
        ensures { OnOk result (self.new ≡ self.old ++ dialled_mentions port.now) }
    {
        self.put(Role::Dialled, port.location.at, port.location.text.as_str())?;
        if !is_socket(port.location.text.as_str()) {
            return Ok(());
        }
        self.add(Role::Elsewhere, &port.name)
    }

    /// What stands in `main`, which is the outermost scope.
    fn outermost(&mut self, body: &'a Block) -> Result<(), AllocError>
        ensures { OnOk result (self.new ≡ self.old ++ around_scope (block_mentions body.now)) }
    {
        let mut inner = self.inner();
        inner.block(body)?;
        let handled = inner.handled()?;
        self.add_scoped(&handled, &inner)
    }
}
