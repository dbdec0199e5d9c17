ghost use Rattle.std.specs.Prelude.{◌≡◌, IfOk};
ghost use Rattle.behaviour_tree.specs.Data.{behaviour_of};
ghost use Rattle.behaviour_tree.specs.PartsView.{service_view};
ghost use Rattle.session_calculus.specs.After as spec;
ghost use Rattle.session_calculus.specs.Names.{main};
ghost use Rattle.session_calculus.specs.Start as starts;
ghost use Rattle.session_calculus.specs.Tables.{empty};
ghost use Rattle.handler_table.specs.View.{table_view};
ghost use Rattle.session_forms.specs.Begins.{begun_view};
ghost use Rattle.session_forms.specs.View.{term_view};
ghost use Rattle.term_session.specs.Configs.{config_view};

use behaviour_tree::{Behaviour, Service, standard};
use handler_table::Table;
use jolie_trees::Tree;
use session_forms::{Begun, Installed, ScopeState, Term, begin, begin_both, boxed, normalize};
use session_values::Memory;
use std::alloc::{AllocError, Global};

/// What a session is at a moment.
#[derive(Drop)]
pub struct Config {
    pub form: Box<Term>,
    pub memory: Memory,
    pub ended: bool,
}

/// A scope main without handlers, as it stands around nothing: no scope stands around the whole of a session.
pub fn outermost(alloc: Global) -> Installed
    ensures scope { result.scope ≡ main }
    ensures table { table_view result.table ≡ empty }
{
    Installed {
        scope: standard::MAIN,
        table: Table::empty(alloc),
    }
}

/// Where a session of a service begins: its scope main in strand 0, with an empty store.
pub fn first_config(alloc: Global, service: &Service) -> Result<Config, AllocError>
    ensures { IfOk result (λ c. config_view c ≡ spec.first_config (behaviour_of (service_view service.now))) }
{
    let Begun { form: body, next } = begun(alloc, service)?;
    let installed = Box::new(alloc, outermost(alloc))?;
    let state = ScopeState::Live;
    let form = boxed(
        alloc,
        Term::Scope {
            installed,
            body,
            state,
        },
    )?;
    let store = Tree::void(alloc);
    Ok(Config {
        form,
        memory: Memory {
            store,
            nodes: 1,
            next,
            call: 0,
        },
        ended: false,
    })
}

/// How a service begins: its init, followed by its main. Where nothing is to be done first, its main begins at once.
fn begun(alloc: Global, service: &Service) -> Result<Begun, AllocError>
    ensures { IfOk result (λ b. begun_view b ≡ starts.begin (behaviour_of (service_view service.now)) 1) }
{
    match &service.init {
        Behaviour::Nothing => {
            let begun = begin(alloc, &service.main, 1)?;
            Ok(begun)
        }
        _ => {
            let begun = begin_both(alloc, &service.init, &service.main, 1)?;
            Ok(begun)
        }
    }
}

impl Config {
    /// Whether nothing is left to do.
    pub fn is_finished(&self) -> bool
        ensures { result ≡ spec.is_finished (config_view self.now).form }
    {
        match &*self.form {
            Term::Done => true,
            Term::Scope { body, state, .. } => match state {
                ScopeState::Live => body.is_done(),
                ScopeState::Caught(_) | ScopeState::Term => false,
                ScopeState::Last | ScopeState::Zombie => false,
            },
            Term::Place(_) | Term::Thrown(_) | Term::Seq { .. } | Term::Par(_) => false,
            Term::Exec { .. } | Term::Fail { .. } | Term::Prot(_) => false,
            Term::Wait(_) | Term::DeadWait(_) => false,
        }
    }

    /// Brings the form to normal form.
    pub fn settle(&mut self, alloc: Global) -> Result<(), AllocError>
        ensures { IfOk result
            (λ _. config_view self.new ≡ spec.with_form (config_view self.old) (config_view self.old).form
            (config_view self.old).next) }
    {
        self.memory.next = normalize(alloc, &mut self.form, self.memory.next)?;
        Ok(())
    }
}
