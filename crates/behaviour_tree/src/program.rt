ghost use Rattle.std.specs.Prelude.{◌≡◌, true};
ghost use Rattle.std.specs.Arc.{arc_value};
ghost use Rattle.behaviour_tree.specs.PartsSeen.{parts_view};
ghost use Rattle.behaviour_tree.specs.WellFormed.{is_well_formed};

use crate::behaviour::Behaviour;
use crate::types::TypeDef;
use jolie_trees::Text;
use std::alloc::{AllocError, Global};
use std::sync::Arc;

/// A fault that an operation may answer, and the type of its data.
#[derive(Drop)]
pub struct Throws {
    pub fault: u32,
    pub ty: TypeDef,
}

/// An operation. A one-way operation has no response.
#[derive(Drop)]
pub struct Operation {
    pub name: Text,
    pub request: TypeDef,
    pub response: Option<TypeDef>,
    pub throws: Vec<Throws>,
}

/// An interface.
#[derive(Drop)]
pub struct Interface {
    pub name: Text,
    pub operations: Vec<Operation>,
}

/// A port, and its interfaces by number.
#[derive(Drop)]
pub struct Port {
    pub name: Text,
    pub input: bool,
    pub location: Text,
    pub interfaces: Vec<u32>,
}

/// Where a message of a type has the value of a correlation variable.
#[derive(Drop)]
pub struct Alias {
    pub ty: u32,
    pub path: Vec<Text>,
}

/// A correlation variable.
#[derive(Drop)]
pub struct SetVariable {
    pub name: Text,
    pub aliases: Vec<Alias>,
}

/// A correlation set.
#[derive(Drop)]
pub struct CorrelationSet {
    pub variables: Vec<SetVariable>,
}

/// How a service runs its sessions.
#[derive(Clone, Copy, Debug, PartialEq, Eq)]
pub enum Execution {
    Concurrent,
    Single,
}

/// A service.
#[derive(Drop)]
pub struct Service {
    pub name: Text,
    pub execution: Execution,
    pub ports: Vec<Port>,
    pub sets: Vec<CorrelationSet>,
    pub init: Behaviour,
    pub main: Behaviour,
}

/// What a program consists of. Types, interfaces and services are named by their places, and
/// faults and scopes by their places in `names`.
#[derive(Drop)]
pub struct Parts {
    pub types: Vec<TypeDef>,
    pub interfaces: Vec<Interface>,
    pub services: Vec<Service>,
    pub names: Vec<Text>,
}

/// A checked program, whose copies share its parts.
#[derive(Drop)]
pub struct Program {
    parts: Arc<Parts>,
    pub ghost well_formed: { is_well_formed (parts_view (arc_value parts)) ≡ true },
}

impl Program {
    ghost use Rattle.std.specs.Prelude.{◌<◌, ◌^◌, IfOk, length};
    ghost use Rattle.behaviour_tree.specs.FormedNumbers.{are_numbered};
    ghost use Rattle.behaviour_tree.specs.PartsView.{parts_of, shared_by};

    /// A program of well-formed parts.
    pub fn new(alloc: Global, parts: Parts) -> Result<Program, AllocError>
        requires { is_well_formed (parts_view parts) ≡ true }
        ensures { IfOk result (λ program. parts_of program ≡ parts_view parts) }
    {
        let parts = Arc::new(alloc, parts)?;
        Ok(Program { parts })
    }

    pub fn parts(&self) -> &Parts
        ensures shared { result.now ≡ shared_by self.now }
        ensures parts { parts_view result.now ≡ parts_of self.now }
        ensures well_formed { is_well_formed (parts_of self.now) ≡ true }
    {
        &self.parts
    }

    /// The names of faults and scopes, each of which has a number.
    #[tactic(auto, using(crate::proofs::FewEnough::few_names))]
    pub fn names(&self) -> &[Text]
        ensures names { result.now ≡ (parts_of self.now).names }
        ensures few { length result.now < 2 ^ 32 }
    {
        self.parts().names.as_slice()
    }

    /// The services. Each of them has a number, and so has all that they have.
    #[tactic(auto, using(crate::proofs::FewEnough::few_services))]
    pub fn services(&self) -> &[Service]
        ensures shared { result.now ≡ (shared_by self.now).services.items }
        ensures few { length result.now < 2 ^ 32 }
        ensures numbered { are_numbered (parts_of self.now) ≡ true }
    {
        self.parts().services.as_slice()
    }

    /// The same program once more, which shares its parts.
    pub fn again(&self) -> Result<Program, AllocError>
        ensures shared { IfOk result (λ program. shared_by program ≡ shared_by self.now) }
        ensures parts { IfOk result (λ program. parts_of program ≡ parts_of self.now) }
    {
        let parts = Arc::try_clone(&self.parts)?;
        Ok(Program { parts })
    }
}
