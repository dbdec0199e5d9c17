ghost use Rattle.std.specs.Prelude.{◌≡◌, [], ◌∷◌, ◌++◌, ◌<◌, IfOk, Some, is_some, length, map, slice_get};
ghost use Rattle.std.specs.Option.{option_copied};
ghost use Rattle.jolie_ast.specs.declared.interface.Interface.{Interface};
ghost use Rattle.jolie_ast.specs.declared.types.TypeDefinition.{TypeDefinition};
ghost use Rattle.check_base.specs.Files.{interface_named, type_named};

use crate::names::Names;
use jolie_ast::{Interface, TypeDefinition};
use std::alloc::{AllocError, Global};
use std::marker::Model;

/// The types of a file in their order, each found by its name.
#[derive(Drop)]
pub struct Types<'a> {
    definitions: Vec<&'a TypeDefinition>,
    names: Names<'a>,
}

impl<'a> Model for Types<'a> {
    ghost use Rattle.std.specs.Prelude.{◌≡◌, List, map};
    ghost use Rattle.std.specs.Coded.{codes};
    ghost use Rattle.jolie_ast.specs.contracts.types.TypeDefinition as definition;
    ghost use Rattle.jolie_ast.specs.declared.types.TypeDefinition.{TypeDefinition};

    ghost Value = { List TypeDefinition };

    ghost coded = { Prim.hlevel (codes, definition.the_row.coded) };

    ghost view = { λ t. map (λ d. d.now) t.definitions.items };

    ghost invariant = { λ t. t.names ≡ map (λ (d : TypeDefinition). d.name.text) (map (λ d. d.now) t.definitions.items) };
}

impl<'a> Types<'a> {
    pub fn new(alloc: Global) -> Types<'a>
        ensures { result ≡ [] }
    {
        Types {
            definitions: Vec::new(alloc),
            names: Names::new(alloc),
        }
    }

    pub fn len(&self) -> usize
        ensures { result ≡ length self.now }
    {
        self.definitions.len()
    }

    /// The names in order.
    pub fn names(&self) -> &Names<'a>
        ensures { result.now ≡ map (λ (d : TypeDefinition). d.name.text) self.now }
    {
        &self.names
    }

    /// The type at a place.
    pub fn at(&self, place: usize) -> &'a TypeDefinition
        requires { place < length self.now }
        ensures { slice_get self.now place ≡ Some result.now }
    {
        self.definitions[place]
    }

    /// The first type of a name.
    pub fn get(&self, name: &str) -> Option<&'a TypeDefinition>
        ensures { option_copied result ≡ type_named self.now name.now }
    {
        match self.names.place(name) {
            Some(place) => Some(self.definitions[place]),
            None => None,
        }
    }

    /// Whether there is a type of a name.
    pub fn has(&self, name: &str) -> bool
        ensures { result ≡ is_some (type_named self.now name.now) }
    {
        self.get(name).is_some()
    }

    /// The types with one more after them.
    #[tactic(auto, using(crate::proofs::Found::references_more))]
    pub fn with(self, definition: &'a TypeDefinition) -> Result<Types<'a>, AllocError>
        ensures { IfOk result (λ types. types ≡ self.entry ++ definition.now ∷ []) }
    {
        let Types {
            mut definitions,
            mut names,
        } = self;
        names.add(definition.name.text.as_str())?;
        definitions.push(definition)?;
        Ok(Types { definitions, names })
    }
}

/// The interfaces of a file in their order, each found by its name.
#[derive(Drop)]
pub struct Interfaces<'a> {
    definitions: Vec<&'a Interface>,
    names: Names<'a>,
}

impl<'a> Model for Interfaces<'a> {
    ghost use Rattle.std.specs.Prelude.{◌≡◌, List, map};
    ghost use Rattle.std.specs.Coded.{codes};
    ghost use Rattle.jolie_ast.specs.contracts.interface.Interface as definition;
    ghost use Rattle.jolie_ast.specs.declared.interface.Interface.{Interface};

    ghost Value = { List Interface };

    ghost coded = { Prim.hlevel (codes, definition.the_row.coded) };

    ghost view = { λ t. map (λ d. d.now) t.definitions.items };

    ghost invariant = { λ t. t.names ≡ map (λ (d : Interface). d.name.text) (map (λ d. d.now) t.definitions.items) };
}

impl<'a> Interfaces<'a> {
    pub fn new(alloc: Global) -> Interfaces<'a>
        ensures { result ≡ [] }
    {
        Interfaces {
            definitions: Vec::new(alloc),
            names: Names::new(alloc),
        }
    }

    /// The names in order.
    pub fn names(&self) -> &Names<'a>
        ensures { result.now ≡ map (λ (d : Interface). d.name.text) self.now }
    {
        &self.names
    }

    /// The first interface of a name.
    pub fn get(&self, name: &str) -> Option<&'a Interface>
        ensures { option_copied result ≡ interface_named self.now name.now }
    {
        match self.names.place(name) {
            Some(place) => Some(self.definitions[place]),
            None => None,
        }
    }

    /// Whether there is an interface of a name.
    pub fn has(&self, name: &str) -> bool
        ensures { result ≡ is_some (interface_named self.now name.now) }
    {
        self.get(name).is_some()
    }

    /// The interfaces with one more after them.
    #[tactic(auto, using(crate::proofs::Found::references_more))]
    pub fn with(self, definition: &'a Interface) -> Result<Interfaces<'a>, AllocError>
        ensures { IfOk result (λ interfaces. interfaces ≡ self.entry ++ definition.now ∷ []) }
    {
        let Interfaces {
            mut definitions,
            mut names,
        } = self;
        names.add(definition.name.text.as_str())?;
        definitions.push(definition)?;
        Ok(Interfaces { definitions, names })
    }
}
