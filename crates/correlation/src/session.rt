ghost use Rattle.std.specs.Prelude.{◌≡◌, ◌++◌, [], ◌∷◌, List, ℕ, Option, IfOk, OnOk, OnErr, is_some, length, option_map, take, true, false, nat_eq};
ghost use Rattle.std.specs.Option.{option_copied};
ghost use Rattle.std.specs.List.{list_any};

use jolie_trees::Root;
use std::alloc::{AllocError, Global};
use std::marker::Model;

/// Numbers of variables, which contracts see as their list.
#[derive(Drop)]
pub struct Variables {
    list: Vec<u32>,
}

impl Model for Variables {
    ghost use Rattle.std.specs.Prelude.{List, ℕ};

    ghost Value = { List ℕ };

    ghost view = { λ v. v.list.items };
}

impl Variables {
    /// The numbers of a `Vec`, which takes no memory.
    pub fn from_vec(list: Vec<u32>) -> Variables
        ensures { result ≡ list.items }
    {
        Variables { list }
    }

    pub fn as_slice(&self) -> &[u32]
        ensures { result.now ≡ self.now }
    {
        self.list.as_slice()
    }

    /// Whether a variable is one of them.
    fn has(&self, variable: u32) -> bool
        ensures { result ≡ list_any (nat_eq variable) self.now }
    {
        for number in &self.list {
            if variable == *number {
                return true;
            }
        }
        false
    }

    pub fn copied(&self) -> Result<Variables, AllocError>
        ensures { IfOk result (λ v. v ≡ self.now) }
    {
        Ok(Variables {
            list: self.list.clone()?,
        })
    }
}

/// A correlation set: its number and those of its variables.
#[derive(Drop)]
pub struct SetOf {
    pub set: u32,
    pub variables: Variables,
}

impl SetOf {
    pub fn copied(&self) -> Result<SetOf, AllocError>
        ensures { IfOk result (λ s. s ≡ self.now) }
    {
        Ok(SetOf {
            set: self.set,
            variables: self.variables.copied()?,
        })
    }
}

/// A variable and what was written into it.
#[derive(Drop)]
pub struct Written {
    pub variable: u32,
    pub value: Root,
}

/// The sets of a session, which contracts see as their list.
#[derive(Drop)]
pub struct Sets {
    list: Vec<SetOf>,
}

impl Model for Sets {
    ghost use Rattle.std.specs.Prelude.{List};
    ghost use Rattle.correlation.specs.declared.session.SetOf.{SetOf};

    ghost Value = { List SetOf };

    ghost view = { λ s. s.list.items };
}

impl Sets {
    ghost use Rattle.correlation.specs.declared.session.SetOf.{SetOf};

    pub fn as_slice(&self) -> &[SetOf]
        ensures { result.now ≡ self.now }
    {
        self.list.as_slice()
    }

    /// A copy of sets.
    pub fn copied(alloc: Global, sets: &[SetOf]) -> Result<Sets, AllocError>
        ensures { IfOk result (λ s. s ≡ sets.now) }
    {
        let mut list = Vec::new(alloc);
        for set in sets {
            list.push(set.copied()?)?;
        }
        Ok(Sets { list })
    }
}

/// What was written into the variables of a session, which contracts see as their list. Outside of this module it is
/// read as the key of a session alone.
#[derive(Drop)]
pub struct Values {
    list: Vec<Written>,
}

impl Model for Values {
    ghost use Rattle.std.specs.Prelude.{List};
    ghost use Rattle.correlation.specs.declared.session.Written.{Written};

    ghost Value = { List Written };

    ghost view = { λ v. v.list.items };
}

impl Values {
    ghost use Rattle.std.specs.Prelude.{map};
    ghost use Rattle.std.specs.declared.vec.Vec.{Vec};
    ghost use Rattle.std.specs.declared.alloc.Global.{Global};
    ghost use Rattle.jolie_trees.specs.declared.root.Root.{Root};
    ghost use Rattle.correlation.specs.declared.session.Written.{Written};
    ghost use Rattle.correlation.specs.Sessions.{all_there, value_of};

    pub fn new(alloc: Global) -> Values
        ensures { result ≡ [] }
    {
        Values {
            list: Vec::new(alloc),
        }
    }

    /// Notes a value after the others.
    pub fn push(&mut self, written: Written) -> Result<(), AllocError>
        ensures ok { OnOk result (self.new ≡ self.old ++ written ∷ []) }
        ensures err { OnErr result (self.new ≡ self.old) }
    {
        self.list.push(written)?;
        Ok(())
    }

    pub fn len(&self) -> usize
        ensures { result ≡ length self.now }
    {
        self.list.len()
    }

    /// Drops all but the first values.
    pub fn truncate(&mut self, count: usize)
        ensures { self.new ≡ take count self.old }
    {
        self.list.truncate(count)
    }

    /// What a variable has, once it is written.
    fn find(&self, variable: u32) -> Option<&Root>
        ensures { option_copied result ≡ value_of self.now variable }
    {
        for written in &self.list {
            if written.variable == variable {
                return Some(&written.value);
            }
        }
        None
    }

    /// The values of variables, where each is written.
    fn of_all(&self, alloc: Global, variables: &[u32]) -> Result<Option<Vec<Root>>, AllocError>
        ensures { IfOk result (λ k. option_map (λ (v : Vec Root Global). v.items) k
            ≡ all_there (map (value_of self.now) variables.now)) }
    {
        let mut values = Vec::new(alloc);
        for variable in variables {
            match self.find(*variable) {
                Some(value) => values.push(value.copied()?)?,
                None => return Ok(None),
            }
        }
        Ok(Some(values))
    }
}

/// A session: its sets, what its variables have, and whether it was released.
#[derive(Drop)]
pub struct Session {
    pub number: u32,
    pub sets: Sets,
    pub written: Values,
    pub released: bool,
}

/// The complete key of a session in the set of a number.
#[derive(Drop)]
pub struct Completed {
    pub set: u32,
    pub values: Vec<Root>,
}

impl Session {
    ghost use Rattle.correlation.specs.Index.{shown};
    ghost use Rattle.std.specs.Prelude.{map};
    ghost use Rattle.correlation.specs.Sessions.{all_there, are_sets, key_in, key_with, set_with, value_of};

    /// Whether a variable was written.
    pub fn has(&self, variable: u32) -> bool
        ensures { result ≡ is_some (value_of self.now.written variable) }
    {
        self.written.find(variable).is_some()
    }

    /// The key in the set that has a variable, once it is complete.
    #[tactic(auto, using(crate::proofs::Writing::key_found, crate::proofs::Writing::no_key))]
    pub(crate) fn key_with(
        &self,
        alloc: Global,
        variable: u32,
    ) -> Result<Option<Completed>, AllocError>
        requires live { self.now.released ≡ false }
        requires sets { are_sets self.now.sets ≡ true }
        ensures { IfOk result (λ k. option_map shown k ≡ key_with variable self.now) }
    {
        match self.set_with(variable) {
            Some(set) => self.key_in(alloc, set),
            None => Ok(None),
        }
    }

    /// The key in a set, once it is complete.
    fn key_in(&self, alloc: Global, set: &SetOf) -> Result<Option<Completed>, AllocError>
        ensures { IfOk result (λ k. option_map shown k
            ≡ key_in set.now.set (all_there (map (value_of self.now.written) set.now.variables))) }
    {
        match self.written.of_all(alloc, set.variables.as_slice())? {
            Some(values) => Ok(Some(Completed {
                set: set.set,
                values,
            })),
            None => Ok(None),
        }
    }

    /// The first set that has a variable.
    fn set_with(&self, variable: u32) -> Option<&SetOf>
        ensures { option_copied result ≡ set_with variable self.now.sets }
    {
        for set in self.sets.as_slice() {
            if set.variables.has(variable) {
                return Some(set);
            }
        }
        None
    }
}
