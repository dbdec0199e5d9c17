ghost use Rattle.std.specs.Prelude.{◌≡◌, true};
ghost use Rattle.handler_table.specs.Rows.{are_scopes, views_of};
ghost use Rattle.handler_table.specs.declared.table.InstallError.TheVariants.{Memory};

use crate::fill::filled;
use crate::limits::is_allowed;
use crate::row::Row;
use behaviour_tree::{Behaviour, Handler, HandlerKey, Handlers};
use std::alloc::{AllocError, Global};
use thiserror::Error;

/// Why handlers were not installed.
#[derive(Debug, Drop, Error)]
pub enum InstallError {
    #[error("a handler is too large")]
    TooLarge,
    #[error("out of memory")]
    Memory(AllocError),
}

impl From<AllocError> for InstallError {
    ghost from_gives = { λ a e. e ≡ Memory a };

    fn from(error: AllocError) -> InstallError {
        InstallError::Memory(error)
    }
}

/// The handlers of a scope: behaviours under the names of faults and under the names of scopes. Of a key of `faults`
/// the number alone is read: nothing says that it is one of a fault.
#[derive(Drop)]
pub struct Table {
    faults: Row,
    scopes: Row,
    pub ghost keys: { are_scopes (views_of scopes.list.items) ≡ true },
}

impl Table {
    ghost use Rattle.std.specs.Prelude.{◌+◌, ◌<◌, ◌≤◌, length, map, option_map, IfErr, IfOk, OnErr, OnOk};
    ghost use Rattle.std.specs.Option.{option_copied};
    ghost use Rattle.std.specs.Vec.{vec_len};
    ghost use Rattle.behaviour_tree.specs.View.{behaviour_view, handler_view, handlers_view};
    ghost use Rattle.behaviour_tree.specs.declared.behaviour.Handlers.{out-Handlers};
    ghost use Rattle.session_calculus.specs.Tables as spec;
    ghost use Rattle.handler_table.specs.Entries.{are_of_scopes, entries_in, is_scope, number_of};
    ghost use Rattle.handler_table.specs.Filled.{taken, with_all};
    ghost use Rattle.handler_table.specs.Refusals.{TellsWhether};
    ghost use Rattle.handler_table.specs.View.{room, room_of, table_view};

    /// A table without a handler.
    pub fn empty(alloc: Global) -> Table
        ensures { table_view result ≡ spec.empty }
    {
        Table {
            faults: Row::new(alloc),
            scopes: Row::new(alloc),
        }
    }

    /// Puts handlers over those of the scope, with what stood under the same key in place of each cH.
    pub fn install(&mut self, handlers: &Handlers, scope: u32) -> Result<(), InstallError>
        ensures installed { OnOk result (table_view self.new
            ≡ spec.plus scope (table_view self.old) (handlers_view handlers.now)) }
        ensures fit { OnOk result (spec.fits scope (table_view self.old) (handlers_view handlers.now) ≡ true) }
        ensures refused { IfErr result (TellsWhether
            (spec.fits scope (table_view self.old) (handlers_view handlers.now))) }
        ensures unchanged { OnErr result (table_view self.new ≡ table_view self.old) }
    {
        if !self.fits(handlers, scope) {
            return Err(InstallError::TooLarge);
        }
        let taken = self.taken_in(handlers, scope)?;
        self.faults.reserve(taken.len())?;
        self.scopes.reserve(taken.len())?;
        self.put_all(taken, scope);
        Ok(())
    }

    /// Whether handlers fit the table: each is within the limits once it is filled.
    pub fn fits(&self, handlers: &Handlers, scope: u32) -> bool
        ensures { result ≡ spec.fits scope (table_view self.now) (handlers_view handlers.now) }
    {
        for handler in &handlers.list {
            if !is_allowed(&handler.body, self.under(scope, handler.key)) {
                return false;
            }
        }
        true
    }

    /// The handler of a fault.
    pub fn fault(&self, name: u32) -> Option<&Behaviour>
        ensures { option_map behaviour_view (option_copied result) ≡ spec.entry name (table_view self.now).faults }
    {
        self.faults.find(name)
    }

    /// The handler under the name of a scope.
    pub fn scope(&self, name: u32) -> Option<&Behaviour>
        ensures { option_map behaviour_view (option_copied result) ≡ spec.entry name (table_view self.now).scopes }
    {
        self.scopes.find(name)
    }

    /// Takes out the handler of a fault.
    pub fn drop_fault(&mut self, name: u32) -> Option<Behaviour>
        ensures value { option_map behaviour_view result ≡ spec.entry name (table_view self.old).faults }
        ensures table { table_view self.new
            ≡ record (table_view self.old) { faults = spec.without name (table_view self.old).faults } }
        ensures room { room self.old ≤ room self.new }
    {
        self.faults.take(name)
    }

    /// Takes out the handler under the name of a scope.
    pub fn spend(&mut self, scope: u32) -> Option<Behaviour>
        ensures value { option_map behaviour_view result ≡ spec.entry scope (table_view self.old).scopes }
        ensures table { table_view self.new
            ≡ record (table_view self.old) { scopes = spec.without scope (table_view self.old).scopes } }
        ensures room { room self.old ≤ room self.new }
    {
        self.scopes.take(scope)
    }

    /// What passes to the scope around once this one ended.
    pub fn completed(self) -> Handlers
        ensures entries { entries_in (handlers_view result) ≡ (table_view self).scopes }
        ensures keys { are_of_scopes (handlers_view result) ≡ true }
    {
        Handlers {
            list: self.scopes.list,
        }
    }

    /// Makes room for further handlers under the names of scopes.
    pub fn reserve(&mut self, more: u32) -> Result<(), AllocError>
        ensures room { OnOk result (more ≤ room self.new) }
        ensures kept { room self.old ≤ room self.new }
        ensures same { table_view self.new ≡ table_view self.old }
    {
        self.scopes.reserve(more as usize)
    }

    /// Makes room for what passed from a scope that ended.
    #[tactic(auto, using(crate::proofs::Counted::entries_counted))]
    pub fn reserve_for(&mut self, completed: &Handlers) -> Result<(), AllocError>
        ensures room { OnOk result (length (entries_in (handlers_view completed.now)) ≤ room self.new) }
        ensures kept { room self.old ≤ room self.new }
        ensures same { table_view self.new ≡ table_view self.old }
    {
        self.scopes.reserve(completed.list.len())
    }

    /// Puts what passed from a scope that ended over the handlers under the names of scopes. Of two under one name the
    /// first stands.
    pub fn merge(&mut self, completed: Handlers)
        requires room { length (entries_in (handlers_view completed)) ≤ room self.old }
        requires keys { are_of_scopes (handlers_view completed) ≡ true }
        ensures { table_view self.new ≡ record
            (table_view self.old) {
              scopes = spec.over (entries_in (handlers_view completed))
                  (table_view self.old).scopes;
            } }
    {
        let mut list = completed.list;
        while let Some(handler) = list.pop() {
            self.put_scope(handler);
        }
    }

    /// What the table has under a key.
    fn under(&self, scope: u32, key: HandlerKey) -> Option<&Behaviour>
        ensures { option_map behaviour_view (option_copied result) ≡ spec.under scope key (table_view self.now) }
    {
        match key {
            HandlerKey::This => self.scopes.find(scope),
            HandlerKey::Fault(name) => self.faults.find(name),
            HandlerKey::Scope(name) => self.scopes.find(name),
        }
    }

    /// Handlers as the table takes them.
    fn taken_in(&self, handlers: &Handlers, scope: u32) -> Result<Vec<Handler>, AllocError>
        ensures { IfOk result
            (λ v. map handler_view v.items
            ≡ map (taken scope (table_view self.now)) (map handler_view (out-Handlers handlers.now).list.items)) }
    {
        let mut list = Vec::new(*handlers.list.allocator());
        for handler in &handlers.list {
            list.push(Handler {
                key: handler.key,
                body: filled(&handler.body, self.under(scope, handler.key))?,
            })?;
        }
        Ok(list)
    }

    /// Puts one handler after the other.
    fn put_all(&mut self, handlers: Vec<Handler>, scope: u32)
        requires faults { length handlers.items ≤ room_of self.old.faults }
        requires scopes { length handlers.items ≤ room_of self.old.scopes }
        ensures { table_view self.new ≡ with_all scope (map handler_view handlers.items) (table_view self.old) }
    {
        for handler in handlers {
            self.put(handler, scope);
        }
    }

    /// Puts a handler under its key.
    fn put(&mut self, handler: Handler, scope: u32)
        requires faults { 0 < room_of self.old.faults }
        requires scopes { 0 < room_of self.old.scopes }
        ensures table { table_view self.new
            ≡ spec.with_handler scope (handler_view handler).key (handler_view handler).body (table_view self.old) }
        ensures faults_room { room_of self.old.faults ≤ room_of self.new.faults + 1 }
        ensures scopes_room { room_of self.old.scopes ≤ room_of self.new.scopes + 1 }
    {
        let Handler { key, body } = handler;
        match key {
            HandlerKey::This => self.put_scope(Handler {
                key: HandlerKey::Scope(scope),
                body,
            }),
            HandlerKey::Fault(_) => self.faults.put(Handler { key, body }),
            HandlerKey::Scope(_) => self.put_scope(Handler { key, body }),
        }
    }

    /// Puts a handler under the name of a scope.
    fn put_scope(&mut self, handler: Handler)
        requires key { is_scope (handler_view handler).key ≡ true }
        requires room { 0 < room_of self.old.scopes }
        ensures table { table_view self.new
            ≡ record (table_view self.old) {
              scopes = spec.with (number_of (handler_view handler).key)
                  (handler_view handler).body (table_view self.old).scopes;
            } }
        ensures faults_room { room_of self.new.faults ≡ room_of self.old.faults }
        ensures scopes_room { room_of self.old.scopes ≤ room_of self.new.scopes + 1 }
    {
        self.scopes.put(handler);
    }
}
