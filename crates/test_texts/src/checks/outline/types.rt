//! Types and interfaces as words.

use crate::checks::outline::Outline;
use behaviour_tree::{Field, Interface, Operation, RootKind, Throws, TypeDef};

impl Outline {
    pub(super) fn types(&mut self, types: &Vec<TypeDef>) {
        for ty in types {
            self.word("(");
            self.ty(ty);
            self.word(")");
        }
    }

    #[cycle(types)]
    fn ty(&mut self, ty: &TypeDef) {
        match ty {
            TypeDef::Plain { kind, fields } => {
                self.kind(*kind);
                self.fields(fields);
            }
            TypeDef::Named(number) => {
                self.word("type");
                self.number(*number);
            }
            TypeDef::Undefined => self.word("undefined"),
        }
    }

    fn kind(&mut self, kind: RootKind) {
        self.word(match kind {
            RootKind::Void => "void",
            RootKind::Bool => "bool",
            RootKind::Int => "int",
            RootKind::Long => "long",
            RootKind::Text => "string",
            RootKind::Any => "any",
        })
    }

    #[cycle(types)]
    fn fields(&mut self, fields: &Vec<Field>) {
        for field in fields {
            self.field(field);
        }
    }

    #[cycle(types)]
    fn field(&mut self, field: &Field) {
        self.word("(");
        self.word(field.name.as_str());
        self.number(field.least);
        match field.most {
            Some(most) => self.number(most),
            None => self.word("*"),
        }
        self.ty(&field.ty);
        self.word(")");
    }

    pub(super) fn interfaces(&mut self, interfaces: &Vec<Interface>) {
        for interface in interfaces {
            self.interface(interface);
        }
    }

    fn interface(&mut self, interface: &Interface) {
        self.word("(");
        self.word(interface.name.as_str());
        for operation in &interface.operations {
            self.operation(operation);
        }
        self.word(")");
    }

    fn operation(&mut self, operation: &Operation) {
        self.word("(");
        self.word(operation.name.as_str());
        self.ty(&operation.request);
        match &operation.response {
            Some(ty) => {
                self.word("gives");
                self.ty(ty);
            }
            None => {}
        }
        for throws in &operation.throws {
            self.throws(throws);
        }
        self.word(")");
    }

    fn throws(&mut self, throws: &Throws) {
        self.word("throws");
        self.number(throws.fault);
        self.ty(&throws.ty);
    }
}
