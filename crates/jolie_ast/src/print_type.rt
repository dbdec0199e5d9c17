ghost use Rattle.std.specs.Prelude.{◌≡◌, [], OnOk, flat_map};
ghost use Rattle.std.specs.Option.{option_map_or};
ghost use Rattle.jolie_ast.specs.Spacing.{after, with_token};
ghost use Rattle.jolie_ast.specs.PrintedExpressions.{in_braces};
ghost use Rattle.jolie_ast.specs.Printed.{body_tokens, cardinality_tokens, defined_tokens, field_tokens, most_token, root_token, type_tokens};

use crate::printer::Printer;
use crate::types::{Cardinality, DefinedType, Field, RootKind, TypeBody, TypeDefinition};
use std::alloc::AllocError;

impl Printer {
    #[tactic(auto, using(crate::proofs::Spacing::after_append))]
    pub fn type_definition(&mut self, definition: &TypeDefinition) -> Result<(), AllocError>
        ensures { OnOk result (self.new ≡ after self.old (type_tokens definition.now)) }
    {
        self.token("type")?;
        self.name(&definition.name)?;
        self.defined_type(&definition.body)
    }

    #[tactic(auto, using(crate::proofs::Spacing::after_append))]
    fn defined_type(&mut self, defined: &DefinedType) -> Result<(), AllocError>
        ensures { OnOk result (self.new ≡ after self.old (defined_tokens defined.now)) }
    {
        match defined {
            DefinedType::Body(body) => {
                self.token(":")?;
                self.type_body(body)
            }
            DefinedType::Fields(fields) => self.fields_in_braces(fields.as_slice()),
        }
    }

    #[cycle(types)]
    #[tactic(auto, using(crate::proofs::Spacing::after_append, crate::proofs::PrintedTypes::root_alone, crate::proofs::PrintedTypes::root_with_fields, crate::proofs::PrintedTypes::named_body, crate::proofs::PrintedTypes::undefined_body))]
    fn type_body(&mut self, body: &TypeBody) -> Result<(), AllocError>
        ensures { OnOk result (self.new ≡ after self.old (body_tokens body.now)) }
    {
        match body {
            TypeBody::Root { kind, fields, .. } => {
                self.root(*kind)?;
                match fields {
                    Some(fields) => self.fields_in_braces(fields.as_slice()),
                    None => Ok(()),
                }
            }
            TypeBody::Named(name) => self.name(name),
            TypeBody::Undefined(_) => self.token("undefined"),
        }
    }

    #[cycle(types)]
    #[tactic(auto, using(crate::proofs::Spacing::after_append))]
    fn fields_in_braces(&mut self, fields: &[Field]) -> Result<(), AllocError>
        ensures { OnOk result (self.new ≡ after self.old (in_braces (flat_map field_tokens fields.now))) }
    {
        self.token("{")?;
        self.fields(fields)?;
        self.token("}")
    }

    #[cycle(types)]
    #[tactic(auto, using(crate::proofs::Spacing::after_append, crate::proofs::Spacing::after_more))]
    fn fields(&mut self, fields: &[Field]) -> Result<(), AllocError>
        ensures { OnOk result (self.new ≡ after self.old (flat_map field_tokens fields.now)) }
    {
        for field in fields {
            self.field(field)?;
        }
        Ok(())
    }

    #[cycle(types)]
    #[tactic(auto, using(crate::proofs::Spacing::after_append, crate::proofs::PrintedTypes::field_is))]
    fn field(&mut self, field: &Field) -> Result<(), AllocError>
        ensures { OnOk result (self.new ≡ after self.old (field_tokens field.now)) }
    {
        self.name(&field.name)?;
        self.maybe_cardinality(field.cardinality)?;
        self.token(":")?;
        self.type_body(&field.body)
    }

    fn maybe_cardinality(&mut self, cardinality: Option<Cardinality>) -> Result<(), AllocError>
        ensures { OnOk result (self.new ≡ after self.old (option_map_or cardinality_tokens cardinality [])) }
    {
        match cardinality {
            Some(cardinality) => self.cardinality(cardinality),
            None => Ok(()),
        }
    }

    #[tactic(auto, using(crate::proofs::Spacing::after_append))]
    fn cardinality(&mut self, cardinality: Cardinality) -> Result<(), AllocError>
        ensures { OnOk result (self.new ≡ after self.old (cardinality_tokens cardinality)) }
    {
        match cardinality {
            Cardinality::Optional => self.token("?"),
            Cardinality::Any => self.token("*"),
            Cardinality::Between { least, most } => {
                self.token("[")?;
                self.int(least)?;
                self.token(",")?;
                self.most(most)?;
                self.token("]")
            }
        }
    }

    fn most(&mut self, most: Option<i32>) -> Result<(), AllocError>
        ensures { OnOk result (self.new ≡ with_token self.old (most_token most)) }
    {
        match most {
            Some(most) => self.int(most),
            None => self.token("*"),
        }
    }

    pub fn root(&mut self, kind: RootKind) -> Result<(), AllocError>
        ensures { OnOk result (self.new ≡ with_token self.old (root_token kind)) }
    {
        self.token(match kind {
            RootKind::Void => "void",
            RootKind::Bool => "bool",
            RootKind::Int => "int",
            RootKind::Long => "long",
            RootKind::Str => "string",
            RootKind::Any => "any",
        })
    }
}
