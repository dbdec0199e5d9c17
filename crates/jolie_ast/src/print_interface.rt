ghost use Rattle.std.specs.Prelude.{◌≡◌, OnOk, [], ◌∷◌, codes, flat_map};
ghost use Rattle.jolie_ast.specs.Spacing.{after, separated, with_token};
ghost use Rattle.jolie_ast.specs.PrintedExpressions.{in_parens};
ghost use Rattle.jolie_ast.specs.Printed.{fault_tokens, group_tokens, interface_tokens, one_way_tokens, request_response_tokens, throws_tokens, type_name_token};
ghost use Rattle.jolie_ast.specs.PrintedParts.{fault_data};

use crate::interface::{Fault, Interface, OneWay, OperationGroup, RequestResponse, TypeName};
use crate::printer::Printer;
use std::alloc::AllocError;

impl Printer {
    #[tactic(auto, using(crate::proofs::Spacing::after_append))]
    pub fn interface(&mut self, interface: &Interface) -> Result<(), AllocError>
        ensures { OnOk result (self.new ≡ after self.old (interface_tokens interface.now)) }
    {
        self.token("interface")?;
        self.name(&interface.name)?;
        self.token("{")?;
        self.groups(interface.groups.as_slice())?;
        self.token("}")
    }

    #[tactic(auto, using(crate::proofs::Spacing::after_append, crate::proofs::Spacing::after_more))]
    fn groups(&mut self, groups: &[OperationGroup]) -> Result<(), AllocError>
        ensures { OnOk result (self.new ≡ after self.old (flat_map group_tokens groups.now)) }
    {
        for group in groups {
            self.group(group)?;
        }
        Ok(())
    }

    #[tactic(auto, using(crate::proofs::Spacing::after_append))]
    fn group(&mut self, group: &OperationGroup) -> Result<(), AllocError>
        ensures { OnOk result (self.new ≡ after self.old (group_tokens group.now)) }
    {
        match group {
            OperationGroup::RequestResponse { operations, .. } => {
                self.token("RequestResponse")?;
                self.token(":")?;
                self.request_responses(operations.as_slice())
            }
            OperationGroup::OneWay { operations, .. } => {
                self.token("OneWay")?;
                self.token(":")?;
                self.one_ways(operations.as_slice())
            }
        }
    }

    #[tactic(auto, using(crate::proofs::Spacing::after_append, crate::proofs::Spacing::after_more))]
    fn request_responses(&mut self, operations: &[RequestResponse]) -> Result<(), AllocError>
        ensures { OnOk result (self.new ≡ after self.old
            (separated (codes ",") request_response_tokens operations.now)) }
    {
        if let [first, rest @ ..] = operations {
            self.request_response(first)?;
            for operation in rest {
                self.token(",")?;
                self.request_response(operation)?;
            }
        }
        Ok(())
    }

    #[tactic(auto, using(crate::proofs::Spacing::after_append))]
    fn request_response(&mut self, operation: &RequestResponse) -> Result<(), AllocError>
        ensures { OnOk result (self.new ≡ after self.old (request_response_tokens operation.now)) }
    {
        self.name(&operation.name)?;
        self.type_name_in_parens(&operation.request)?;
        self.type_name_in_parens(&operation.response)?;
        self.throws(operation.throws.as_slice())
    }

    #[tactic(auto, using(crate::proofs::Spacing::after_append, crate::proofs::Spacing::after_more))]
    fn throws(&mut self, faults: &[Fault]) -> Result<(), AllocError>
        ensures { OnOk result (self.new ≡ after self.old (throws_tokens faults.now)) }
    {
        if let [first, rest @ ..] = faults {
            self.token("throws")?;
            self.fault(first)?;
            for fault in rest {
                self.fault(fault)?;
            }
        }
        Ok(())
    }

    #[tactic(auto, using(crate::proofs::Spacing::after_append))]
    fn fault(&mut self, fault: &Fault) -> Result<(), AllocError>
        ensures { OnOk result (self.new ≡ after self.old (fault_tokens fault.now)) }
    {
        self.name(&fault.name)?;
        self.fault_data(&fault.ty)
    }

    fn fault_data(&mut self, ty: &Option<TypeName>) -> Result<(), AllocError>
        ensures { OnOk result (self.new ≡ after self.old (fault_data ty.now)) }
    {
        match ty {
            Some(ty) => self.type_name_in_parens(ty),
            None => Ok(()),
        }
    }

    #[tactic(auto, using(crate::proofs::Spacing::after_append, crate::proofs::Spacing::after_more))]
    fn one_ways(&mut self, operations: &[OneWay]) -> Result<(), AllocError>
        ensures { OnOk result (self.new ≡ after self.old (separated (codes ",") one_way_tokens operations.now)) }
    {
        if let [first, rest @ ..] = operations {
            self.one_way(first)?;
            for operation in rest {
                self.token(",")?;
                self.one_way(operation)?;
            }
        }
        Ok(())
    }

    #[tactic(auto, using(crate::proofs::Spacing::after_append))]
    fn one_way(&mut self, operation: &OneWay) -> Result<(), AllocError>
        ensures { OnOk result (self.new ≡ after self.old (one_way_tokens operation.now)) }
    {
        self.name(&operation.name)?;
        self.type_name_in_parens(&operation.request)
    }

    #[tactic(auto, using(crate::proofs::Spacing::after_append))]
    fn type_name_in_parens(&mut self, ty: &TypeName) -> Result<(), AllocError>
        ensures { OnOk result (self.new ≡ after self.old (in_parens (type_name_token ty.now ∷ []))) }
    {
        self.token("(")?;
        self.type_name(ty)?;
        self.token(")")
    }

    fn type_name(&mut self, ty: &TypeName) -> Result<(), AllocError>
        ensures { OnOk result (self.new ≡ with_token self.old (type_name_token ty.now)) }
    {
        match ty {
            TypeName::Root { kind, .. } => self.root(*kind),
            TypeName::Named(name) => self.name(name),
            TypeName::Undefined(_) => self.token("undefined"),
        }
    }
}
