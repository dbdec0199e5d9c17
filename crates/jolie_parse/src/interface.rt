ghost use Rattle.std.specs.Prelude.{◌≡◌, [], None, Some};
ghost use Rattle.jolie_parse.specs.ClassNames as c;
ghost use Rattle.jolie_parse.specs.Grammar as spec;
ghost use Rattle.jolie_parse.specs.Reading.{read};
ghost use Rattle.jolie_parse.specs.Reads.{Reads, more};
ghost use Rattle.jolie_parse.specs.Syntax as syntax;

use crate::class::{Class, IDS, KINDS, OPERATION_KINDS};
use crate::cursor::Cursor;
use crate::list::one;
use crate::stop::Stop;
use crate::types::root_kind;
use crate::word::Word;
use jolie_ast::{Fault, Interface, OneWay, OperationGroup, RequestResponse, TypeName};
use jolie_tokens::Sign;
use sqlite_items::Items;
use std::alloc::Global;

fn faults_of(alloc: Global, throws: Option<Items<Fault>>) -> Items<Fault>
    ensures { result ≡ (elim throws [ None ↦ [] | Some faults ↦ faults ]) }
{
    match throws {
        Some(faults) => faults,
        None => Items::new(alloc),
    }
}

impl<'a> Cursor<'a> {
    #[tactic(auto, using(crate::proofs::Lists::passes, crate::proofs::Lists::stops_then), unfolding(crate::specs::Grammar::type_named, crate::specs::Grammar::id))]
    fn type_named(&mut self) -> Result<TypeName, Stop>
        ensures { Reads (read 0 spec.type_named self.old) result self.new }
    {
        if self.sees(&KINDS) {
            let word = self.take(&KINDS)?;
            return Ok(TypeName::Root {
                at: word.at(),
                kind: root_kind(word.class()),
            });
        }
        if self.sees(&IDS) {
            let word = self.take(&IDS)?;
            return Ok(TypeName::Named(word.name(self.alloc)?));
        }
        let word = self.word(Word::Undefined)?;
        Ok(TypeName::Undefined(word.at()))
    }

    fn type_in_parens(&mut self, levels: u32) -> Result<TypeName, Stop>
        ensures { Reads (read levels (spec.parens syntax.a_type_name) self.old) result self.new }
    {
        self.open(&[Class::Sign(Sign::OpenParen)], levels)?;
        let part = self.type_named();
        self.closed(part, Sign::CloseParen, levels - 1)
    }

    #[tactic(auto, using(crate::proofs::Lists::passes, crate::proofs::Lists::stops_then))]
    fn fault_type(&mut self, levels: u32) -> Result<Option<TypeName>, Stop>
        ensures { Reads (read levels (syntax.optional (spec.parens syntax.a_type_name)) self.old) result self.new }
    {
        if !self.sees_sign(Sign::OpenParen) {
            return Ok(None);
        }
        Ok(Some(self.type_in_parens(levels)?))
    }

    #[tactic(auto, using(crate::proofs::Lists::passes, crate::proofs::Lists::stops_then), unfolding(crate::specs::Grammar::fault, crate::specs::Grammar::id))]
    fn fault(&mut self, levels: u32) -> Result<Fault, Stop>
        ensures { Reads (read levels spec.fault self.old) result self.new }
    {
        let word = self.take(&IDS)?;
        let name = word.name(self.alloc)?;
        let ty = self.fault_type(levels)?;
        Ok(Fault { name, ty })
    }

    fn faults(&mut self, levels: u32) -> Result<Items<Fault>, Stop>
        ensures { Reads (read levels (syntax.some_of spec.fault) self.old) result self.new }
    {
        let first = self.fault(levels)?;
        let mut faults = one(self.alloc, first)?;
        while self.sees(&IDS) {
            faults.push(self.fault(levels)?)?;
        }
        Ok(faults)
    }

    #[tactic(auto, using(crate::proofs::Lists::passes, crate::proofs::Lists::stops_then), unfolding(crate::specs::Grammar::throws))]
    fn throws(&mut self, levels: u32) -> Result<Option<Items<Fault>>, Stop>
        ensures { Reads (read levels spec.throws self.old) result self.new }
    {
        if !self.sees_word(Word::Throws) {
            return Ok(None);
        }
        self.word(Word::Throws)?;
        Ok(Some(self.faults(levels)?))
    }

    #[tactic(auto, using(crate::proofs::Lists::passes, crate::proofs::Lists::stops_then), unfolding(crate::specs::Grammar::request_response, crate::specs::Grammar::id))]
    fn request_response(&mut self, levels: u32) -> Result<RequestResponse, Stop>
        ensures { Reads (read levels spec.request_response self.old) result self.new }
    {
        let word = self.take(&IDS)?;
        let name = word.name(self.alloc)?;
        let request = self.type_in_parens(levels)?;
        let (response, throws) = self.response_parts(levels)?;
        Ok(RequestResponse {
            name,
            request,
            response,
            throws: faults_of(self.alloc, throws),
        })
    }

    /// The type of a response, and the faults after it.
    #[tactic(auto, using(crate::proofs::Lists::passes, crate::proofs::Lists::stops_then))]
    fn response_parts(&mut self, levels: u32) -> Result<(TypeName, Option<Items<Fault>>), Stop>
        ensures { Reads (read levels (syntax.both (spec.parens syntax.a_type_name) spec.throws) self.old) result
            self.new }
    {
        let response = self.type_in_parens(levels)?;
        let throws = self.throws(levels)?;
        Ok((response, throws))
    }

    /// Request-response operations with commas between them.
    fn request_response_list(&mut self, levels: u32) -> Result<Items<RequestResponse>, Stop>
        ensures { Reads (read levels (syntax.separated c.sign_comma spec.request_response) self.old) result self.new }
    {
        let first = self.request_response(levels)?;
        let mut operations = one(self.alloc, first)?;
        while self.eat(Sign::Comma) {
            operations.push(self.request_response(levels)?)?;
        }
        Ok(operations)
    }

    #[tactic(auto, using(crate::proofs::Lists::passes, crate::proofs::Lists::stops_then), unfolding(crate::specs::Grammar::request_responses))]
    fn request_responses(&mut self, levels: u32) -> Result<OperationGroup, Stop>
        ensures { Reads (read levels spec.request_responses self.old) result self.new }
    {
        let word = self.word(Word::RequestResponse)?;
        self.sign(Sign::Colon)?;
        let operations = self.request_response_list(levels)?;
        Ok(OperationGroup::RequestResponse {
            at: word.at(),
            operations,
        })
    }

    #[tactic(auto, using(crate::proofs::Lists::passes, crate::proofs::Lists::stops_then), unfolding(crate::specs::Grammar::one_way, crate::specs::Grammar::id))]
    fn one_way(&mut self, levels: u32) -> Result<OneWay, Stop>
        ensures { Reads (read levels spec.one_way self.old) result self.new }
    {
        let word = self.take(&IDS)?;
        let name = word.name(self.alloc)?;
        let request = self.type_in_parens(levels)?;
        Ok(OneWay { name, request })
    }

    /// One-way operations with commas between them.
    fn one_way_list(&mut self, levels: u32) -> Result<Items<OneWay>, Stop>
        ensures { Reads (read levels (syntax.separated c.sign_comma spec.one_way) self.old) result self.new }
    {
        let first = self.one_way(levels)?;
        let mut operations = one(self.alloc, first)?;
        while self.eat(Sign::Comma) {
            operations.push(self.one_way(levels)?)?;
        }
        Ok(operations)
    }

    #[tactic(auto, using(crate::proofs::Lists::passes, crate::proofs::Lists::stops_then), unfolding(crate::specs::Grammar::one_ways))]
    fn one_ways(&mut self, levels: u32) -> Result<OperationGroup, Stop>
        ensures { Reads (read levels spec.one_ways self.old) result self.new }
    {
        let word = self.word(Word::OneWay)?;
        self.sign(Sign::Colon)?;
        let operations = self.one_way_list(levels)?;
        Ok(OperationGroup::OneWay {
            at: word.at(),
            operations,
        })
    }

    #[tactic(auto, using(crate::proofs::Lists::passes, crate::proofs::Lists::stops_then), unfolding(crate::specs::Grammar::operation_group, crate::specs::Grammar::request_responses))]
    fn operation_group(&mut self, levels: u32) -> Result<OperationGroup, Stop>
        ensures { Reads (read levels spec.operation_group self.old) result self.new }
    {
        if self.sees_word(Word::RequestResponse) {
            self.request_responses(levels)
        } else {
            self.one_ways(levels)
        }
    }

    fn operation_groups(&mut self, levels: u32) -> Result<Items<OperationGroup>, Stop>
        ensures { Reads (more levels spec.operation_group [] self.old) result self.new }
    {
        let mut groups = Items::new(self.alloc);
        while self.sees(&OPERATION_KINDS) {
            groups.push(self.operation_group(levels)?)?;
        }
        Ok(groups)
    }

    fn operations_in_braces(&mut self, levels: u32) -> Result<Items<OperationGroup>, Stop>
        ensures { Reads (read levels (spec.braces syntax.some_operations) self.old) result self.new }
    {
        self.open(&[Class::Sign(Sign::OpenBrace)], levels)?;
        let part = self.operation_groups(levels - 1);
        self.closed(part, Sign::CloseBrace, levels - 1)
    }

    #[tactic(auto, using(crate::proofs::Lists::passes, crate::proofs::Lists::stops_then), unfolding(crate::specs::Grammar::interface, crate::specs::Grammar::id))]
    pub fn interface(&mut self, levels: u32) -> Result<Interface, Stop>
        ensures { Reads (read levels spec.interface self.old) result self.new }
    {
        let word = self.word(Word::Interface)?;
        let name = self.take(&IDS)?;
        let name = name.name(self.alloc)?;
        let groups = self.operations_in_braces(levels)?;
        Ok(Interface {
            at: word.at(),
            name,
            groups,
        })
    }
}
