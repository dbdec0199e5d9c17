ghost use Rattle.std.specs.Prelude.{◌≡◌, []};
ghost use Rattle.jolie_parse.specs.ClassNames as c;
ghost use Rattle.jolie_parse.specs.Grammar as spec;
ghost use Rattle.jolie_parse.specs.Meanings as means_as;
ghost use Rattle.jolie_parse.specs.Reading.{read};
ghost use Rattle.jolie_parse.specs.Reads.{Reads, more};
ghost use Rattle.jolie_parse.specs.Syntax as syntax;

use crate::class::{CLAUSE_FIRSTS, Class, EXECUTIONS, IDS, PORT_KINDS, WORDS};
use crate::cursor::Cursor;
use crate::list::one;
use crate::stop::Stop;
use crate::taken::Taken;
use crate::word::Word;
use jolie_ast::{Alias, Clause, CorrelationVariable, Execution, Name, Port, Quoted, Service};
use jolie_tokens::Sign;
use sqlite_items::Items;

fn execution_of(word: &Taken) -> Execution
    ensures { result ≡ means_as.execution_of word.now }
{
    if word.is(Word::Concurrent) {
        Execution::Concurrent
    } else {
        Execution::Single
    }
}

fn port_clause(word: &Taken, port: Port) -> Clause
    ensures { result ≡ means_as.port_clause word.now port }
{
    if word.is(Word::InputPort) {
        Clause::InputPort(port)
    } else {
        Clause::OutputPort(port)
    }
}

impl<'a> Cursor<'a> {
    /// A dot and the name of a field.
    #[tactic(auto, using(crate::proofs::Lists::passes, crate::proofs::Lists::stops_then), unfolding(crate::specs::Grammar::word))]
    fn next_field_name(&mut self) -> Result<Name, Stop>
        ensures { Reads (read 0 (syntax.means means_as.name_of (syntax.behind c.sign_dot spec.word)) self.old) result
            self.new }
    {
        self.sign(Sign::Dot)?;
        let word = self.take(&WORDS)?;
        Ok(word.name(self.alloc)?)
    }

    fn field_names(&mut self) -> Result<Items<Name>, Stop>
        ensures { Reads (more 0 (syntax.means means_as.name_of (syntax.behind c.sign_dot spec.word)) [] self.old)
            result self.new }
    {
        let mut names = Items::new(self.alloc);
        while self.sees_sign(Sign::Dot) {
            names.push(self.next_field_name()?)?;
        }
        Ok(names)
    }

    fn alias(&mut self) -> Result<Alias, Stop>
        ensures { Reads (read 0 spec.alias self.old) result self.new }
    {
        let ty = self.take(&IDS)?;
        let first = self.next_field_name()?;
        let rest = self.field_names()?;
        Ok(Alias {
            ty: ty.name(self.alloc)?,
            first,
            rest,
        })
    }

    fn aliases(&mut self) -> Result<Items<Alias>, Stop>
        ensures { Reads (read 0 (syntax.some_of spec.alias) self.old) result self.new }
    {
        let first = self.alias()?;
        let mut aliases = one(self.alloc, first)?;
        while self.sees(&IDS) {
            aliases.push(self.alias()?)?;
        }
        Ok(aliases)
    }

    #[tactic(auto, using(crate::proofs::Lists::passes, crate::proofs::Lists::stops_then), unfolding(crate::specs::Grammar::variable, crate::specs::Grammar::id))]
    fn variable(&mut self) -> Result<CorrelationVariable, Stop>
        ensures { Reads (read 0 spec.variable self.old) result self.new }
    {
        let word = self.take(&IDS)?;
        let name = word.name(self.alloc)?;
        self.sign(Sign::Colon)?;
        let aliases = self.aliases()?;
        Ok(CorrelationVariable { name, aliases })
    }

    /// Correlation variables with commas between them.
    fn variables(&mut self) -> Result<Items<CorrelationVariable>, Stop>
        ensures { Reads (read 0 (syntax.separated c.sign_comma spec.variable) self.old) result self.new }
    {
        let first = self.variable()?;
        let mut variables = one(self.alloc, first)?;
        while self.eat(Sign::Comma) {
            variables.push(self.variable()?)?;
        }
        Ok(variables)
    }

    fn variables_in_braces(&mut self, levels: u32) -> Result<Items<CorrelationVariable>, Stop>
        ensures { Reads (read levels (spec.braces syntax.some_variables) self.old) result self.new }
    {
        self.open(&[Class::Sign(Sign::OpenBrace)], levels)?;
        let part = self.variables();
        self.closed(part, Sign::CloseBrace, levels - 1)
    }

    #[tactic(auto, using(crate::proofs::Lists::passes, crate::proofs::Lists::stops_then), unfolding(crate::specs::Grammar::correlation_set))]
    fn correlation_set(&mut self, levels: u32) -> Result<Clause, Stop>
        ensures { Reads (read levels spec.correlation_set self.old) result self.new }
    {
        let word = self.word(Word::Cset)?;
        let variables = self.variables_in_braces(levels)?;
        Ok(Clause::CorrelationSet {
            at: word.at(),
            variables,
        })
    }

    /// Names with commas between them.
    fn interface_names(&mut self) -> Result<Items<Name>, Stop>
        ensures { Reads (read 0 (syntax.separated c.sign_comma spec.name) self.old) result self.new }
    {
        let first = self.name()?;
        let mut names = one(self.alloc, first)?;
        while self.eat(Sign::Comma) {
            names.push(self.name()?)?;
        }
        Ok(names)
    }

    #[tactic(auto, using(crate::proofs::Lists::passes, crate::proofs::Lists::stops_then))]
    fn location(&mut self) -> Result<Quoted, Stop>
        ensures { Reads (read 0 (syntax.means means_as.quoted
            (spec.labelled c.the_location (spec.one c.quoted_text))) self.old) result self.new }
    {
        self.word(Word::Location)?;
        self.sign(Sign::Colon)?;
        let text = self.take(&[Class::Str])?;
        Ok(text.quoted(self.alloc)?)
    }

    #[tactic(auto, using(crate::proofs::Lists::passes, crate::proofs::Lists::stops_then))]
    fn protocol(&mut self) -> Result<Option<Name>, Stop>
        ensures { Reads (read 0 (syntax.optional (spec.labelled c.the_protocol spec.name)) self.old) result self.new }
    {
        if !self.sees_word(Word::Protocol) {
            return Ok(None);
        }
        self.word(Word::Protocol)?;
        self.sign(Sign::Colon)?;
        Ok(Some(self.name()?))
    }

    #[tactic(auto, using(crate::proofs::Lists::passes, crate::proofs::Lists::stops_then))]
    fn interfaces(&mut self) -> Result<Items<Name>, Stop>
        ensures { Reads (read 0 (spec.labelled c.the_interfaces (syntax.separated c.sign_comma spec.name)) self.old)
            result self.new }
    {
        self.word(Word::Interfaces)?;
        self.sign(Sign::Colon)?;
        self.interface_names()
    }

    fn port_body(&mut self) -> Result<(Quoted, Option<Name>, Items<Name>), Stop>
        ensures { Reads (read 0 spec.port_body self.old) result self.new }
    {
        let location = self.location()?;
        let protocol = self.protocol()?;
        let interfaces = self.interfaces()?;
        Ok((location, protocol, interfaces))
    }

    fn port_body_in_braces(
        &mut self,
        levels: u32,
    ) -> Result<(Quoted, Option<Name>, Items<Name>), Stop>
        ensures { Reads (read levels (spec.braces syntax.port_parts) self.old) result self.new }
    {
        self.open(&[Class::Sign(Sign::OpenBrace)], levels)?;
        let part = self.port_body();
        self.closed(part, Sign::CloseBrace, levels - 1)
    }

    #[tactic(auto, using(crate::proofs::Lists::passes, crate::proofs::Lists::stops_then), unfolding(crate::specs::Grammar::port, crate::specs::Grammar::id))]
    fn port(&mut self, levels: u32) -> Result<Clause, Stop>
        ensures { Reads (read levels spec.port self.old) result self.new }
    {
        let word = self.take(&PORT_KINDS)?;
        let name = self.take(&IDS)?;
        let name = name.name(self.alloc)?;
        let (location, protocol, interfaces) = self.port_body_in_braces(levels)?;
        let port = Port {
            at: word.at(),
            name,
            location,
            protocol,
            interfaces,
        };
        Ok(port_clause(&word, port))
    }

    #[tactic(auto, using(crate::proofs::Lists::passes, crate::proofs::Lists::stops_then), unfolding(crate::specs::Grammar::execution_clause))]
    fn execution_clause(&mut self) -> Result<Clause, Stop>
        ensures { Reads (read 0 spec.execution_clause self.old) result self.new }
    {
        let word = self.word(Word::Execution)?;
        self.sign(Sign::Colon)?;
        let execution = self.take(&EXECUTIONS)?;
        Ok(Clause::Execution {
            at: word.at(),
            execution: execution_of(&execution),
        })
    }

    #[tactic(auto, using(crate::proofs::Lists::passes, crate::proofs::Lists::stops_then), unfolding(crate::specs::Grammar::init_clause))]
    fn init_clause(&mut self, levels: u32) -> Result<Clause, Stop>
        ensures { Reads (read levels spec.init_clause self.old) result self.new }
    {
        let word = self.word(Word::Init)?;
        let body = self.block(levels)?;
        Ok(Clause::Init {
            at: word.at(),
            body,
        })
    }

    #[tactic(auto, using(crate::proofs::Lists::passes, crate::proofs::Lists::stops_then), unfolding(crate::specs::Grammar::main_clause))]
    fn main_clause(&mut self, levels: u32) -> Result<Clause, Stop>
        ensures { Reads (read levels spec.main_clause self.old) result self.new }
    {
        let word = self.word(Word::Main)?;
        let body = self.block(levels)?;
        Ok(Clause::Main {
            at: word.at(),
            body,
        })
    }

    #[tactic(auto, using(crate::proofs::Lists::passes, crate::proofs::Lists::stops_then), unfolding(crate::specs::Grammar::clauses, crate::specs::Grammar::execution_clause, crate::specs::Grammar::port, crate::specs::Grammar::correlation_set, crate::specs::Grammar::init_clause))]
    fn clause(&mut self, levels: u32) -> Result<Clause, Stop>
        ensures { Reads (read levels spec.clauses self.old) result self.new }
    {
        if self.sees_word(Word::Execution) {
            return self.execution_clause();
        }
        if self.sees(&PORT_KINDS) {
            return self.port(levels);
        }
        if self.sees_word(Word::Cset) {
            return self.correlation_set(levels);
        }
        if self.sees_word(Word::Init) {
            return self.init_clause(levels);
        }
        self.main_clause(levels)
    }

    fn clauses(&mut self, levels: u32) -> Result<Items<Clause>, Stop>
        ensures { Reads (more levels spec.clauses [] self.old) result self.new }
    {
        let mut clauses = Items::new(self.alloc);
        while self.sees(&CLAUSE_FIRSTS) {
            clauses.push(self.clause(levels)?)?;
        }
        Ok(clauses)
    }

    fn clauses_in_braces(&mut self, levels: u32) -> Result<Items<Clause>, Stop>
        ensures { Reads (read levels (spec.braces syntax.some_clauses) self.old) result self.new }
    {
        self.open(&[Class::Sign(Sign::OpenBrace)], levels)?;
        let part = self.clauses(levels - 1);
        self.closed(part, Sign::CloseBrace, levels - 1)
    }

    #[tactic(auto, using(crate::proofs::Lists::passes, crate::proofs::Lists::stops_then), unfolding(crate::specs::Grammar::service, crate::specs::Grammar::id))]
    pub fn service(&mut self, levels: u32) -> Result<Service, Stop>
        ensures { Reads (read levels spec.service self.old) result self.new }
    {
        let word = self.word(Word::Service)?;
        let name = self.take(&IDS)?;
        let name = name.name(self.alloc)?;
        let clauses = self.clauses_in_braces(levels)?;
        Ok(Service {
            at: word.at(),
            name,
            clauses,
        })
    }
}
