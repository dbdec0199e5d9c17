ghost use Rattle.std.specs.Prelude.{◌≡◌, []};
ghost use Rattle.jolie_parse.specs.ClassNames as c;
ghost use Rattle.jolie_parse.specs.Grammar as spec;
ghost use Rattle.jolie_parse.specs.Meanings as means_as;
ghost use Rattle.jolie_parse.specs.Reading.{read};
ghost use Rattle.jolie_parse.specs.Reads.{Reads, more};
ghost use Rattle.jolie_parse.specs.Syntax as syntax;

use crate::class::{CARDINALITY_FIRSTS, Class, IDS, KINDS, MEMBER_FIRSTS, MOSTS, WORDS};
use crate::cursor::Cursor;
use crate::stop::Stop;
use crate::taken::Taken;
use crate::word::Word;
use jolie_ast::{Cardinality, DefinedType, Field, RootKind, TypeBody, TypeDefinition};
use jolie_tokens::Sign;
use sqlite_items::Items;

pub fn root_kind(class: Class) -> RootKind
    ensures { result ≡ means_as.root_kind class }
{
    match class {
        Class::Word(Word::Void) => RootKind::Void,
        Class::Word(Word::Bool) => RootKind::Bool,
        Class::Word(Word::Int) => RootKind::Int,
        Class::Word(Word::Long) => RootKind::Long,
        Class::Word(Word::Str) => RootKind::Str,
        _ => RootKind::Any,
    }
}

/// `[least, most]`, where most is an int or `*`.
fn bounds_of(least: &Taken, most: &Taken) -> Cardinality
    ensures { result ≡ means_as.bounds_of least.now most.now }
{
    let limited = most.class().is(Class::Int);
    Cardinality::Between {
        least: least.int(),
        most: if limited { Some(most.int()) } else { None },
    }
}

impl<'a> Cursor<'a> {
    #[tactic(auto, using(crate::proofs::Lists::passes, crate::proofs::Lists::stops_then), unfolding(crate::specs::Grammar::bounds))]
    fn bounds(&mut self) -> Result<Cardinality, Stop>
        ensures { Reads (read 0 spec.bounds self.old) result self.new }
    {
        let least = self.take(&[Class::Int])?;
        self.sign(Sign::Comma)?;
        let most = self.take(&MOSTS)?;
        Ok(bounds_of(&least, &most))
    }

    fn bounds_in_brackets(&mut self, levels: u32) -> Result<Cardinality, Stop>
        ensures { Reads (read levels (syntax.between c.sign_open_bracket syntax.some_bounds c.sign_close_bracket)
            self.old) result self.new }
    {
        self.open(&[Class::Sign(Sign::OpenBracket)], levels)?;
        let part = self.bounds();
        self.closed(part, Sign::CloseBracket, levels - 1)
    }

    fn cardinal(&mut self, levels: u32) -> Result<Cardinality, Stop>
        ensures { Reads (read levels spec.cardinal self.old) result self.new }
    {
        if self.eat(Sign::Question) {
            return Ok(Cardinality::Optional);
        }
        if self.eat(Sign::Star) {
            return Ok(Cardinality::Any);
        }
        self.bounds_in_brackets(levels)
    }

    #[tactic(auto, using(crate::proofs::Lists::passes, crate::proofs::Lists::stops_then), unfolding(crate::specs::Grammar::cardinal))]
    fn cardinality(&mut self, levels: u32) -> Result<Option<Cardinality>, Stop>
        ensures { Reads (read levels (syntax.optional spec.cardinal) self.old) result self.new }
    {
        if !self.sees(&CARDINALITY_FIRSTS) {
            return Ok(None);
        }
        Ok(Some(self.cardinal(levels)?))
    }

    /// A field, with the dot and the comma that may stand around it.
    #[cycle(types)]
    fn field(&mut self, levels: u32) -> Result<Field, Stop>
        ensures { Reads (read levels spec.field self.old) result self.new }
    {
        self.eat(Sign::Dot);
        let word = self.take(&WORDS)?;
        let name = word.name(self.alloc)?;
        let cardinality = self.cardinality(levels)?;
        self.sign(Sign::Colon)?;
        let body = self.type_body(levels)?;
        self.eat(Sign::Comma);
        Ok(Field {
            name,
            cardinality,
            body,
        })
    }

    #[cycle(types)]
    fn fields(&mut self, levels: u32) -> Result<Items<Field>, Stop>
        ensures { Reads (more levels spec.field [] self.old) result self.new }
    {
        let mut fields = Items::new(self.alloc);
        while self.sees(&MEMBER_FIRSTS) {
            fields.push(self.field(levels)?)?;
        }
        Ok(fields)
    }

    #[cycle(types)]
    fn fields_in_braces(&mut self, levels: u32) -> Result<Items<Field>, Stop>
        ensures { Reads (read levels (spec.braces syntax.some_fields) self.old) result self.new }
    {
        self.open(&[Class::Sign(Sign::OpenBrace)], levels)?;
        let part = self.fields(levels - 1);
        self.closed(part, Sign::CloseBrace, levels - 1)
    }

    #[cycle(types)]
    fn optional_fields(&mut self, levels: u32) -> Result<Option<Items<Field>>, Stop>
        ensures { Reads (read levels (syntax.optional (spec.braces syntax.some_fields)) self.old) result self.new }
    {
        if !self.sees_sign(Sign::OpenBrace) {
            return Ok(None);
        }
        Ok(Some(self.fields_in_braces(levels)?))
    }

    #[tactic(auto, using(crate::proofs::Lists::passes, crate::proofs::Lists::stops_then), unfolding(crate::specs::Grammar::root_type))]
    #[cycle(types)]
    fn root_type(&mut self, levels: u32) -> Result<TypeBody, Stop>
        ensures { Reads (read levels spec.root_type self.old) result self.new }
    {
        let word = self.take(&KINDS)?;
        let fields = self.optional_fields(levels)?;
        Ok(TypeBody::Root {
            at: word.at(),
            kind: root_kind(word.class()),
            fields,
        })
    }

    #[tactic(auto, using(crate::proofs::Lists::passes, crate::proofs::Lists::stops_then), unfolding(crate::specs::Grammar::type_body, crate::specs::Grammar::root_type, crate::specs::Grammar::id))]
    #[cycle(types)]
    fn type_body(&mut self, levels: u32) -> Result<TypeBody, Stop>
        ensures { Reads (read levels spec.type_body self.old) result self.new }
    {
        if self.sees(&KINDS) {
            return self.root_type(levels);
        }
        if self.sees(&IDS) {
            let word = self.take(&IDS)?;
            return Ok(TypeBody::Named(word.name(self.alloc)?));
        }
        let word = self.word(Word::Undefined)?;
        Ok(TypeBody::Undefined(word.at()))
    }

    #[tactic(auto, using(crate::proofs::Lists::passes, crate::proofs::Lists::stops_then), unfolding(crate::specs::Grammar::defined_type))]
    fn defined_type(&mut self, levels: u32) -> Result<DefinedType, Stop>
        ensures { Reads (read levels spec.defined_type self.old) result self.new }
    {
        if self.eat(Sign::Colon) {
            return Ok(DefinedType::Body(self.type_body(levels)?));
        }
        Ok(DefinedType::Fields(self.fields_in_braces(levels)?))
    }

    #[tactic(auto, using(crate::proofs::Lists::passes, crate::proofs::Lists::stops_then), unfolding(crate::specs::Grammar::type_definition, crate::specs::Grammar::id))]
    pub fn type_definition(&mut self, levels: u32) -> Result<TypeDefinition, Stop>
        ensures { Reads (read levels spec.type_definition self.old) result self.new }
    {
        let word = self.word(Word::Type)?;
        let name = self.take(&IDS)?;
        let name = name.name(self.alloc)?;
        let body = self.defined_type(levels)?;
        Ok(TypeDefinition {
            at: word.at(),
            name,
            body,
        })
    }
}
