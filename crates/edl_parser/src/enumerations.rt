//! Enumerations.

ghost use Rattle.std.specs.Prelude.{◌≡◌};
ghost use Rattle.edl_grammar.specs.Grammar as grammar;
ghost use Rattle.edl_grammar.specs.Parser as parser;
ghost use Rattle.edl_parser.specs.Reads.{Reads};

use crate::cursor::{Cursor, Stop};
use edl_grammar::{EnumValue, Literal, NameAt, TypeDecl};
use sqlite_items::Items;
use std::alloc::Global;

fn enumerator(found: NameAt, literal: Option<Literal>) -> EnumValue
    ensures { result ≡ grammar.enumerator found literal }
{
    match literal {
        Some(literal) => EnumValue {
            token: found.token,
            name: found.name,
            negative: literal.negative,
            number: Some(literal.number),
        },
        None => EnumValue {
            token: found.token,
            name: found.name,
            negative: false,
            number: None,
        },
    }
}

fn enumeration_of(keyword: u32, found: Option<NameAt>, values: Items<EnumValue>) -> TypeDecl
    ensures { result ≡ grammar.enumeration_of keyword found values }
{
    match found {
        Some(NameAt { token, name }) => TypeDecl::Enumeration {
            token,
            name: Some(name),
            values,
        },
        None => TypeDecl::Enumeration {
            token: keyword,
            name: None,
            values,
        },
    }
}

impl Cursor<'_> {
    /// Whether the mark stood next, which is then taken.
    fn given_mark(&mut self, mark: u8) -> Result<bool, Stop>
        ensures { Reads (parser.given (parser.is_marked mark) (parser.marked mark) self.old) result self.new }
    {
        if self.sees_mark(mark) {
            self.take_mark(mark)?;
            Ok(true)
        } else {
            Ok(false)
        }
    }

    /// The number behind an enumerator's `=`.
    fn literal(&mut self) -> Result<Literal, Stop>
        ensures { Reads (parser.literal self.old) result self.new }
    {
        self.take_mark(b'=')?;
        let negative = self.given_mark(b'-')?;
        let number = self.take_number()?;
        Ok(Literal { negative, number })
    }

    fn maybe_literal(&mut self) -> Result<Option<Literal>, Stop>
        ensures { Reads (parser.optional (parser.is_mark "=") parser.literal self.old) result self.new }
    {
        if self.sees_mark(b'=') {
            let literal = self.literal()?;
            Ok(Some(literal))
        } else {
            Ok(None)
        }
    }

    fn enum_value(&mut self, alloc: Global) -> Result<EnumValue, Stop>
        ensures { Reads (parser.enum_value self.old) result self.new }
    {
        let found = self.take_name(alloc)?;
        let literal = self.maybe_literal()?;
        Ok(enumerator(found, literal))
    }

    /// Enumerators with commas between, and maybe one behind the last.
    fn enum_values(&mut self, alloc: Global) -> Result<Items<EnumValue>, Stop>
        ensures { Reads (parser.enum_values self.old) result self.new }
    {
        let mut values = Items::new(alloc);
        while self.sees_name() {
            let value = self.enum_value(alloc)?;
            values.push(value)?;
            if !self.sees_mark(b',') {
                return Ok(values);
            }
            self.take_mark(b',')?;
        }
        Ok(values)
    }

    fn maybe_name(&mut self, alloc: Global) -> Result<Option<NameAt>, Stop>
        ensures { Reads (parser.optional parser.is_name parser.name self.old) result self.new }
    {
        if self.sees_name() {
            let found = self.take_name(alloc)?;
            Ok(Some(found))
        } else {
            Ok(None)
        }
    }

    #[tactic(auto, unfolding(edl_grammar::specs::Parser::enumeration))]
    pub fn enumeration(&mut self, alloc: Global) -> Result<TypeDecl, Stop>
        ensures { Reads (parser.enumeration self.old) result self.new }
    {
        let keyword = self.take_word(b"enum")?;
        let found = self.maybe_name(alloc)?;
        self.take_mark(b'{')?;
        let values = self.enum_values(alloc)?;
        self.closed(enumeration_of(keyword, found, values))
    }
}
