//! Members, parameters and structures.

ghost use Rattle.std.specs.Prelude.{◌≡◌};
ghost use Rattle.edl_grammar.specs.Parser as parser;
ghost use Rattle.edl_parser.specs.Reads.{Reads};
ghost use Rattle.edl_grammar.specs.declared.Attribute.{Attribute};
ghost use Rattle.edl_grammar.specs.declared.Written.{Written};

use crate::cursor::{Cursor, Stop};
use edl_grammar::{AttrValue, Attribute, Declared, NameAt, TypeDecl, Written};
use sqlite_items::Items;
use std::alloc::Global;

/// The declaration of this name.
fn declaration(
    found: NameAt,
    written: Written,
    dims: Items<Option<u64>>,
    attrs: Items<Attribute>,
) -> Declared
    ensures { result ≡ record {
      token = found.token;
      name = found.name;
      written = written;
      dims = dims;
      attrs = attrs;
    } }
{
    Declared {
        token: found.token,
        name: found.name,
        written,
        dims,
        attrs,
    }
}

impl Cursor<'_> {
    fn maybe_number(&mut self) -> Result<Option<u64>, Stop>
        ensures { Reads (parser.optional parser.is_number parser.number self.old) result self.new }
    {
        if self.sees_number() {
            let number = self.take_number()?;
            Ok(Some(number))
        } else {
            Ok(None)
        }
    }

    /// A dimension in its brackets.
    fn dim(&mut self) -> Result<Option<u64>, Stop>
        ensures { Reads (parser.dim self.old) result self.new }
    {
        self.take_mark(b'[')?;
        let number = self.maybe_number()?;
        self.take_mark(b']')?;
        Ok(number)
    }

    fn dims(&mut self, alloc: Global) -> Result<Items<Option<u64>>, Stop>
        ensures { Reads (parser.many (parser.is_mark "[") parser.dim self.old) result self.new }
    {
        let mut dims = Items::new(alloc);
        while self.sees_mark(b'[') {
            let dim = self.dim()?;
            dims.push(dim)?;
        }
        Ok(dims)
    }

    /// What stands behind the type of a declaration.
    pub fn declared_as(
        &mut self,
        alloc: Global,
        written: Written,
        attrs: Items<Attribute>,
    ) -> Result<Declared, Stop>
        ensures { Reads (parser.declared_as written attrs self.old) result self.new }
    {
        let found = self.take_name(alloc)?;
        let dims = self.dims(alloc)?;
        Ok(declaration(found, written, dims, attrs))
    }

    pub fn declared(&mut self, alloc: Global, attrs: Items<Attribute>) -> Result<Declared, Stop>
        ensures { Reads (parser.declared attrs self.old) result self.new }
    {
        let written = self.written(alloc)?;
        self.declared_as(alloc, written, attrs)
    }

    /// The value of an attribute behind its `=`.
    fn attr_value(&mut self, alloc: Global) -> Result<AttrValue, Stop>
        ensures { Reads (parser.attr_value self.old) result self.new }
    {
        self.take_mark(b'=')?;
        if self.sees_number() {
            let number = self.take_number()?;
            Ok(AttrValue::Number(number))
        } else {
            let name = self.take_name(alloc)?;
            Ok(AttrValue::Named(name))
        }
    }

    fn maybe_attr_value(&mut self, alloc: Global) -> Result<Option<AttrValue>, Stop>
        ensures { Reads (parser.optional (parser.is_mark "=") parser.attr_value self.old) result self.new }
    {
        if self.sees_mark(b'=') {
            let value = self.attr_value(alloc)?;
            Ok(Some(value))
        } else {
            Ok(None)
        }
    }

    #[tactic(auto, unfolding(edl_grammar::specs::Parser::attribute))]
    fn attribute(&mut self, alloc: Global) -> Result<Attribute, Stop>
        ensures { Reads (parser.attribute self.old) result self.new }
    {
        let NameAt { token, name } = self.take_name(alloc)?;
        let value = self.maybe_attr_value(alloc)?;
        Ok(Attribute { token, name, value })
    }

    /// A comma, and an attribute.
    fn next_attribute(&mut self, alloc: Global) -> Result<Attribute, Stop>
        ensures { Reads (parser.after_comma parser.attribute self.old) result self.new }
    {
        self.take_mark(b',')?;
        self.attribute(alloc)
    }

    /// The attributes from the first on, which was read.
    fn more_attributes(&mut self, alloc: Global, first: Attribute) -> Result<Items<Attribute>, Stop>
        ensures { Reads (parser.more parser.attribute first self.old) result self.new }
    {
        let mut attributes = Items::new(alloc);
        attributes.push(first)?;
        while self.sees_mark(b',') {
            let next = self.next_attribute(alloc)?;
            attributes.push(next)?;
        }
        Ok(attributes)
    }

    /// Attributes in their brackets.
    #[tactic(auto, unfolding(edl_grammar::specs::Parser::attributes))]
    pub fn attributes(&mut self, alloc: Global) -> Result<Items<Attribute>, Stop>
        ensures { Reads (parser.attributes self.old) result self.new }
    {
        self.take_mark(b'[')?;
        let first = self.attribute(alloc)?;
        let attributes = self.more_attributes(alloc, first)?;
        self.then_mark(attributes, b']')
    }

    /// A member, which ends with `;`.
    fn member(&mut self, alloc: Global) -> Result<Declared, Stop>
        ensures { Reads (parser.member self.old) result self.new }
    {
        let member = self.declared(alloc, Items::new(alloc))?;
        self.then_mark(member, b';')
    }

    fn member_list(&mut self, alloc: Global) -> Result<Items<Declared>, Stop>
        ensures { Reads (parser.many parser.begins_type parser.member self.old) result self.new }
    {
        let mut members = Items::new(alloc);
        while self.sees_type() {
            let member = self.member(alloc)?;
            members.push(member)?;
        }
        Ok(members)
    }

    /// Members in their braces.
    #[tactic(auto, unfolding(edl_grammar::specs::Parser::members))]
    fn members(&mut self, alloc: Global) -> Result<Items<Declared>, Stop>
        ensures { Reads (parser.members self.old) result self.new }
    {
        self.take_mark(b'{')?;
        let members = self.member_list(alloc)?;
        self.closed(members)
    }

    pub fn structure(&mut self, alloc: Global) -> Result<TypeDecl, Stop>
        ensures { Reads (parser.structure self.old) result self.new }
    {
        self.take_word(b"struct")?;
        let NameAt { token, name } = self.take_name(alloc)?;
        let members = self.members(alloc)?;
        Ok(TypeDecl::Structure {
            token,
            name,
            members,
        })
    }

    pub fn union(&mut self, alloc: Global) -> Result<TypeDecl, Stop>
        ensures { Reads (parser.union self.old) result self.new }
    {
        self.take_word(b"union")?;
        let NameAt { token, name } = self.take_name(alloc)?;
        let members = self.members(alloc)?;
        Ok(TypeDecl::Union {
            token,
            name,
            members,
        })
    }
}
