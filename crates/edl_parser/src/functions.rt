//! Functions, with what stands around them.

ghost use Rattle.std.specs.Prelude.{◌≡◌, IfOk};
ghost use Rattle.edl_grammar.specs.Grammar as grammar;
ghost use Rattle.edl_grammar.specs.Parser as parser;
ghost use Rattle.edl_parser.specs.Reads.{Reads};

use crate::cursor::{Cursor, Stop};
use edl_grammar::{Attribute, Base, Declared, FuncDecl, Head, NameAt, Tail, Written};
use sqlite_items::Items;
use std::alloc::Global;

pub fn function(head: Head, is_public: bool, tail: Tail) -> FuncDecl
    ensures { result ≡ grammar.function head is_public tail }
{
    let Head {
        result: written,
        name: NameAt { token, name },
        params,
    } = head;
    FuncDecl {
        token,
        name,
        result: written,
        params,
        is_public,
        switchless: tail.switchless,
        allow: tail.allow,
    }
}

/// The list, which is empty where there is none.
fn list_of<T: Drop>(alloc: Global, list: Option<Items<T>>) -> Items<T>
    ensures { result ≡ grammar.list_of list }
{
    match list {
        Some(list) => list,
        None => Items::new(alloc),
    }
}

/// Whether the type is `void` and no more.
fn is_lone_void(written: &Written) -> bool
    ensures { result ≡ parser.is_lone_void written.now }
{
    match written.base {
        Base::Void => written.stars == 0 && !written.is_const,
        _ => false,
    }
}

impl Cursor<'_> {
    /// A comma, and a name.
    fn next_name(&mut self, alloc: Global) -> Result<NameAt, Stop>
        ensures { Reads (parser.after_comma parser.name self.old) result self.new }
    {
        self.take_mark(b',')?;
        self.take_name(alloc)
    }

    /// The names from the first on, which was read.
    fn more_names(&mut self, alloc: Global, first: NameAt) -> Result<Items<NameAt>, Stop>
        ensures { Reads (parser.more parser.name first self.old) result self.new }
    {
        let mut names = Items::new(alloc);
        names.push(first)?;
        while self.sees_mark(b',') {
            let next = self.next_name(alloc)?;
            names.push(next)?;
        }
        Ok(names)
    }

    /// Names with commas between.
    pub fn names(&mut self, alloc: Global) -> Result<Items<NameAt>, Stop>
        ensures { Reads (parser.separated parser.name self.old) result self.new }
    {
        let first = self.take_name(alloc)?;
        self.more_names(alloc, first)
    }

    fn maybe_attributes(&mut self, alloc: Global) -> Result<Option<Items<Attribute>>, Stop>
        ensures { Reads (parser.optional (parser.is_mark "[") parser.attributes self.old) result self.new }
    {
        if self.sees_mark(b'[') {
            let attrs = self.attributes(alloc)?;
            Ok(Some(attrs))
        } else {
            Ok(None)
        }
    }

    fn param(&mut self, alloc: Global) -> Result<Declared, Stop>
        ensures { Reads (parser.param self.old) result self.new }
    {
        let attrs = self.maybe_attributes(alloc)?;
        self.declared(alloc, list_of(alloc, attrs))
    }

    /// A comma, and a parameter.
    fn next_param(&mut self, alloc: Global) -> Result<Declared, Stop>
        ensures { Reads (parser.after_comma parser.param self.old) result self.new }
    {
        self.take_mark(b',')?;
        self.param(alloc)
    }

    /// The parameters from the first on, which was read.
    fn more_params(&mut self, alloc: Global, first: Declared) -> Result<Items<Declared>, Stop>
        ensures { Reads (parser.more parser.param first self.old) result self.new }
    {
        let mut params = Items::new(alloc);
        params.push(first)?;
        while self.sees_mark(b',') {
            let next = self.next_param(alloc)?;
            params.push(next)?;
        }
        Ok(params)
    }

    /// Parameters, of which the first has this type.
    fn named_params(&mut self, alloc: Global, written: Written) -> Result<Items<Declared>, Stop>
        ensures { Reads (parser.named_param written self.old) result self.new }
    {
        let first = self.declared_as(alloc, written, Items::new(alloc))?;
        self.more_params(alloc, first)
    }

    /// Parameters behind `void`, which alone is none.
    fn void_params(&mut self, alloc: Global, written: Written) -> Result<Items<Declared>, Stop>
        ensures { Reads (parser.void_params written self.old) result self.new }
    {
        if self.sees_mark(b')') {
            Ok(Items::new(alloc))
        } else {
            self.named_params(alloc, written)
        }
    }

    fn typed_params(&mut self, alloc: Global) -> Result<Items<Declared>, Stop>
        ensures { Reads (parser.typed_params self.old) result self.new }
    {
        let written = self.written(alloc)?;
        if is_lone_void(&written) {
            self.void_params(alloc, written)
        } else {
            self.named_params(alloc, written)
        }
    }

    fn attributed_params(&mut self, alloc: Global) -> Result<Items<Declared>, Stop>
        ensures { Reads (parser.attributed_params self.old) result self.new }
    {
        let attrs = self.attributes(alloc)?;
        let first = self.declared(alloc, attrs)?;
        self.more_params(alloc, first)
    }

    #[tactic(auto, unfolding(edl_grammar::specs::Parser::params))]
    fn params(&mut self, alloc: Global) -> Result<Items<Declared>, Stop>
        ensures { Reads (parser.params self.old) result self.new }
    {
        if self.sees_mark(b')') {
            Ok(Items::new(alloc))
        } else if self.sees_mark(b'[') {
            self.attributed_params(alloc)
        } else {
            self.typed_params(alloc)
        }
    }

    #[tactic(auto, unfolding(edl_grammar::specs::Parser::func))]
    pub fn func(&mut self, alloc: Global) -> Result<Head, Stop>
        ensures { Reads (parser.func self.old) result self.new }
    {
        let written = self.written(alloc)?;
        let name = self.take_name(alloc)?;
        self.take_mark(b'(')?;
        let params = self.params(alloc)?;
        let head = Head {
            result: written,
            name,
            params,
        };
        self.then_mark(head, b')')
    }

    /// Whether `transition_using_threads` stood next.
    pub fn given_switchless(&mut self) -> Result<bool, Stop>
        ensures { Reads (parser.given parser.is_switchless parser.switchless self.old) result self.new }
    {
        self.given_word(b"transition_using_threads")
    }

    fn maybe_names(&mut self, alloc: Global) -> Result<Option<Items<NameAt>>, Stop>
        ensures { Reads (parser.optional parser.is_name (parser.separated parser.name) self.old) result self.new }
    {
        if self.sees_name() {
            let names = self.names(alloc)?;
            Ok(Some(names))
        } else {
            Ok(None)
        }
    }

    #[tactic(auto, unfolding(edl_grammar::specs::Parser::allow))]
    fn allow(&mut self, alloc: Global) -> Result<Items<NameAt>, Stop>
        ensures { Reads (parser.allow self.old) result self.new }
    {
        self.take_word(b"allow")?;
        self.take_mark(b'(')?;
        let names = self.maybe_names(alloc)?;
        self.then_mark(list_of(alloc, names), b')')
    }

    fn maybe_allow(&mut self, alloc: Global) -> Result<Option<Items<NameAt>>, Stop>
        ensures { Reads (parser.optional (parser.is_word "allow") parser.allow self.old) result self.new }
    {
        if self.sees_word(b"allow") {
            let names = self.allow(alloc)?;
            Ok(Some(names))
        } else {
            Ok(None)
        }
    }

    fn switchless_first(&mut self, alloc: Global) -> Result<Tail, Stop>
        ensures { Reads (parser.switchless_first self.old) result self.new }
    {
        self.take_word(b"transition_using_threads")?;
        let allow = self.maybe_allow(alloc)?;
        Ok(Tail {
            allow,
            switchless: true,
        })
    }

    fn allow_first(&mut self, alloc: Global) -> Result<Tail, Stop>
        ensures { Reads (parser.allow_first self.old) result self.new }
    {
        let names = self.allow(alloc)?;
        let switchless = self.given_switchless()?;
        Ok(Tail {
            allow: Some(names),
            switchless,
        })
    }

    #[tactic(auto, unfolding(edl_grammar::specs::Parser::tail))]
    pub fn tail(&mut self, alloc: Global) -> Result<Tail, Stop>
        ensures { Reads (parser.tail self.old) result self.new }
    {
        if self.sees_word(b"transition_using_threads") {
            self.switchless_first(alloc)
        } else if self.sees_word(b"allow") {
            self.allow_first(alloc)
        } else {
            Ok(Tail {
                allow: None,
                switchless: false,
            })
        }
    }
}
