//! Items and blocks, which go to the ends of a file.

ghost use Rattle.std.specs.Prelude.{◌≡◌, OnOk};
ghost use Rattle.edl_grammar.specs.Grammar as grammar;
ghost use Rattle.edl_grammar.specs.Parser as parser;
ghost use Rattle.edl_parser.specs.Reads.{Reads, Adds};

use crate::cursor::{Cursor, Stop};
use crate::functions::function;
use edl_grammar::{EdlFile, FuncDecl, Import, Include, IncludePlace, NameAt, Tail, TypeDecl};
use sqlite_items::Items;
use std::alloc::{AllocError, Global};

fn nothing(alloc: Global) -> EdlFile
    ensures { result ≡ grammar.nothing }
{
    EdlFile {
        includes: Items::new(alloc),
        imports: Items::new(alloc),
        types: Items::new(alloc),
        trusted: Items::new(alloc),
        untrusted: Items::new(alloc),
    }
}

fn add_include(file: &mut EdlFile, include: Include) -> Result<(), AllocError>
    ensures { OnOk result (file.new ≡ grammar.both file.old (grammar.include_item include)) }
{
    file.includes.push(include)
}

fn add_import(file: &mut EdlFile, import: Import) -> Result<(), AllocError>
    ensures { OnOk result (file.new ≡ grammar.both file.old (grammar.import_item import)) }
{
    file.imports.push(import)
}

fn add_type(file: &mut EdlFile, decl: TypeDecl) -> Result<(), AllocError>
    ensures { OnOk result (file.new ≡ grammar.both file.old (grammar.type_as_item decl)) }
{
    file.types.push(decl)
}

fn add_trusted(file: &mut EdlFile, decl: FuncDecl) -> Result<(), AllocError>
    ensures { OnOk result (file.new ≡ grammar.both file.old (grammar.trusted_as_item decl)) }
{
    file.trusted.push(decl)
}

fn add_untrusted(file: &mut EdlFile, decl: FuncDecl) -> Result<(), AllocError>
    ensures { OnOk result (file.new ≡ grammar.both file.old (grammar.untrusted_as_item decl)) }
{
    file.untrusted.push(decl)
}

impl Cursor<'_> {
    fn include(
        &mut self,
        alloc: Global,
        place: IncludePlace,
        file: &mut EdlFile,
    ) -> Result<(), Stop>
        ensures { Adds (parser.include place self.old) result file.old file.new self.new }
    {
        self.take_word(b"include")?;
        let NameAt { token, name: text } = self.take_text(alloc)?;
        add_include(file, Include { token, text, place })?;
        Ok(())
    }

    /// `*`, which is None, or names.
    fn import_names(&mut self, alloc: Global) -> Result<Option<Items<NameAt>>, Stop>
        ensures { Reads (parser.import_names self.old) result self.new }
    {
        if self.sees_mark(b'*') {
            self.take_mark(b'*')?;
            Ok(None)
        } else {
            let names = self.names(alloc)?;
            Ok(Some(names))
        }
    }

    fn import(&mut self, alloc: Global, file: &mut EdlFile) -> Result<(), Stop>
        ensures { Adds (parser.«import» self.old) result file.old file.new self.new }
    {
        self.take_word(b"from")?;
        let NameAt { token, name: text } = self.take_text(alloc)?;
        self.take_word(b"import")?;
        let names = self.import_names(alloc)?;
        let import = self.then_mark(Import { token, text, names }, b';')?;
        add_import(file, import)?;
        Ok(())
    }

    fn enumeration_item(&mut self, alloc: Global, file: &mut EdlFile) -> Result<(), Stop>
        ensures { Adds (parser.type_item parser.enumeration self.old) result file.old file.new self.new }
    {
        let decl = self.enumeration(alloc)?;
        add_type(file, decl)?;
        Ok(())
    }

    fn structure_item(&mut self, alloc: Global, file: &mut EdlFile) -> Result<(), Stop>
        ensures { Adds (parser.type_item parser.structure self.old) result file.old file.new self.new }
    {
        let decl = self.structure(alloc)?;
        add_type(file, decl)?;
        Ok(())
    }

    fn union_item(&mut self, alloc: Global, file: &mut EdlFile) -> Result<(), Stop>
        ensures { Adds (parser.type_item parser.union self.old) result file.old file.new self.new }
    {
        let decl = self.union(alloc)?;
        add_type(file, decl)?;
        Ok(())
    }

    fn trusted_function(&mut self, alloc: Global, file: &mut EdlFile) -> Result<(), Stop>
        ensures { Adds (parser.trusted_function self.old) result file.old file.new self.new }
    {
        let is_public = self.given_word(b"public")?;
        let head = self.func(alloc)?;
        let switchless = self.given_switchless()?;
        let tail = Tail {
            allow: None,
            switchless,
        };
        let decl = self.then_mark(function(head, is_public, tail), b';')?;
        add_trusted(file, decl)?;
        Ok(())
    }

    /// `[cdecl]`, which changes nothing.
    fn convention(&mut self) -> Result<u32, Stop>
        ensures { Reads (parser.convention self.old) result self.new }
    {
        self.take_mark(b'[')?;
        self.take_word(b"cdecl")?;
        self.take_mark(b']')
    }

    fn given_convention(&mut self) -> Result<bool, Stop>
        ensures { Reads (parser.given (parser.is_mark "[") parser.convention self.old) result self.new }
    {
        if self.sees_mark(b'[') {
            self.convention()?;
            Ok(true)
        } else {
            Ok(false)
        }
    }

    fn untrusted_function(&mut self, alloc: Global, file: &mut EdlFile) -> Result<(), Stop>
        ensures { Adds (parser.untrusted_function self.old) result file.old file.new self.new }
    {
        self.given_convention()?;
        let head = self.func(alloc)?;
        let tail = self.tail(alloc)?;
        let decl = self.then_mark(function(head, false, tail), b';')?;
        add_untrusted(file, decl)?;
        Ok(())
    }

    #[tactic(auto, unfolding(edl_grammar::specs::Parser::trusted_item))]
    fn trusted_item(&mut self, alloc: Global, file: &mut EdlFile) -> Result<(), Stop>
        ensures { Adds (parser.trusted_item self.old) result file.old file.new self.new }
    {
        if self.sees_word(b"include") {
            self.include(alloc, IncludePlace::Trusted, file)
        } else {
            self.trusted_function(alloc, file)
        }
    }

    #[tactic(auto, unfolding(edl_grammar::specs::Parser::untrusted_item))]
    fn untrusted_item(&mut self, alloc: Global, file: &mut EdlFile) -> Result<(), Stop>
        ensures { Adds (parser.untrusted_item self.old) result file.old file.new self.new }
    {
        if self.sees_word(b"include") {
            self.include(alloc, IncludePlace::Untrusted, file)
        } else {
            self.untrusted_function(alloc, file)
        }
    }

    #[tactic(auto, using(crate::proofs::Sees::sees_trusted))]
    fn sees_trusted_item(&self) -> bool
        ensures { result ≡ parser.sees parser.begins_trusted self.now }
    {
        self.sees_word(b"include") || self.sees_word(b"public") || self.sees_type()
    }

    #[tactic(auto, using(crate::proofs::Sees::sees_untrusted))]
    fn sees_untrusted_item(&self) -> bool
        ensures { result ≡ parser.sees parser.begins_untrusted self.now }
    {
        self.sees_word(b"include") || self.sees_mark(b'[') || self.sees_type()
    }

    #[tactic(auto, using(crate::proofs::Sees::sees_item))]
    fn sees_item(&self) -> bool
        ensures { result ≡ parser.sees parser.begins_item self.now }
    {
        self.sees_word(b"include")
            || self.sees_word(b"from")
            || self.sees_word(b"enum")
            || self.sees_word(b"struct")
            || self.sees_word(b"union")
            || self.sees_word(b"trusted")
            || self.sees_word(b"untrusted")
    }

    fn trusted_items(&mut self, alloc: Global, file: &mut EdlFile) -> Result<(), Stop>
        ensures { Adds (parser.items parser.begins_trusted parser.trusted_item self.old)
            result file.old file.new self.new }
    {
        while self.sees_trusted_item() {
            self.trusted_item(alloc, file)?;
        }
        Ok(())
    }

    fn untrusted_items(&mut self, alloc: Global, file: &mut EdlFile) -> Result<(), Stop>
        ensures { Adds (parser.items parser.begins_untrusted parser.untrusted_item self.old)
            result file.old file.new self.new }
    {
        while self.sees_untrusted_item() {
            self.untrusted_item(alloc, file)?;
        }
        Ok(())
    }

    fn trusted_block(&mut self, alloc: Global, file: &mut EdlFile) -> Result<(), Stop>
        ensures { Adds (parser.block "trusted" parser.begins_trusted parser.trusted_item self.old)
            result file.old file.new self.new }
    {
        self.take_word(b"trusted")?;
        self.take_mark(b'{')?;
        self.trusted_items(alloc, file)?;
        self.closed(())
    }

    fn untrusted_block(&mut self, alloc: Global, file: &mut EdlFile) -> Result<(), Stop>
        ensures { Adds (parser.block "untrusted" parser.begins_untrusted parser.untrusted_item self.old)
            result file.old file.new self.new }
    {
        self.take_word(b"untrusted")?;
        self.take_mark(b'{')?;
        self.untrusted_items(alloc, file)?;
        self.closed(())
    }

    fn block_item(&mut self, alloc: Global, file: &mut EdlFile) -> Result<(), Stop>
        ensures { Adds (parser.block_item self.old) result file.old file.new self.new }
    {
        if self.sees_word(b"trusted") {
            self.trusted_block(alloc, file)
        } else {
            self.untrusted_block(alloc, file)
        }
    }

    fn declaring_item(&mut self, alloc: Global, file: &mut EdlFile) -> Result<(), Stop>
        ensures { Adds (parser.declaring_item self.old) result file.old file.new self.new }
    {
        if self.sees_word(b"enum") {
            self.enumeration_item(alloc, file)
        } else if self.sees_word(b"struct") {
            self.structure_item(alloc, file)
        } else if self.sees_word(b"union") {
            self.union_item(alloc, file)
        } else {
            self.block_item(alloc, file)
        }
    }

    #[tactic(auto, unfolding(edl_grammar::specs::Parser::item))]
    fn item(&mut self, alloc: Global, file: &mut EdlFile) -> Result<(), Stop>
        ensures { Adds (parser.item self.old) result file.old file.new self.new }
    {
        if self.sees_word(b"include") {
            self.include(alloc, IncludePlace::Outside, file)
        } else if self.sees_word(b"from") {
            self.import(alloc, file)
        } else {
            self.declaring_item(alloc, file)
        }
    }

    fn items(&mut self, alloc: Global, file: &mut EdlFile) -> Result<(), Stop>
        ensures { Adds (parser.items parser.begins_item parser.item self.old) result file.old file.new self.new }
    {
        while self.sees_item() {
            self.item(alloc, file)?;
        }
        Ok(())
    }

    /// A file whole.
    pub fn file(&mut self, alloc: Global) -> Result<EdlFile, Stop>
        ensures { Reads (parser.file self.old) result self.new }
    {
        self.take_word(b"enclave")?;
        self.take_mark(b'{')?;
        let mut file = nothing(alloc);
        self.items(alloc, &mut file)?;
        self.closed(file)
    }
}
