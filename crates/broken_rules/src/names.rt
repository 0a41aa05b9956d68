//! The names of a list by table: whether a name stands at an earlier token too.

ghost use Rattle.std.specs.Prelude.{◌≡◌, ℕ, List, [], ◌∷◌, ◌++◌, OnOk, IfOk, map, option_to_list};
ghost use Rattle.std.specs.List.{flat_map};
ghost use Rattle.edl_grammar.specs.declared.NameAt.{NameAt};
ghost use Rattle.edl_grammar.specs.Files as files;
ghost use Rattle.attr_terms.specs.Kinds.{told};
ghost use Rattle.broken_rules.specs.Names as tables;
ghost use Rattle.broken_rules.specs.Names.{TellsNames};
ghost use Rattle.attr_terms.specs.Rules as rules;

use attr_terms::meanings::name_of;
use edl_grammar::{Declared, EdlFile, EnumValue, FuncDecl, TypeDecl};
use indexmap::IndexMap;
use std::alloc::{AllocError, Global};

/// The names of a list, each with the earliest token that has it.
#[derive(Drop)]
pub struct Names<'a> {
    earliest: IndexMap<&'a [u8], u32>,
}

/// The earlier of two tokens, where there are two.
fn earlier_of(known: Option<u32>, token: u32) -> u32
    ensures { result ≡ tables.earlier_of known token }
{
    match known {
        Some(known) => known.min(token),
        None => token,
    }
}

fn is_before(known: Option<u32>, token: u32) -> bool
    ensures { result ≡ tables.is_before known token }
{
    match known {
        Some(known) => known < token,
        None => false,
    }
}

/// The token of a declared type.
pub fn token_of(decl: &TypeDecl) -> u32
    ensures { result ≡ files.token_of decl.now }
{
    match decl {
        TypeDecl::Enumeration { token, .. } => *token,
        TypeDecl::Structure { token, .. } => *token,
        TypeDecl::Union { token, .. } => *token,
    }
}

impl<'a> Names<'a> {
    fn new(alloc: Global) -> Names<'a>
        ensures { TellsNames result [] }
    {
        Names {
            earliest: IndexMap::new(alloc),
        }
    }

    fn add(&mut self, token: u32, name: &'a [u8]) -> Result<(), AllocError>
        ensures { OnOk result ((list : List NameAt) → TellsNames self.old list
            → TellsNames self.new (list ++ rules.at token name.now ∷ [])) }
    {
        let known = self.earliest.get(name).copied();
        self.earliest.insert(name, earlier_of(known, token))?;
        Ok(())
    }

    fn add_declared(&mut self, declared: &'a [Declared]) -> Result<(), AllocError>
        ensures { OnOk result ((list : List NameAt) → TellsNames self.old list
            → TellsNames self.new (list ++ map rules.declared_name declared.now)) }
    {
        for d in declared {
            self.add(d.token, d.name.bytes())?;
        }
        Ok(())
    }

    fn add_functions(&mut self, functions: &'a [FuncDecl]) -> Result<(), AllocError>
        ensures { OnOk result ((list : List NameAt) → TellsNames self.old list
            → TellsNames self.new (list ++ map rules.function_name functions.now)) }
    {
        for f in functions {
            self.add(f.token, f.name.bytes())?;
        }
        Ok(())
    }

    fn add_values(&mut self, values: &'a [EnumValue]) -> Result<(), AllocError>
        ensures { OnOk result ((list : List NameAt) → TellsNames self.old list
            → TellsNames self.new (list ++ map rules.value_name values.now)) }
    {
        for v in values {
            self.add(v.token, v.name.bytes())?;
        }
        Ok(())
    }

    /// The enumerators of a type.
    fn add_enumerators(&mut self, decl: &'a TypeDecl) -> Result<(), AllocError>
        ensures { OnOk result ((list : List NameAt) → TellsNames self.old list
            → TellsNames self.new (list ++ map rules.value_name (rules.values_of decl.now))) }
    {
        match decl {
            TypeDecl::Enumeration { values, .. } => self.add_values(values.as_slice()),
            TypeDecl::Structure { .. } => Ok(()),
            TypeDecl::Union { .. } => Ok(()),
        }
    }

    /// The type's own name, where it has one.
    fn add_type(&mut self, decl: &'a TypeDecl) -> Result<(), AllocError>
        ensures { OnOk result ((list : List NameAt) → TellsNames self.old list
            → TellsNames self.new (list ++ option_to_list (rules.type_name decl.now))) }
    {
        match name_of(decl) {
            Some(name) => self.add(token_of(decl), name.bytes()),
            None => Ok(()),
        }
    }

    /// Whether the name stands at an earlier token too.
    pub fn is_second(&self, token: u32, name: &[u8]) -> bool
        ensures { (list : List NameAt) → TellsNames self.now list
            → result ≡ rules.is_second list (rules.at token name.now) }
    {
        is_before(self.earliest.get(name).copied(), token)
    }
}

/// The names of members or parameters.
pub fn declared_names<'a>(alloc: Global, declared: &'a [Declared]) -> Result<Names<'a>, AllocError>
    ensures { IfOk result (λ names. TellsNames names (map rules.declared_name declared.now)) }
{
    let mut names = Names::new(alloc);
    names.add_declared(declared)?;
    Ok(names)
}

/// The names of a file's functions, those of both sides.
pub fn function_names<'a>(alloc: Global, tree: &'a EdlFile) -> Result<Names<'a>, AllocError>
    ensures { IfOk result (λ names. TellsNames names (rules.function_names tree.now)) }
{
    let mut names = Names::new(alloc);
    names.add_functions(tree.trusted.as_slice())?;
    names.add_functions(tree.untrusted.as_slice())?;
    Ok(names)
}

/// The names of a file's types.
pub fn type_names<'a>(alloc: Global, tree: &'a EdlFile) -> Result<Names<'a>, AllocError>
    ensures { IfOk result (λ names. TellsNames names (rules.type_names tree.now)) }
{
    let mut names = Names::new(alloc);
    for decl in tree.types.as_slice() {
        names.add_type(decl)?;
    }
    Ok(names)
}

/// The names of a file's enumerators, those of all its types.
pub fn enumerator_names<'a>(alloc: Global, tree: &'a EdlFile) -> Result<Names<'a>, AllocError>
    ensures { IfOk result (λ names. TellsNames names (rules.enumerator_names tree.now)) }
{
    let mut names = Names::new(alloc);
    for decl in tree.types.as_slice() {
        names.add_enumerators(decl)?;
    }
    Ok(names)
}
