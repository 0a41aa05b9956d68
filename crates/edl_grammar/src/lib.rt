//! The syntax tree of an interface file, the grammar that says which tokens spell which tree, and what the gathered
//! files of an interface are. A parser that computes agrees with the grammar.
#![tactic(auto)]

ghost use Rattle.std.specs.Prelude.{◌≡◌, ℕ, List};
ghost use Rattle.edl_lexer.specs.declared.Token.{Token};
ghost use Rattle.edl_grammar.specs.declared.EdlFile.{EdlFile};
ghost use Rattle.edl_grammar.specs.Symbols.{Lexed};
ghost use Rattle.edl_grammar.specs.Examples.{Examples};
ghost use Rattle.edl_grammar.specs.Grammar.{file as sentence};
ghost use Rattle.edl_grammar.specs.Sentence.{Parses};
ghost use Rattle.edl_grammar.specs.Parser.{parsing};

use edl_lexer::Token;
use sgx_base::{Fault, Name};
use sqlite_items::Items;
use thiserror::Error;

/// The tree of one file, each list in order. In every node `token` is the number of its naming token.
#[derive(Debug, Drop)]
pub struct EdlFile {
    pub includes: Items<Include>,
    pub imports: Items<Import>,
    pub types: Items<TypeDecl>,
    pub trusted: Items<FuncDecl>,
    pub untrusted: Items<FuncDecl>,
}

/// A name, and the token that it is.
#[derive(Debug, Drop)]
pub struct NameAt {
    pub token: u32,
    pub name: Name,
}

/// An include, whose text has no quotes.
#[derive(Debug, Drop)]
pub struct Include {
    pub token: u32,
    pub text: Name,
    pub place: IncludePlace,
}

/// The block that an include stands in.
#[derive(Clone, Copy, Debug, PartialEq, Eq)]
pub enum IncludePlace {
    Outside,
    Trusted,
    Untrusted,
}

/// An import, whose text has no quotes. No names stand for `*`.
#[derive(Debug, Drop)]
pub struct Import {
    pub token: u32,
    pub text: Name,
    pub names: Option<Items<NameAt>>,
}

/// A declared type. An enumeration without a name has the word `enum` as its token.
#[derive(Debug, Drop)]
pub enum TypeDecl {
    Enumeration {
        token: u32,
        name: Option<Name>,
        values: Items<EnumValue>,
    },
    Structure {
        token: u32,
        name: Name,
        members: Items<Declared>,
    },
    Union {
        token: u32,
        name: Name,
        members: Items<Declared>,
    },
}

/// An enumerator, and the number that is written behind it.
#[derive(Debug, Drop)]
pub struct EnumValue {
    pub token: u32,
    pub name: Name,
    pub negative: bool,
    pub number: Option<u64>,
}

/// A function. `allow` is None where the word is not written.
#[derive(Debug, Drop)]
pub struct FuncDecl {
    pub token: u32,
    pub name: Name,
    pub result: Written,
    pub params: Items<Declared>,
    pub is_public: bool,
    pub switchless: bool,
    pub allow: Option<Items<NameAt>>,
}

/// A member or a parameter. An empty dimension is None.
#[derive(Debug, Drop)]
pub struct Declared {
    pub token: u32,
    pub name: Name,
    pub written: Written,
    pub dims: Items<Option<u64>>,
    pub attrs: Items<Attribute>,
}

/// An attribute of a parameter.
#[derive(Debug, Drop)]
pub struct Attribute {
    pub token: u32,
    pub name: Name,
    pub value: Option<AttrValue>,
}

/// The value of an attribute.
#[derive(Debug, Drop)]
pub enum AttrValue {
    Number(u64),
    Named(NameAt),
}

/// A type as written. `words` are its words in order, and `token` is the last word of its base.
#[derive(Debug, Drop)]
pub struct Written {
    pub token: u32,
    pub words: Items<Name>,
    pub base: Base,
    pub is_const: bool,
    pub stars: u32,
}

/// A type without its stars.
#[derive(Debug, Drop)]
pub enum Base {
    Void,
    Float,
    Double,
    Integer { size: u32, signed: bool },
    Bare(Name),
    Tagged { tag: Tag, name: Name },
}

/// The word before the name of a declared type.
#[derive(Clone, Copy, Debug, PartialEq, Eq)]
pub enum Tag {
    Struct,
    Enum,
    Union,
}

/// The files of an interface in order of reading, and the functions that it takes, in ordinal order.
#[derive(Debug, Drop)]
pub struct Gathered {
    pub files: Items<SourceFile>,
    pub trusted: Items<Pick>,
    pub untrusted: Items<Pick>,
}

/// A file as it was read.
#[derive(Debug, Drop)]
pub struct SourceFile {
    pub name: Name,
    pub tokens: Items<Token>,
    pub tree: EdlFile,
}

/// A function of a file. A pick's place in its list is its ordinal.
#[derive(Clone, Copy, Debug, PartialEq, Eq)]
pub struct Pick {
    pub file: u32,
    pub index: u32,
}

/// Why tokens have no tree, or want of memory.
#[derive(Debug, Drop, Error)]
pub enum ParseFault {
    /// `token` is the number of the first token that no sentence has there, or of the end.
    #[error("unexpected token or end")]
    Expected { token: u32, at: Fault },
    #[error("declaration too deep")]
    TooDeep(Fault),
    #[error("out of memory")]
    Memory,
}

/// Words in a row, and the token of the last.
#[derive(Debug, Drop)]
pub struct Phrase {
    pub token: u32,
    pub words: Items<Name>,
}

/// A number with a sign or without.
#[derive(Clone, Copy, Debug, PartialEq, Eq)]
pub struct Literal {
    pub negative: bool,
    pub number: u64,
}

/// A function without what stands around it.
#[derive(Debug, Drop)]
pub struct Head {
    pub result: Written,
    pub name: NameAt,
    pub params: Items<Declared>,
}

/// What stands behind an untrusted function.
#[derive(Debug, Drop)]
pub struct Tail {
    pub allow: Option<Items<NameAt>>,
    pub switchless: bool,
}

/// What is computed is what the grammar says: the tree of a sentence, or the first fault.
pub fn agreement()
    ensures { (number : ℕ) (bytes : List ℕ) (tokens : List Token)
        → Parses number bytes tokens (parsing number bytes tokens) }
{}

/// A sentence has one tree.
pub fn one_tree()
    ensures { (ss : List Lexed) (a b : EdlFile) → sentence ss a → sentence ss b → a ≡ b }
{}

/// Short files and their trees, as they are computed.
pub fn examples()
    ensures { Examples }
{}
