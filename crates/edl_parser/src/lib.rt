//! The syntax tree of an interface file.
#![tactic(auto)]

ghost use Rattle.std.specs.Prelude.{◌≡◌, ◌-◌, ◌<◌, ◌≤◌, ◌^◌, length};
ghost use Rattle.sgx_base.specs.Outcome.{Gives};
ghost use Rattle.sgx_base.specs.Stores.{max_file_size};
ghost use Rattle.edl_lexer.specs.Bounds.{LieIn};
ghost use Rattle.edl_grammar.specs.Sentence.{Parses, least, deep_in, fault as fault_of};
ghost use Rattle.edl_grammar.specs.Parser.{parsing};
ghost use Rattle.edl_grammar.specs.Parser as parser;

mod cursor;
mod declarations;
mod depth;
mod enumerations;
mod functions;
mod items;
mod phrases;
mod places;

use cursor::{Cursor, Stop};
use depth::first_deep;
pub use edl_grammar::{
    AttrValue, Attribute, Base, Declared, EdlFile, EnumValue, FuncDecl, Gathered, Import, Include,
    IncludePlace, NameAt, ParseFault, Pick, SourceFile, Tag, TypeDecl, Written, agreement,
    examples, one_tree,
};
use edl_lexer::Token;
use places::fault;
use std::alloc::Global;

/// The fault where so many tokens are left.
fn unexpected(file: u32, bytes: &[u8], tokens: &[Token], left: usize) -> ParseFault
    requires small { length bytes.now ≤ max_file_size }
    requires few { length tokens.now < 2 ^ 32 }
    ensures { let token = length tokens.now - left in
        result ≡ ParseFault.Expected token (fault_of file bytes.now tokens.now token 6) }
{
    let token = tokens.len().saturating_sub(left);
    ParseFault::Expected {
        token: token as u32,
        at: fault(file, bytes, tokens, token, 6),
    }
}

/// The tree, unless one of its declarations is too deep.
fn unless_deep(
    file: u32,
    bytes: &[u8],
    tokens: &[Token],
    tree: EdlFile,
) -> Result<EdlFile, ParseFault>
    requires { length bytes.now ≤ max_file_size }
    ensures { result ≡ parser.unless_deep file bytes.now tokens.now tree (least (deep_in tree)) }
{
    match first_deep(&tree) {
        Some(token) => Err(ParseFault::TooDeep(fault(file, bytes, tokens, token as usize, 7))),
        None => Ok(tree),
    }
}

fn parse_whole(
    alloc: Global,
    file: u32,
    bytes: &[u8],
    tokens: &[Token],
) -> Result<EdlFile, ParseFault>
    requires inside { LieIn bytes.now tokens.now 0 }
    requires small { length bytes.now ≤ max_file_size }
    ensures { Gives (λ e. e ≡ ParseFault.Memory) result (parsing file bytes.now tokens.now) }
{
    let mut cursor = Cursor::new(bytes, tokens);
    match cursor.file(alloc) {
        Ok(tree) => {
            let left = cursor.len();
            if left > 0 {
                Err(unexpected(file, bytes, tokens, left))
            } else {
                unless_deep(file, bytes, tokens, tree)
            }
        }
        Err(Stop::Unexpected) => Err(unexpected(file, bytes, tokens, cursor.len())),
        Err(Stop::Memory) => Err(ParseFault::Memory),
    }
}

/// The tree of the tokens of a file, which has this number.
pub fn parse(
    alloc: Global,
    file: u32,
    bytes: &[u8],
    tokens: &[Token],
) -> Result<EdlFile, ParseFault>
    requires inside { LieIn bytes.now tokens.now 0 }
    requires small { length bytes.now ≤ max_file_size }

    // What the grammar says: the one tree, the first unexpected token, or the first declaration that is too deep.
    ensures meaning { Parses file bytes.now tokens.now result }
    ensures exact { Gives (λ e. e ≡ ParseFault.Memory) result (parsing file bytes.now tokens.now) }
{
    parse_whole(alloc, file, bytes, tokens)
}
