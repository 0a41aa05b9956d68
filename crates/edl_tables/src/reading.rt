//! Files as the layers read them.

ghost use Rattle.std.specs.Prelude.{◌≤◌, length};
ghost use Rattle.sgx_base.specs.Stores.{max_file_size};

use edl_layout::{ForeignType, ForeignTypes};
use edl_lexer::lex;
use edl_parser::{Gathered, Pick, SourceFile, parse};
use sgx_base::Name;
use sqlite_items::Items;
use std::alloc::{AllocError, Global};
use std::test::Fail;

/// Takes so many functions of file 0, in order.
fn pick(picks: &mut Items<Pick>, count: usize) -> Result<(), AllocError> {
    for (index, _) in (0..u32::MAX).zip(0..count) {
        picks.push(Pick { file: 0, index })?;
    }
    Ok(())
}

/// Reads a file of this name.
fn source(alloc: Global, name: Name, bytes: &[u8]) -> Result<SourceFile, Fail>
    requires { length bytes.now ≤ max_file_size }
{
    let tokens = lex(alloc, 0, bytes)?;
    let tree = parse(alloc, 0, bytes, tokens.as_slice())?;
    Ok(SourceFile {
        name,
        tokens: Items::from_vec(tokens),
        tree,
    })
}

/// Puts the file into an interface, which takes all its functions.
fn take(gathered: &mut Gathered, file: SourceFile) -> Result<(), AllocError> {
    pick(&mut gathered.trusted, file.tree.trusted.len())?;
    pick(&mut gathered.untrusted, file.tree.untrusted.len())?;
    gathered.files.push(file)?;
    Ok(())
}

/// The one file of an interface, which takes all its functions.
pub(crate) fn gathered(alloc: Global, bytes: &[u8]) -> Result<Gathered, Fail>
    requires { length bytes.now ≤ max_file_size }
{
    let name = Name::new(alloc, b"a.edl")?;
    let file = source(alloc, name, bytes)?;
    let mut gathered = Gathered {
        files: Items::new(alloc),
        trusted: Items::new(alloc),
        untrusted: Items::new(alloc),
    };
    take(&mut gathered, file)?;
    Ok(gathered)
}

/// Puts a foreign type behind the others.
fn put(
    alloc: Global,
    types: &mut Items<ForeignType>,
    row: &(&[u8], u32, u32),
) -> Result<(), AllocError> {
    let (name, size, align) = *row;
    let name = Name::new(alloc, name)?;
    types.push(ForeignType { name, size, align })?;
    Ok(())
}

/// Foreign types with these names, sizes and alignments.
pub(crate) fn foreign(
    alloc: Global,
    rows: &[(&[u8], u32, u32)],
    lenient: bool,
) -> Result<ForeignTypes, AllocError> {
    let mut types = Items::new(alloc);
    for row in rows {
        put(alloc, &mut types, row)?;
    }
    Ok(ForeignTypes { types, lenient })
}
