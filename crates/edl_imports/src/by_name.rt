//! Offered functions by name.

ghost use Rattle.std.specs.Prelude.{◌≡◌, ◌∷◌, [], ◌++◌, List, OnOk, IfOk, option_map, unwrap_or};
ghost use Rattle.edl_grammar.specs.declared.Pick.{Pick as APick};
ghost use Rattle.edl_imports.specs.ByName as spec;
ghost use Rattle.edl_imports.specs.ByName.{Puts, TellsNames, TellsOffered};

use crate::offers::{Offer, picked};
use edl_grammar::{NameAt, Pick, SourceFile};
use indexmap::IndexMap;
use sqlite_items::Items;
use std::alloc::{AllocError, Global};

/// The functions of an offer, each under its name; those of one name in order.
#[derive(Drop)]
pub(crate) struct ByName<'a> {
    trusted: IndexMap<&'a [u8], Items<Pick>>,
    untrusted: IndexMap<&'a [u8], Items<Pick>>,
}

/// The functions under the name.
fn under<'t>(table: &'t IndexMap<&[u8], Items<Pick>>, name: &[u8]) -> &'t [Pick]
    ensures { result.now ≡ spec.under table.now name.now }
{
    match table.get(name) {
        Some(picks) => picks.as_slice(),
        None => &[],
    }
}

fn or_none(alloc: Global, picks: Option<Items<Pick>>) -> Items<Pick>
    ensures { result ≡ unwrap_or picks [] }
{
    match picks {
        Some(picks) => picks,
        None => Items::new(alloc),
    }
}

/// Puts the function to the end of those under the name.
fn put<'a>(
    alloc: Global,
    table: &mut IndexMap<&'a [u8], Items<Pick>>,
    name: &'a [u8],
    pick: Pick,
) -> Result<(), AllocError>
    ensures { OnOk result (Puts name.now pick table.old table.new) }
{
    let mut picks = or_none(alloc, table.swap_remove(name));
    picks.push(pick)?;
    table.insert(name, picks)?;
    Ok(())
}

/// Puts the function under its name.
#[tactic(auto, using(crate::proofs::ByName::names_more, crate::proofs::ByName::names_same))]
fn put_called<'a>(
    alloc: Global,
    table: &mut IndexMap<&'a [u8], Items<Pick>>,
    files: &'a [SourceFile],
    is_trusted: bool,
    pick: Pick,
) -> Result<(), AllocError>
    ensures { OnOk result ((picks : List APick) → TellsNames files.now is_trusted table.old picks
        → TellsNames files.now is_trusted table.new (picks ++ pick ∷ [])) }
{
    match picked(files, is_trusted, pick) {
        Some(function) => put(alloc, table, function.name.bytes(), pick),
        None => Ok(()),
    }
}

/// The functions of a side, each under its name.
fn table_by_name<'a>(
    alloc: Global,
    files: &'a [SourceFile],
    is_trusted: bool,
    picks: &[Pick],
) -> Result<IndexMap<&'a [u8], Items<Pick>>, AllocError>
    ensures { IfOk result (λ table. TellsNames files.now is_trusted table picks.now) }
{
    let mut table = IndexMap::new(alloc);
    for pick in picks {
        put_called(alloc, &mut table, files, is_trusted, *pick)?;
    }
    Ok(table)
}

impl<'a> ByName<'a> {
    pub(crate) fn new(
        alloc: Global,
        files: &'a [SourceFile],
        offered: &Offer,
    ) -> Result<ByName<'a>, AllocError>
        ensures { IfOk result (λ tables. TellsOffered files.now tables offered.now) }
    {
        let trusted = table_by_name(alloc, files, true, offered.trusted.as_slice())?;
        let untrusted = table_by_name(alloc, files, false, offered.untrusted.as_slice())?;
        Ok(ByName { trusted, untrusted })
    }

    /// The trusted functions of this name.
    pub(crate) fn trusted(&self, name: &[u8]) -> &[Pick]
        ensures { result.now ≡ spec.under self.now.trusted name.now }
    {
        under(&self.trusted, name)
    }

    /// The untrusted functions of this name.
    pub(crate) fn untrusted(&self, name: &[u8]) -> &[Pick]
        ensures { result.now ≡ spec.under self.now.untrusted name.now }
    {
        under(&self.untrusted, name)
    }

    /// Whether a function has this name.
    fn has(&self, name: &[u8]) -> bool
        ensures { result ≡ spec.has self.now name.now }
    {
        !self.trusted(name).is_empty() || !self.untrusted(name).is_empty()
    }

    /// The token of the first name that no function has.
    pub(crate) fn first_missing(&self, names: &[NameAt]) -> Option<u32>
        ensures { result ≡ option_map (λ x. x.token) (spec.first_unknown self.now names.now) }
    {
        names
            .iter()
            .find(|name| !self.has(name.name.bytes()))
            .map(|name| name.token)
    }
}
