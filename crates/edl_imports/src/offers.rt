//! The functions that files offer.

ghost use Rattle.std.specs.Prelude.{◌≡◌, ◌<◌, ◌^◌, ℕ, Bool, OnOk, IfOk, fold, option_map, length};
ghost use Rattle.edl_imports.specs.Offers as spec;
ghost use Rattle.edl_imports.specs.ByName as by_name;
ghost use Rattle.edl_imports.specs.Tables.{TellsPicks, TellsOffer, IsTold, AreJoined};

use crate::by_name::ByName;
use edl_grammar::{EdlFile, FuncDecl, NameAt, Pick, SourceFile};
use indexmap::IndexSet;
use sqlite_items::Items;
use std::alloc::{AllocError, Global};

/// Functions in order, of both sides.
#[derive(Debug, Drop)]
pub(crate) struct Offer {
    pub trusted: Items<Pick>,
    pub untrusted: Items<Pick>,
}

/// The functions of a side.
pub(crate) fn side(tree: &EdlFile, is_trusted: bool) -> &[FuncDecl]
    ensures { result.now ≡ spec.side is_trusted tree.now }
{
    if is_trusted {
        tree.trusted.as_slice()
    } else {
        tree.untrusted.as_slice()
    }
}

/// So many functions of a file, in order.
fn picks(alloc: Global, file: u32, count: usize) -> Result<Items<Pick>, AllocError>
    ensures { IfOk result (λ picks. picks ≡ spec.picks file count) }
{
    // There are fewer functions than tokens, which 32 bits count.
    let Ok(count) = u32::try_from(count) else {
        return Err(AllocError);
    };
    let mut picks = Items::new(alloc);
    for index in 0..count {
        picks.push(Pick { file, index })?;
    }
    Ok(picks)
}

/// The file's own functions.
pub(crate) fn own(alloc: Global, file: u32, tree: &EdlFile) -> Result<Offer, AllocError>
    ensures { IfOk result (λ offer. offer ≡ spec.own file tree.now) }
{
    let trusted = picks(alloc, file, tree.trusted.len())?;
    let untrusted = picks(alloc, file, tree.untrusted.len())?;
    Ok(Offer { trusted, untrusted })
}

/// The functions of a list by table.
fn table_of(alloc: Global, picks: &[Pick]) -> Result<IndexSet<(u32, u32)>, AllocError>
    ensures { IfOk result (λ table. TellsPicks table picks.now) }
{
    let mut table = IndexSet::new(alloc);
    for pick in picks {
        table.insert((pick.file, pick.index))?;
    }
    Ok(table)
}

/// Puts the function to the end, where it is not among them.
fn add(
    picks: &mut Items<Pick>,
    table: &mut IndexSet<(u32, u32)>,
    pick: Pick,
) -> Result<(), AllocError>
    ensures { OnOk result (TellsPicks table.old picks.old
        → (picks.new ≡ spec.with_pick picks.old pick) × TellsPicks table.new picks.new) }
{
    if table.insert((pick.file, pick.index))? {
        picks.push(pick)?;
    }
    Ok(())
}

/// Puts the functions to the end, each where it is not among them.
fn add_all(
    picks: &mut Items<Pick>,
    table: &mut IndexSet<(u32, u32)>,
    more: &[Pick],
) -> Result<(), AllocError>
    ensures { OnOk result (TellsPicks table.old picks.old
        → (picks.new ≡ spec.joined picks.old more.now) × TellsPicks table.new picks.new) }
{
    for pick in more {
        add(picks, table, *pick)?;
    }
    Ok(())
}

/// The declaration that a pick of a side stands for.
pub(crate) fn picked(files: &[SourceFile], is_trusted: bool, pick: Pick) -> Option<&FuncDecl>
    ensures { option_map (λ f. f.now) result ≡ spec.picked files.now is_trusted pick }
{
    let file = files.get(pick.file as usize)?;
    side(&file.tree, is_trusted).get(pick.index as usize)
}

/// The functions of an offer by table.
#[derive(Drop)]
pub(crate) struct Joined {
    trusted: IndexSet<(u32, u32)>,
    untrusted: IndexSet<(u32, u32)>,
}

/// An offer to which functions are joined, and those that it has by table.
#[derive(Drop)]
pub(crate) struct Growing {
    pub offer: Offer,
    pub tables: Joined,
}

impl Offer {
    fn tables(&self, alloc: Global) -> Result<Joined, AllocError>
        ensures { IfOk result (λ tables. TellsOffer tables self.now) }
    {
        let trusted = table_of(alloc, self.trusted.as_slice())?;
        let untrusted = table_of(alloc, self.untrusted.as_slice())?;
        Ok(Joined { trusted, untrusted })
    }
}

impl Growing {
    pub(crate) fn new(alloc: Global, offer: Offer) -> Result<Growing, AllocError>
        ensures begins { IfOk result (λ growing. growing.offer ≡ offer) }
        ensures told { IfOk result IsTold }
    {
        let tables = offer.tables(alloc)?;
        Ok(Growing { offer, tables })
    }

    /// Puts all that is offered behind.
    pub(crate) fn join(&mut self, offered: &Offer) -> Result<(), AllocError>
        requires { IsTold self.old }
        ensures both { OnOk result (self.new.offer ≡ spec.both self.old.offer offered.now) }
        ensures told { OnOk result (IsTold self.new) }
    {
        add_all(
            &mut self.offer.trusted,
            &mut self.tables.trusted,
            offered.trusted.as_slice(),
        )?;
        add_all(
            &mut self.offer.untrusted,
            &mut self.tables.untrusted,
            offered.untrusted.as_slice(),
        )
    }

    /// Puts the offered functions of this name behind.
    fn join_name(&mut self, offered: &ByName<'_>, name: &[u8]) -> Result<(), AllocError>
        requires { IsTold self.old }
        ensures both { OnOk result (self.new.offer ≡ by_name.with_under offered.now self.old.offer name.now) }
        ensures told { OnOk result (IsTold self.new) }
    {
        add_all(
            &mut self.offer.trusted,
            &mut self.tables.trusted,
            offered.trusted(name),
        )?;
        add_all(
            &mut self.offer.untrusted,
            &mut self.tables.untrusted,
            offered.untrusted(name),
        )
    }

    /// The same, unless the name is among those of which it was done before.
    fn join_once<'n>(
        &mut self,
        seen: &mut IndexSet<&'n [u8]>,
        offered: &ByName<'_>,
        name: &'n [u8],
    ) -> Result<(), AllocError>
        requires told { IsTold self.old }
        requires joined { AreJoined seen.old offered.now self.old.offer }
        ensures both { OnOk result (self.new.offer ≡ by_name.with_under offered.now self.old.offer name.now) }
        ensures told { OnOk result (IsTold self.new) }
        ensures joined { OnOk result (AreJoined seen.new offered.now self.new.offer) }
    {
        if seen.insert(name)? {
            self.join_name(offered, name)?;
        }
        Ok(())
    }

    /// Puts the offered functions of these names behind, in the order of the names.
    pub(crate) fn join_names(
        &mut self,
        alloc: Global,
        offered: &ByName<'_>,
        names: &[NameAt],
    ) -> Result<(), AllocError>
        requires { IsTold self.old }
        ensures both { OnOk result (self.new.offer ≡ by_name.with_all_under offered.now self.old.offer names.now) }
        ensures told { OnOk result (IsTold self.new) }
    {
        let mut seen = IndexSet::new(alloc);
        for name in names {
            self.join_once(&mut seen, offered, name.name.bytes())?;
        }
        Ok(())
    }
}
