//! Types that hold themselves.

ghost use Rattle.std.specs.Prelude.{◌≡◌, ◌<◌, [], ◌∷◌, length, replicate, slice_get, IfOk, Some, false};
ghost use Rattle.edl_grammar.specs.Files.{types_of};
ghost use Rattle.edl_layout.specs.Named.{IsDeclarations};
ghost use Rattle.edl_layout.specs.Walks.{HasGone, HasWalked, IsItself};

use crate::tables::{Declarations, members_of};
use edl_grammar::Declared;
use sqlite_items::Items;
use std::alloc::{AllocError, Global};

/// A walk over the types that a type holds: what it has reached, and from where it has still to go on.
#[derive(Drop)]
pub(crate) struct Walk {
    reached: Items<bool>,
    work: Items<usize>,
}

/// Whether the type of this number is reached.
fn is_marked(reached: &[bool], number: usize) -> bool
    requires { number < length reached.now }
    ensures { slice_get reached.now number ≡ Some result }
{
    reached[number]
}

impl Walk {
    /// A walk that has gone nowhere yet, among so many types.
    fn new(alloc: Global, count: usize) -> Result<Walk, AllocError>
        ensures { IfOk result (λ w. w ≡ record { reached = replicate count false; work = [] }) }
    {
        let reached = Items::from_vec(vec![in alloc; false; count]?);
        Ok(Walk {
            reached,
            work: Items::new(alloc),
        })
    }

    /// Goes to the type that a member holds, if it is not reached yet.
    fn reach(&mut self, tables: &Declarations, member: &Declared) -> Result<(), AllocError>
        requires tables { IsDeclarations tables.now }
        requires count { length self.old.reached ≡ length (types_of tables.now.gathered.now) }
        ensures { IfOk result (λ _. HasGone tables.now.gathered.now tables.now.foreign.now (member.now ∷ []) self.old
            self.new) }
    {
        let Some(number) = tables.held(&member.written) else {
            return Ok(());
        };
        if is_marked(self.reached.as_slice(), number) {
            return Ok(());
        }
        self.work.push(number)?;
        self.reached.set(number, true);
        Ok(())
    }

    /// Goes to all types that these members hold.
    fn reach_all(&mut self, tables: &Declarations, members: &[Declared]) -> Result<(), AllocError>
        requires tables { IsDeclarations tables.now }
        requires count { length self.old.reached ≡ length (types_of tables.now.gathered.now) }
        ensures { IfOk result (λ _. HasGone tables.now.gathered.now tables.now.foreign.now members.now self.old
            self.new) }
    {
        for member in members {
            self.reach(tables, member)?;
        }
        Ok(())
    }

    /// Goes from the members of the type of this number to all that they hold, itself or through others.
    fn go(&mut self, tables: &Declarations, number: usize) -> Result<(), AllocError>
        requires tables { IsDeclarations tables.now }
        requires within { number < length (types_of tables.now.gathered.now) }
        requires nowhere { self.old
            ≡ record { reached = replicate (length (types_of tables.now.gathered.now)) false; work = [] } }
        ensures { IfOk result (λ _. HasWalked tables.now.gathered.now tables.now.foreign.now number self.new) }
    {
        self.reach_all(tables, members_of(tables.decl_at(number)))?;
        while let Some(next) = self.work.pop() {
            self.reach_all(tables, members_of(tables.decl_at(next)))?;
        }
        Ok(())
    }
}

/// Whether the type of this number holds itself, itself or through others, where no same type before it does.
pub(crate) fn holds_itself(
    alloc: Global,
    tables: &Declarations,
    number: usize,
) -> Result<bool, AllocError>
    requires tables { IsDeclarations tables.now }
    requires within { number < length (types_of tables.now.gathered.now) }
    ensures { IfOk result (IsItself tables.now.gathered.now tables.now.foreign.now number) }
{
    let mut walk = Walk::new(alloc, tables.count())?;
    walk.go(tables, number)?;
    Ok(is_marked(walk.reached.as_slice(), number))
}
