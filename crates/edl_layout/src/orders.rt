//! An order in which sizes are found fast: each type behind those that it holds.
//!
//! Nothing rests on it but speed: sizes are right in any order, and are looked for again until none is found any more.

ghost use Rattle.edl_layout.specs.Named.{IsDeclarations};

use crate::tables::{Declarations, members_of};
use std::alloc::{AllocError, Global};

/// The types that hold a type by value, for each type, and how many by-value members of each type are not ordered yet.
#[derive(Drop)]
struct Holders {
    holders: Vec<Vec<usize>>,
    left: Vec<usize>,
}

impl Holders {
    /// Those of no type.
    fn new(alloc: Global, count: usize) -> Result<Holders, AllocError> {
        let mut holders = Vec::new(alloc);
        for _ in 0..count {
            holders.push(Vec::new(alloc))?;
        }
        let left = vec![in alloc; 0; count]?;
        Ok(Holders { holders, left })
    }

    /// Notes that a type holds another one.
    fn note(&mut self, holder: usize, held: usize) -> Result<(), AllocError> {
        if let Some(holders) = self.holders.get_mut(held) {
            holders.push(holder)?;
        }
        if let Some(left) = self.left.get_mut(holder) {
            *left = left.saturating_add(1);
        }
        Ok(())
    }

    /// Notes that a type is ordered, and puts those behind the others that waited for it alone.
    fn release(&mut self, number: usize, order: &mut Vec<usize>) -> Result<(), AllocError> {
        let Some(holders) = self.holders.get(number) else {
            return Ok(());
        };
        for holder in holders {
            if let Some(left) = self.left.get_mut(*holder) {
                *left = left.saturating_sub(1);
                if *left == 0 {
                    order.push(*holder)?;
                }
            }
        }
        Ok(())
    }

    /// Notes what each type holds.
    fn note_all(&mut self, tables: &Declarations) -> Result<(), AllocError>
        requires { IsDeclarations tables.now }
    {
        for number in 0..tables.count() {
            for member in members_of(tables.decl_at(number)) {
                if let Some(held) = tables.held(&member.written) {
                    self.note(number, held)?;
                }
            }
        }
        Ok(())
    }

    /// Puts the types that hold none first, and then each one when all that it holds are ordered.
    fn put_in_order(&mut self, order: &mut Vec<usize>) -> Result<(), AllocError> {
        for (number, left) in self.left.iter().enumerate() {
            if *left == 0 {
                order.push(number)?;
            }
        }
        for place in 0..self.left.len() {
            let Some(number) = order.get(place).copied() else {
                break;
            };
            self.release(number, order)?;
        }
        Ok(())
    }
}

/// The types that hold none first, and then each one when all that it holds are ordered.
pub(crate) fn order_of(alloc: Global, tables: &Declarations) -> Result<Vec<usize>, AllocError>
    requires { IsDeclarations tables.now }
{
    let mut holders = Holders::new(alloc, tables.count())?;
    holders.note_all(tables)?;
    let mut order = Vec::new(alloc);
    holders.put_in_order(&mut order)?;
    Ok(order)
}
