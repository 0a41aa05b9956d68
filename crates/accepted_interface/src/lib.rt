//! The interface of files in which no rule is broken.
#![tactic(auto)]

ghost use Rattle.std.specs.Prelude.{◌≡◌, Bool, [], IfOk};
ghost use Rattle.edl_layout.specs.declared.ForeignTypes.{ForeignTypes};
ghost use Rattle.edl_layout.specs.Faults.{HasLayouts};
ghost use Rattle.edl_layout.specs.Table.{IsTable};
ghost use Rattle.attr_terms.specs.Accepted as terms;
ghost use Rattle.attr_terms.specs.Rules.{broken as broken_of};
ghost use Rattle.edl_interface.specs.Sound.{IsSound};

mod accepted;
mod classes;
mod fields;

use accepted::interface_of;
use attr_terms::functions::Functions;
use attr_terms::sizes::Sizes;
use edl_grammar::Gathered;
use edl_interface::Interface;
use edl_layout::Layouts;
use std::alloc::{AllocError, Global};

/// The interface of these functions' files, in which no rule is broken, and that it is sound.
fn accept(alloc: Global, functions: &Functions, layouts: &Layouts) -> Result<Interface, AllocError>
    requires clean { (runner : Bool)
        × (broken_of functions.now.meanings.gathered.now runner
        (terms.size_of functions.now.meanings.gathered.now layouts.now) ≡ []) }
    requires made { (foreign : ForeignTypes) × HasLayouts functions.now.meanings.gathered.now foreign
        × IsTable functions.now.meanings.gathered.now foreign layouts.now }
    ensures interface { IfOk result (λ i. i ≡ terms.interface_of functions.now.meanings.gathered.now layouts.now) }
    ensures sound { IfOk result IsSound }
{
    let sizes = Sizes {
        meanings: &functions.meanings,
        layouts,
    };
    interface_of(alloc, &sizes, functions)
}

/// The interface of gathered files in which no rule is broken, which is sound.
pub fn whole_interface(
    alloc: Global,
    gathered: &Gathered,
    layouts: &Layouts,
) -> Result<Interface, AllocError>
    requires clean { (runner : Bool) × (broken_of gathered.now runner (terms.size_of gathered.now layouts.now) ≡ []) }
    requires made { (foreign : ForeignTypes) × HasLayouts gathered.now foreign
        × IsTable gathered.now foreign layouts.now }
    ensures interface { IfOk result (λ i. i ≡ terms.interface_of gathered.now layouts.now) }
    ensures sound { IfOk result IsSound }
{
    let functions = Functions::new(alloc, gathered)?;
    let interface = accept(alloc, &functions, layouts)?;
    Ok(interface)
}
