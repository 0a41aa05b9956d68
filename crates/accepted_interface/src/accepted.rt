//! The interface of files in which no rule is broken.

ghost use Rattle.std.specs.Prelude.{◌≡◌, ◌≤◌, ◌&&◌, ◌++◌, [], List, Option, map, length, All, IfOk, OnOk, option_map, unwrap_or};
ghost use Rattle.std.specs.List.{flat_map};
ghost use Rattle.std.specs.Option.{option_copied};
ghost use Rattle.edl_layout.specs.Ends.{shape_at};
ghost use Rattle.edl_layout.specs.Frame as frame;
ghost use Rattle.edl_layout.specs.Shape.{Shape};
ghost use Rattle.edl_grammar.specs.Files.{trusted_of};
ghost use Rattle.attr_terms.specs.Accepted as accepted;
ghost use Rattle.accepted_interface.specs.Fields.{HasFields, params_of};
ghost use Rattle.accepted_interface.specs.Fitting.{LengthFits, FunctionFits, InterfaceFits};
ghost use Rattle.attr_terms.specs.Rules.{max_params, max_functions};
ghost use Rattle.attr_terms.specs.Sizing.{files_of, table_of};
ghost use Rattle.attr_terms.specs.Taken.{function_in};

use crate::classes::class;
use crate::fields::Fields;
use attr_terms::attributes::{has, is_by_address, is_string, is_void};
use attr_terms::functions::{Functions, Taken};
use attr_terms::places::Params;
use attr_terms::sizes::Sizes;
use edl_grammar::{Declared, NameAt, Written};
use edl_interface::{Function, Interface, Param, Plain};
use edl_layout::Extent;
use sgx_base::Name;
use sqlite_items::Items;
use std::alloc::{AllocError, Global};

/// Whether there is something to return.
fn is_returning(written: &Written) -> bool
    ensures { result ≡ frame.is_returning written.now }
{
    !is_void(&written.base) || written.stars > 0
}

/// Whether a length follows its field.
fn is_measured(is_trusted: bool, p: &Declared) -> bool
    ensures { result ≡ frame.is_measured is_trusted p.now }
{
    is_trusted && is_by_address(p) && is_string(p)
}

/// The size and the alignment of a parameter's field.
fn field_extent(sizes: &Sizes, p: &Declared) -> Option<Extent>
    ensures { option_map shape_at result
        ≡ frame.field_shape (accepted.shape_of (files_of sizes.now) (table_of sizes.now)) p.now }
{
    if is_by_address(p) || has(p, b"isary") {
        Some(Extent::ADDRESS)
    } else {
        sizes.extent(&p.written)
    }
}

/// The fields of what a function returns.
fn result_fields(sizes: &Sizes, written: &Written) -> Fields
    ensures { HasFields result (frame.result_fields (accepted.shape_of (files_of sizes.now) (table_of sizes.now))
        written.now) }
{
    let mut fields = Fields::new();
    if is_returning(written) {
        fields.push(sizes.extent(written));
    }
    fields
}

/// Puts the fields of a parameter behind the others, and gives the offset of its own in bytes.
fn put_fields(sizes: &Sizes, is_trusted: bool, fields: &mut Fields, p: &Declared) -> u32
    ensures offset { (before : List (Option Shape)) → HasFields fields.old before
        → result ≡ accepted.offset_behind before
        (frame.field_shape (accepted.shape_of (files_of sizes.now) (table_of sizes.now)) p.now) }
    ensures fields { (before : List (Option Shape)) → HasFields fields.old before
        → HasFields fields.new (before ++ frame.param_fields (accepted.shape_of (files_of sizes.now)
        (table_of sizes.now)) is_trusted p.now) }
{
    let offset = fields.push(field_extent(sizes, p));
    if is_measured(is_trusted, p) {
        fields.push(Some(Extent::ADDRESS));
    }
    offset
}

/// A parameter, whose fields are put behind the others.
fn param(
    alloc: Global,
    sizes: &Sizes,
    list: &Params,
    is_trusted: bool,
    fields: &mut Fields,
    p: &Declared,
) -> Result<Param, AllocError>
    requires few { length list.now.list.now ≤ max_params }
    requires fits { LengthFits (files_of sizes.now) (table_of sizes.now) p.now }
    ensures param { (before : List (Option Shape)) → HasFields fields.old before
        → IfOk result (λ q. q ≡ accepted.param_behind (files_of sizes.now) (table_of sizes.now) list.now.list.now
        before p.now) }
    ensures fields { (before : List (Option Shape)) → HasFields fields.old before
        → OnOk result
        (HasFields fields.new (before ++ frame.param_fields (accepted.shape_of (files_of sizes.now)
        (table_of sizes.now)) is_trusted p.now)) }
{
    let offset = put_fields(sizes, is_trusted, fields, p);
    let class = class(sizes, list, p);
    let name = Name::new(alloc, p.name.bytes())?;
    Ok(Param {
        name,
        offset,
        class,
    })
}

/// The parameters of a function, whose fields are put behind the others.
fn params(
    alloc: Global,
    sizes: &Sizes,
    list: &Params,
    is_trusted: bool,
    fields: &mut Fields,
) -> Result<Items<Param>, AllocError>
    requires few { length list.now.list.now ≤ max_params }
    requires fits { All (LengthFits (files_of sizes.now) (table_of sizes.now)) list.now.list.now }
    ensures params { (before : List (Option Shape)) → HasFields fields.old before
        → IfOk result (λ ps. ps ≡ accepted.params_from (files_of sizes.now) (table_of sizes.now) is_trusted
        list.now.list.now before list.now.list.now) }
    ensures fields { (before : List (Option Shape)) → HasFields fields.old before
        → OnOk result
        (HasFields fields.new
        (before ++ flat_map (frame.param_fields (accepted.shape_of (files_of sizes.now) (table_of sizes.now))
        is_trusted) list.now.list.now)) }
{
    let mut done = Items::new(alloc);
    let declared = list.list;
    for p in declared {
        let item = param(alloc, sizes, list, is_trusted, fields, p)?;
        done.push(item)?;
    }
    Ok(done)
}

/// The parameters of a function, and the size of its frame in bytes.
#[derive(Drop)]
struct Framed {
    params: Items<Param>,
    size: u32,
}

fn params_in_frame(alloc: Global, sizes: &Sizes, f: Taken) -> Result<Framed, AllocError>
    requires { FunctionFits (files_of sizes.now) (table_of sizes.now) (function_in f) }
    ensures params { IfOk result (λ r. r.params ≡ params_of (files_of sizes.now) (table_of sizes.now)
        (function_in f.entry)) }
    ensures size { IfOk result (λ r. r.size ≡ accepted.frame_size (files_of sizes.now) (table_of sizes.now)
        (function_in f.entry)) }
{
    let decl = f.decl;
    let list = Params::new(alloc, decl.params.as_slice())?;
    let mut fields = result_fields(sizes, &decl.result);
    let params = params(alloc, sizes, &list, f.is_trusted, &mut fields)?;
    Ok(Framed {
        params,
        size: fields.size(),
    })
}

/// What a function returns.
fn returned(sizes: &Sizes, written: &Written) -> Option<Plain>
    ensures { result ≡ accepted.returned (files_of sizes.now) (table_of sizes.now) written.now }
{
    if is_returning(written) {
        Some(sizes.plain(written))
    } else {
        None
    }
}

/// The ordinal of the first trusted function of this name, 0 where there is none.
fn ordinal(functions: &Functions, name: &[u8]) -> u32
    requires { length (trusted_of functions.now.meanings.gathered.now) ≤ max_functions }
    ensures { result ≡ accepted.ordinal_of functions.now.meanings.gathered.now name.now }
{
    match functions.ordinal(name) {
        Some(ordinal) => ordinal as u32,
        None => 0,
    }
}

/// The ordinals of these trusted functions.
fn ordinals(
    alloc: Global,
    functions: &Functions,
    names: &[NameAt],
) -> Result<Items<u32>, AllocError>
    requires { length (trusted_of functions.now.meanings.gathered.now) ≤ max_functions }
    ensures { IfOk result (λ os. os ≡ map (λ x. accepted.ordinal_of functions.now.meanings.gathered.now x.name)
        names.now) }
{
    let mut done = Items::new(alloc);
    for x in names {
        done.push(ordinal(functions, x.name.bytes()))?;
    }
    Ok(done)
}

/// The entries that may be made during a function.
fn allowed(
    alloc: Global,
    functions: &Functions,
    names: Option<&Items<NameAt>>,
) -> Result<Items<u32>, AllocError>
    requires { length (trusted_of functions.now.meanings.gathered.now) ≤ max_functions }
    ensures { IfOk result (λ os. os ≡ map (λ x. accepted.ordinal_of functions.now.meanings.gathered.now x.name)
        (unwrap_or (option_copied names.entry) [])) }
{
    match names {
        Some(names) => ordinals(alloc, functions, names.as_slice()),
        None => Ok(Items::new(alloc)),
    }
}

/// Whether the host may call it at any time.
fn is_public(f: Taken) -> bool
    ensures { result ≡ (f.entry.is_trusted && f.entry.decl.now.is_public) }
{
    f.is_trusted && f.decl.is_public
}

/// A function as it is called.
fn function(
    alloc: Global,
    sizes: &Sizes,
    functions: &Functions,
    f: Taken,
) -> Result<Function, AllocError>
    requires same { files_of sizes.now ≡ functions.now.meanings.gathered.now }
    requires few { length (trusted_of functions.now.meanings.gathered.now) ≤ max_functions }
    requires fits { FunctionFits (files_of sizes.now) (table_of sizes.now) (function_in f) }
    ensures { IfOk result (λ r. r ≡ accepted.function_of (files_of sizes.now) (table_of sizes.now)
        (function_in f.entry)) }
{
    let decl = f.decl;
    let framed = params_in_frame(alloc, sizes, f)?;
    let allow = allowed(alloc, functions, decl.allow.as_ref())?;
    let name = Name::new(alloc, decl.name.bytes())?;
    Ok(Function {
        name,
        is_public: is_public(f),
        switchless: decl.switchless,
        ret: returned(sizes, &decl.result),
        params: framed.params,
        allow,
        frame_size: framed.size,
    })
}

/// The functions of a side.
fn side(
    alloc: Global,
    sizes: &Sizes,
    functions: &Functions,
    taken: &[Taken],
) -> Result<Items<Function>, AllocError>
    requires same { files_of sizes.now ≡ functions.now.meanings.gathered.now }
    requires few { length (trusted_of functions.now.meanings.gathered.now) ≤ max_functions }
    requires fits { All (FunctionFits (files_of sizes.now) (table_of sizes.now)) (map function_in taken.now) }
    ensures { IfOk result (λ fs. fs ≡ map (accepted.function_of (files_of sizes.now) (table_of sizes.now))
        (map function_in taken.now)) }
{
    let mut done = Items::new(alloc);
    for f in taken {
        let item = function(alloc, sizes, functions, *f)?;
        done.push(item)?;
    }
    Ok(done)
}

/// The interface of files in which no rule is broken.
pub fn interface_of(
    alloc: Global,
    sizes: &Sizes,
    functions: &Functions,
) -> Result<Interface, AllocError>
    requires same { files_of sizes.now ≡ functions.now.meanings.gathered.now }
    requires fits { InterfaceFits (files_of sizes.now) (table_of sizes.now) }
    ensures { IfOk result (λ i. i ≡ accepted.interface_of (files_of sizes.now) (table_of sizes.now)) }
{
    let ecalls = side(alloc, sizes, functions, functions.trusted.as_slice())?;
    let ocalls = side(alloc, sizes, functions, functions.untrusted.as_slice())?;
    Ok(Interface { ecalls, ocalls })
}
