//! The functions of an interface by their names.

ghost use Rattle.std.specs.Prelude.{◌≡◌, ◌<◌, ◌≤◌, ◌^◌, ◌++◌, ◌∷◌, [], List, length, IfOk, IfSome, OnOk};
ghost use Rattle.std.specs.Option.{option_copied};
ghost use Rattle.edl_interface.specs.declared.Function.{Function as Declared};
ghost use Rattle.call_script.specs.Standing as standing;
ghost use Rattle.call_script.specs.Meaning as meaning;
ghost use Rattle.script_values.specs.Functions.{TellsPlaces};

use edl_interface::{Function, Interface};
use indexmap::IndexMap;
use sqlite_items::at;
use std::alloc::{AllocError, Global};
use std::marker::Model;

/// Puts the place of the next function into the table, if it is the first of its name.
fn put_place<'a>(
    places: &mut IndexMap<&'a [u8], usize>,
    place: usize,
    function: &'a Function,
) -> Result<(), AllocError>
    ensures { OnOk result ((functions : List Declared) → place ≡ length functions → TellsPlaces places.old functions
        → TellsPlaces places.new (functions ++ function.now ∷ [])) }
{
    let name = function.name.bytes();
    let known = places.get(name).copied();
    places.insert(name, known.unwrap_or(place))?;
    Ok(())
}

/// The first place of each name.
fn first_places<'a>(
    alloc: Global,
    functions: &'a [Function],
) -> Result<IndexMap<&'a [u8], usize>, AllocError>
    ensures { IfOk result (λ places. TellsPlaces places functions.now) }
{
    let mut places = IndexMap::new(alloc);
    for (place, function) in functions.iter().enumerate() {
        put_place(&mut places, place, function)?;
    }
    Ok(places)
}

/// Functions in the order of their ordinals, each found by its name in the same time whatever their count.
#[derive(Drop)]
pub struct NamedFunctions<'a> {
    list: &'a [Function],
    places: IndexMap<&'a [u8], usize>,
}

impl<'a> Model for NamedFunctions<'a> {
    ghost use Rattle.std.specs.Prelude.{List};
    ghost use Rattle.edl_interface.specs.declared.Function.{Function as Declared};
    ghost use Rattle.script_values.specs.Functions.{TellsPlaces};

    ghost Value = { List Declared };

    ghost view = { λ f. f.list.now };

    ghost invariant = { λ f. TellsPlaces f.places f.list.now };
}

impl<'a> NamedFunctions<'a> {
    fn new(alloc: Global, list: &'a [Function]) -> Result<NamedFunctions<'a>, AllocError>
        ensures { IfOk result (λ functions. functions ≡ list.now) }
    {
        let places = first_places(alloc, list)?;
        Ok(NamedFunctions { list, places })
    }

    /// The functions in the order of their ordinals.
    pub fn as_slice(&self) -> &'a [Function]
        ensures { result.now ≡ self.now }
    {
        self.list
    }

    /// The place of the first function of this name.
    pub fn place_of(&self, name: &[u8]) -> Option<usize>
        ensures value { result ≡ meaning.ordinal_in self.now name.now }
        ensures within { IfSome result (λ place. place < length self.now) }
    {
        self.places.get(name).copied()
    }

    /// The first function of this name.
    #[tactic(auto, using(crate::proofs::FunctionLaws::is_named, crate::proofs::FunctionLaws::is_not_named))]
    pub fn named(&self, name: &[u8]) -> Option<&'a Function>
        ensures { option_copied result ≡ standing.named self.now name.now }
    {
        match self.place_of(name) {
            Some(place) => at(self.list, place),
            None => None,
        }
    }

    /// The place of the first function of this name, 0 where there is none.
    pub fn ordinal_of(&self, name: &[u8]) -> u32
        requires { length self.now ≤ 2 ^ 32 }
        ensures { result ≡ meaning.ordinal_of self.now name.now }
    {
        match self.place_of(name) {
            Some(place) => place as u32,
            None => 0,
        }
    }
}

/// An interface whose functions are found by their names.
#[derive(Drop)]
pub struct NamedInterface<'a> {
    ecalls: NamedFunctions<'a>,
    ocalls: NamedFunctions<'a>,
}

impl<'a> Model for NamedInterface<'a> {
    ghost use Rattle.edl_interface.specs.declared.Interface.{Interface as Declared};

    ghost Value = { Declared };

    ghost view = { λ i. record { ecalls = i.ecalls; ocalls = i.ocalls } };
}

impl<'a> NamedInterface<'a> {
    pub fn new(alloc: Global, interface: &'a Interface) -> Result<NamedInterface<'a>, AllocError>
        ensures { IfOk result (λ named. named ≡ interface.now) }
    {
        let ecalls = NamedFunctions::new(alloc, interface.ecalls.as_slice())?;
        let ocalls = NamedFunctions::new(alloc, interface.ocalls.as_slice())?;
        Ok(NamedInterface { ecalls, ocalls })
    }

    pub fn ecalls(&self) -> &NamedFunctions<'a>
        ensures { result.now ≡ self.now.ecalls }
    {
        &self.ecalls
    }

    pub fn ocalls(&self) -> &NamedFunctions<'a>
        ensures { result.now ≡ self.now.ocalls }
    {
        &self.ocalls
    }
}
