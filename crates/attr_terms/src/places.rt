//! The first places of names by table: parameters of a function, and trusted functions.

ghost use Rattle.std.specs.Prelude.{◌≡◌, ℕ, List, [], ◌∷◌, ◌++◌, length, map, find, position, OnOk, IfOk, option_copied};
ghost use Rattle.std.specs.Str.{bytes_eq};
ghost use Rattle.attr_terms.specs.Kinds.{told};
ghost use Rattle.attr_terms.specs.Places.{TellsPlaces, place_in};

use edl_grammar::Declared;
use indexmap::IndexMap;
use sqlite_items::at;
use std::alloc::{AllocError, Global};

/// The names of a list, each with its first place.
#[derive(Drop)]
pub struct Places<'a> {
    first: IndexMap<&'a [u8], usize>,
}

impl<'a> Places<'a> {
    /// The places of no names.
    pub fn new(alloc: Global) -> Places<'a>
        ensures { TellsPlaces result [] }
    {
        Places {
            first: IndexMap::new(alloc),
        }
    }

    /// The name at this place, which is the next.
    pub fn add(&mut self, place: usize, name: &'a [u8]) -> Result<(), AllocError>
        ensures { OnOk result ((names : List (List ℕ)) → place ≡ length names → TellsPlaces self.old names
            → TellsPlaces self.new (names ++ name.now ∷ [])) }
    {
        let known = self.first.get(name).copied();
        self.first.insert(name, known.unwrap_or(place))?;
        Ok(())
    }

    /// The first place of a name.
    pub fn place(&self, name: &[u8]) -> Option<usize>
        ensures { (names : List (List ℕ)) → TellsPlaces self.now names → result ≡ place_in name.now names }
    {
        self.first.get(name).copied()
    }
}

/// The parameters of a function, with the first place of each name.
#[derive(Drop)]
pub struct Params<'a> {
    pub list: &'a [Declared],
    first: Places<'a>,
    ghost by_name: { (q : List ℕ) → told first.first q ≡ place_in q (map (λ p. p.name) list.now) },
}

fn declared_places<'a>(alloc: Global, list: &'a [Declared]) -> Result<Places<'a>, AllocError>
    ensures { IfOk result (λ places. TellsPlaces places (map (λ p. p.name) list.now)) }
{
    let mut places = Places::new(alloc);
    for (place, p) in list.iter().enumerate() {
        places.add(place, p.name.bytes())?;
    }
    Ok(places)
}

impl<'a> Params<'a> {
    /// These parameters.
    pub fn new(alloc: Global, list: &'a [Declared]) -> Result<Params<'a>, AllocError>
        ensures { IfOk result (λ params. params.list.now ≡ list.now) }
    {
        let first = declared_places(alloc, list)?;
        Ok(Params { list, first })
    }

    /// The place of the first parameter of this name.
    pub fn place(&self, name: &[u8]) -> Option<usize>
        ensures { result ≡ position (λ p. bytes_eq p.name name.now) self.now.list.now }
    {
        self.first.place(name)
    }

    /// The first parameter of this name.
    pub fn named(&self, name: &[u8]) -> Option<&'a Declared>
        ensures { option_copied result ≡ find (λ p. bytes_eq p.name name.now) self.now.list.now }
    {
        match self.place(name) {
            Some(place) => at(self.list, place),
            None => None,
        }
    }
}
