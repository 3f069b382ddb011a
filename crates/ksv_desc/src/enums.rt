//! Enums.

ghost use Rattle.std.specs.Prelude.{◌≡◌, map, find, option_map, IfOk, OnOk};
ghost use Rattle.std.specs.Ordering.{int_eq};
ghost use Rattle.ksv_desc.specs.Pieces.{plain_enum};
ghost use Rattle.ksv_desc.specs.Code.{Puts, AreFirst};

use std::alloc::{AllocError, Global};
use std::collections::HashMap;
use std::marker::Model;

/// An entry of an enum.
#[derive(Drop)]
pub struct EnumEntry {
    /// The number.
    pub number: i128,
    /// Its id.
    pub id: String,
}

/// Puts the place of an entry into a table, by its number.
fn put_place(
    places: &mut HashMap<i128, usize>,
    place: usize,
    entry: &EnumEntry,
) -> Result<(), AllocError>
    ensures { OnOk result (Puts places.old places.new entry.now.number place) }
{
    let number = entry.number;
    places.insert(number, place)?;
    Ok(())
}

/// The place of the first entry of each number. The entries are put in from the last one on, and a later put takes the place of an
/// earlier one.
fn places_of(alloc: Global, entries: &[EnumEntry]) -> Result<HashMap<i128, usize>, AllocError>
    ensures { IfOk result (AreFirst entries.now) }
{
    let mut left = entries.len();
    let mut places = HashMap::with_capacity(alloc, left)?;
    while left > 0 {
        left -= 1;
        put_place(&mut places, left, &entries[left])?;
    }
    Ok(places)
}

/// The entries of an enum, in the order of the text. Contracts see the list; a number is found in a table.
#[derive(Drop)]
pub(crate) struct Entries {
    list: Vec<EnumEntry>,
    /// The place of the first entry of each number.
    places: HashMap<i128, usize>,
}

impl Model for Entries {
    ghost use Rattle.std.specs.Prelude.{Vec};
    ghost use Rattle.std.specs.declared.alloc.Global.{Global};
    ghost use Rattle.ksv_desc.specs.declared.enums.EnumEntry.{EnumEntry};

    ghost Value = { Vec EnumEntry Global };

    ghost use Rattle.ksv_desc.specs.Code.{AreFirst};

    ghost view = { λ e. e.list };

    ghost invariant = { λ e. AreFirst e.list.items e.places };
}

/// An enum.
#[derive(Drop)]
pub struct EnumDesc {
    pub(crate) id: String,
    entries: Entries,
}

impl EnumDesc {
    /// An enum of this name with these entries, in the order of the text.
    pub fn new(alloc: Global, id: String, entries: Vec<EnumEntry>) -> Result<Self, AllocError>
        ensures id { IfOk result (λ e. e.id ≡ id) }
        ensures entries { IfOk result (λ e. e.entries ≡ entries) }
    {
        let places = places_of(alloc, &entries)?;
        let entries = Entries {
            list: entries,
            places,
        };
        Ok(EnumDesc { id, entries })
    }

    /// The id of a number in it.
    pub fn id_of(&self, number: i128) -> Option<&str>
        ensures { option_map (λ s. s.now) result ≡ option_map (λ m. m.id) (find (λ m. int_eq number m.number) (plain_enum self.now).members) }
    {
        let entries = &self.entries;
        match entries.places.get(&number).copied() {
            Some(place) => match entries.list.get(place) {
                Some(entry) => Some(entry.id.as_str()),
                None => None,
            },
            None => None,
        }
    }
}
