//! Laws of tables of names, each a contract of a function that does nothing.

ghost use Rattle.ksv_desc.specs.Names.{NamesAreTabled};

/// A table has the names that were added to it and those that were there before, and the place of each is its
/// number.
pub fn names_are_tabled()
    ensures { NamesAreTabled }
{}
