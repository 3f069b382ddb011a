//! Keys of a mapping that were read already.

ghost use Rattle.std.specs.Prelude.{◌≡◌, ◌++◌, ◌∷◌, [], List, ℕ, true, not, IfOk, IfErr};
ghost use Rattle.ksv_yaml.specs.Code.{wants_memory};
ghost use Rattle.ksv_yaml.specs.Reading.{is_among};
ghost use Rattle.ksv_yaml.specs.Keys.{HoldsKeys};

use crate::fault::ReadFault;
use std::alloc::Global;
use std::collections::HashSet;

/// No keys.
pub(crate) fn no_keys(alloc: Global) -> HashSet<Vec<u8>>
    ensures { HoldsKeys result [] }
{
    HashSet::new(alloc)
}

/// Adds a key, and returns whether it is new.
pub(crate) fn add_key(
    alloc: Global,
    keys: &mut HashSet<Vec<u8>>,
    key: &[u8],
) -> Result<bool, ReadFault>
    ensures fresh { (seen : List (List ℕ)) → HoldsKeys keys.old seen → IfOk result (λ fresh. fresh ≡ not (is_among key.now seen)) }
    ensures err { IfErr result (λ fault. wants_memory fault.kind ≡ true) }
    ensures holds { (seen : List (List ℕ)) → HoldsKeys keys.old seen → IfOk result (λ _. HoldsKeys keys.new (seen ++ key.now ∷ [])) }
{
    let copy = Vec::from_slice(alloc, key)?;
    Ok(keys.insert(copy)?)
}
