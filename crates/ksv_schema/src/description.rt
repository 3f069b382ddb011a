//! A description from a tree.

ghost use Rattle.std.specs.Prelude.{◌≡◌, ◌≢◌, IfOk, IfErr};
ghost use Rattle.ksv_yaml_tree.specs.View.{view};
ghost use Rattle.ksv_schema.specs.Code.{plain};
ghost use Rattle.ksv_schema.specs.Outcome.{States, Refuses};
ghost use Rattle.ksv_desc.specs.Whole.{plain_pieces};
ghost use Rattle.ksv_schema.specs.declared.values.fault.DescFaultKind.TheVariants.{NoMemory};

use crate::members::description::read;
use crate::values::fault::{DescFault, DescFaultKind};
use ksv_desc::Desc;
use ksv_schema_names::Scopes;
use ksv_yaml_tree::Yaml;
use std::alloc::{AllocError, Global};

/// The description that a tree states. For a tree that states none, the fault on the lowest line, and of those on
/// one line the one with the lowest code.
pub fn load(alloc: Global, tree: &Yaml) -> Result<Desc, DescFault>
    ensures described { IfOk result (λ d. States (view tree.now) (plain_pieces d)) }
    ensures refused { IfErr result (λ f. f.kind ≢ NoMemory → Refuses (view tree.now) (plain f)) }
{
    match outcome(alloc, tree) {
        Ok(outcome) => outcome,
        Err(AllocError) => Err(DescFault {
            line: 1,
            kind: DescFaultKind::NoMemory,
        }),
    }
}

/// The description that a tree states, or its least fault.
fn outcome(alloc: Global, tree: &Yaml) -> Result<Result<Desc, DescFault>, AllocError>
    ensures described { IfOk result (λ r. IfOk r (λ d. States (view tree.now) (plain_pieces d))) }
    ensures refused { IfOk result (λ r. IfErr r (λ f. Refuses (view tree.now) (plain f))) }
{
    let scopes = Scopes::new(alloc, tree)?;
    outcome_of(alloc, &scopes)
}

/// The description that is stated by what is declared, or the least fault.
fn outcome_of(alloc: Global, scopes: &Scopes) -> Result<Result<Desc, DescFault>, AllocError>
    ensures described { IfOk result (λ r. IfOk r (λ d. States (view scopes.now) (plain_pieces d))) }
    ensures refused { IfOk result (λ r. IfErr r (λ f. Refuses (view scopes.now) (plain f))) }
{
    match read(alloc, scopes)? {
        Ok(Some(pieces)) => Ok(Ok(Desc::new(pieces))),
        Ok(None) => unreachable!(),
        Err(fault) => Ok(Err(fault)),
    }
}
