//! Where the expressions of the member are evaluated by which something is read.
#![tactic(auto)]

ghost use Rattle.std.specs.Prelude.{◌≡◌, IfOk};
ghost use Rattle.ksv_expr_value.specs.Trail.{last, parent};
ghost use Rattle.ksv_rule_meaning.specs.Heads.{member_setting};
ghost use Rattle.ksv_rules.specs.Code.{home_of};

use ksv_expr_value::{Ctx, Path, Place, Step};
use ksv_nodes::Origin;
use std::alloc::{AllocError, Global};

/// The path of the object whose attribute is the list of an element.
fn above_list(alloc: Global, element: &Path) -> Result<Path, AllocError>
    ensures { IfOk result (λ home. home ≡ parent (parent element.now)) }
{
    let list = element.parent(alloc)?;
    list.parent(alloc)
}

/// The path of the object that holds the member by which what is at a path is read.
pub(crate) fn home_of(alloc: Global, path: &Path) -> Result<Path, AllocError>
    ensures { IfOk result (λ home. home ≡ home_of path.now (last path.now)) }
{
    match path.last() {
        Some(Step::Index(_)) => above_list(alloc, path),
        _ => path.parent(alloc),
    }
}

/// The context of the member by which what is at a path is read, in its home; faults are at `here`.
pub(crate) fn member_ctx<'p>(
    home: &'p Path,
    here: &'p Path,
    path: &Path,
    origin: Origin,
    start: Place,
) -> Ctx<'p>
    requires { home.now ≡ home_of path.now (last path.now) }
    ensures { result ≡ member_setting here.now path.now (last path.now) origin start }
{
    let ctx = Ctx::new(home, origin.home, start, here);
    match path.last() {
        Some(Step::Index(index)) => ctx.within(index),
        _ => ctx,
    }
}
