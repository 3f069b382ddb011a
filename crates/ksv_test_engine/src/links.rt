//! Links between slots: what an overwrite takes along them, and how many looks it takes; and slots that go whatever it touches.
//!
//! Where the values are from: by hand. Slot 0 uses bytes 10 to 199, which are in pages 0 to 3 of 64 bytes; slot 1 asked it twice. The
//! most looks are 8 times what is near, as the terms in each test count it; the fewest are the slots that go.
ghost use Rattle.std.specs.Prelude.{◌≡◌, [], OnOk};

use ksv_bytes::{Change, Use};
use ksv_memo_links::Links;
use std::alloc::{AllocError, Global};
use std::test::Fail;

/// Keeps two slots, of which the first uses four pages and the second asked it twice.
fn ask_twice(links: &mut Links) -> Result<(), AllocError>
    requires none { links.old.kept ≡ [] }
    requires idle { links.old.waits ≡ [] }
    ensures { OnOk result (links.new.waits ≡ []) }
{
    links.reach(2)?;
    links.keep(0, &[], &[Use::Bytes(10, 200)])?;
    links.keep(1, &[0, 0], &[])
}

/// Whether an overwrite within the third page takes both slots, in no more looks than near: one page and use that meet,
/// two slots, two asks, and four pages of a use.
fn takes_both(links: &mut Links) -> bool
    requires { links.old.waits ≡ [] }
{
    let are_kept = links.count() == 2;
    let before = links.looks();
    links.forget(Change::Overwrite { at: 150, n: 1 }, 0, &[]);
    let are_waiting = links.waiting() == 2;
    let is_second = links.take() == Some(1);
    let is_first = links.take() == Some(0);
    let is_all = links.take().is_none();
    let looked = links.looks().saturating_sub(before);
    let are_near = looked >= 2 && looked <= 8 * (1 + 1 + 2 + 2 + 4);
    are_kept && are_waiting && is_second && is_first && is_all && are_near && links.count() == 0
}

/// Whether an overwrite next to the used bytes, in a page that they meet, takes nothing.
fn takes_none(links: &mut Links) -> bool
    requires { links.old.waits ≡ [] }
{
    let before = links.looks();
    links.forget(Change::Overwrite { at: 200, n: 9 }, 0, &[]);
    let is_none = links.take().is_none();
    let looked = links.looks().saturating_sub(before);
    is_none && looked <= 8 * (1 + 1) && links.count() == 2
}

/// Whether an overwrite of two slots takes both, or none.
fn takes(links: &mut Links, both: bool) -> Result<bool, AllocError>
    requires none { links.old.kept ≡ [] }
    requires idle { links.old.waits ≡ [] }
{
    ask_twice(links)?;
    Ok(if both {
        takes_both(links)
    } else {
        takes_none(links)
    })
}

/// The same of two new slots.
fn takes_new(alloc: Global, both: bool) -> Result<bool, AllocError> {
    let mut links = Links::new(alloc);
    let are_taken = takes(&mut links, both);
    drop(links);
    are_taken
}

/// Keeps two slots, of which the second asked the first twice, and a third that has the same uses as the first. Whether an
/// overwrite that touches none takes the first, which goes also, and the second, and leaves the third.
fn takes_also(links: &mut Links) -> Result<bool, AllocError>
    requires none { links.old.kept ≡ [] }
    requires idle { links.old.waits ≡ [] }
{
    links.reach(3)?;
    links.keep(0, &[], &[Use::Bytes(10, 200)])?;
    links.keep(1, &[0, 0], &[])?;
    links.keep(2, &[], &[Use::Bytes(10, 200)])?;
    links.forget(Change::Overwrite { at: 200, n: 9 }, 0, &[0]);
    let are_waiting = links.waiting() == 2;
    let is_second = links.take() == Some(1);
    let is_first = links.take() == Some(0);
    let is_all = links.take().is_none();
    Ok(are_waiting && is_second && is_first && is_all && links.count() == 1)
}

/// The same of new slots.
fn takes_new_also(alloc: Global) -> Result<bool, AllocError> {
    let mut links = Links::new(alloc);
    let are_taken = takes_also(&mut links);
    drop(links);
    are_taken
}

#[test]
fn takes_slots_that_go_also_with_all_that_asked_them(rt: HostRuntime) -> Result<(), Fail> {
    let are_taken = takes_new_also(rt.alloc())?;
    assert!(rt; are_taken);
    Ok(())
}

#[test]
fn takes_a_use_over_several_pages(rt: HostRuntime) -> Result<(), Fail> {
    let are_both = takes_new(rt.alloc(), true)?;
    let are_none = takes_new(rt.alloc(), false)?;
    assert!(rt; are_both && are_none);
    Ok(())
}
