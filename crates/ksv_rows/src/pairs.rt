//! Rows of one line, `INPUT => WANTED`, below a heading that is their kind. Between them there may be blank lines and lines
//! that begin with `#`.

use crate::expressions::{add_result, spelled};
use crate::table::{Place, Tally, blame};
use std::alloc::{AllocError, Global};
use std::io;

/// Whether a result is the wanted one.
fn is_wanted(alloc: Global, found: &str, wanted: &str) -> Result<bool, AllocError> {
    Ok(found.as_bytes() == spelled(alloc, wanted)?.as_slice())
}

/// Runs a row, and counts it; prints its result if it differs, or that there is no such kind.
fn run_pair(
    rt: &HostRuntime,
    tally: &mut Tally,
    place: Place<'_>,
    heading: &str,
    pair: (&str, &str),
) -> io::Result<()> {
    let (input, wanted) = pair;
    let mut found = String::new(rt.alloc());
    tally.rows = tally.rows.saturating_add(1);
    tally.replies = tally.replies.saturating_add(1);
    if !add_result(rt.alloc(), heading, input, &mut found)? {
        return blame(rt, tally, place, "no such kind");
    }
    if is_wanted(rt.alloc(), found.as_str(), wanted)? {
        return Ok(());
    }
    blame(rt, tally, place, "another result")?;
    println!(rt; "{heading}: {input} => {found}")
}

/// Runs the rows below a heading, which is at a place of a table.
pub(crate) fn run_pairs(
    rt: &HostRuntime,
    tally: &mut Tally,
    place: Place<'_>,
    text: &str,
) -> io::Result<()> {
    let (heading, lines) = text.split_once('\n').unwrap_or((text, ""));
    let (mut place, before) = (place, tally.rows);
    for line in lines.split('\n') {
        place = place.below(1);
        if line.is_empty() || line.starts_with('#') {
            continue;
        }
        match line.split_once(" => ") {
            Some(pair) => run_pair(rt, tally, place, heading, pair)?,
            None => blame(
                rt,
                tally,
                place,
                "no ` => `, and no line `-- KIND` below the heading",
            )?,
        }
    }
    if tally.rows == before {
        return blame(rt, tally, place, "no row below the heading");
    }
    Ok(())
}
