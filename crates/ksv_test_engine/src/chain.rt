//! A chain of nodes that is a hundred thousand deep.
//!
//! Where the values are from: by hand. Link 0 answers the file's size, which is 2, each other link one more than the link before it:
//! link n answers n + 2 and keeps n + 1 links. Link 0 takes a call, each other one two: 2n + 1 turns.
ghost use Rattle.ksv_memo_rules.specs.Meaning.{on};
ghost use Rattle.ksv_memo_rules.specs.Right.{IsRight};
ghost use Rattle.ksv_test_engine.specs.Chain.{chain_meaning};

use crate::edits::new_engine;
use crate::samples::chain::Chain;
use crate::samples::link::Link;
use ksv_bytes::Buffer;
use ksv_memo::{Answer, Engine};
use std::alloc::{AllocError, Global};
use std::test::Fail;

/// Whether a link of a chain has this value.
fn has_value(
    engine: &mut Engine<Chain>,
    bytes: &Buffer,
    number: u32,
    wanted: u32,
) -> Result<bool, AllocError>
    requires { IsRight (on chain_meaning bytes.now) engine.old.kept }
{
    match engine.ask(&Chain, bytes, Link { number })? {
        Answer::Value(value) => Ok(value == wanted),
        _ => Ok(false),
    }
}

/// Whether a link of a chain has a value, after which this many links are kept and turns counted.
fn is_chained(
    engine: &mut Engine<Chain>,
    bytes: &Buffer,
    number: u32,
    kept: usize,
    turns: u64,
) -> Result<bool, AllocError>
    requires { IsRight (on chain_meaning bytes.now) engine.old.kept }
{
    let has_value = has_value(engine, bytes, number, number.saturating_add(2))?;
    Ok(has_value && engine.kept() == kept && engine.turns() == Some(turns))
}

/// The same of a new engine's chain.
fn is_new_chained(
    alloc: Global,
    bytes: &Buffer,
    number: u32,
    kept: usize,
    turns: u64,
) -> Result<bool, AllocError> {
    let mut engine = new_engine(alloc, &Chain, bytes);
    let is_right = is_chained(&mut engine, bytes, number, kept, turns);
    drop(engine);
    is_right
}

#[test]
fn goes_a_hundred_thousand_nodes_deep(rt: HostRuntime) -> Result<(), Fail> {
    let bytes = Buffer::new(b"ab".to_vec(rt.alloc())?)?;
    let is_right = is_new_chained(rt.alloc(), &bytes, 99_999, 100_000, 199_999)?;
    assert!(rt; is_right);
    Ok(())
}
