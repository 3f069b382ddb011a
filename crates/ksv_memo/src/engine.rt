//! The engine's public face.
ghost use Rattle.std.specs.Prelude.{◌≡◌, ◌+◌, ◌++◌, ◌≤◌, ℕ, List, [], Some, None, length, Contains, IfOk, OnOk, OnErr};
ghost use Rattle.std.specs.List.{AllByRecursion};
ghost use Rattle.ksv_bytes.specs.Uses.{Makes};
ghost use Rattle.ksv_memo_rules.specs.Meaning.{on};
ghost use Rattle.ksv_memo_rules.specs.Evaluation.{tells, done};
ghost use Rattle.ksv_memo_rules.specs.Right.{IsRight, AreExactly, AreBetween, nodes_of, fresh, costs};
ghost use Rattle.ksv_memo_rules.specs.Touched.{left_after};
ghost use Rattle.ksv_memo_links.specs.Links.{IsMove};
ghost use Rattle.ksv_memo.specs.Near.{IsWrite, LooksNear};
ghost use Rattle.ksv_memo.specs.Behind.{LooksBehind};
ghost use Rattle.ksv_memo.specs.Answers.{answer_of, turns_after};
ghost use Rattle.ksv_memo.specs.Resting.{left_reach};

use crate::machine::Machine;
use ksv_bytes::{Buffer, Change};
use ksv_memo_links::PAGE;
use ksv_memo_rules::{Outcome, Rules};
use std::alloc::{AllocError, Global};
use std::marker::Model;

/// The result of a question for a node.
#[derive(Debug, Drop)]
pub enum Answer<N, V, F> {
    /// The node has this value.
    Value(V),
    /// The node has this fault.
    Fault(F),
    /// This node was asked while it was open: its answer depends on itself.
    Circle(N),
}

/// A place after which no node that a change leaves uses a byte or a place, if it was one before the change.
fn reach_after(change: Change, reach: usize) -> usize
    ensures { result ≡ left_reach change reach }
{
    match change {
        Change::Overwrite { .. } => reach,
        Change::Insert { at, .. } => reach.min(at),
        Change::Delete { at, .. } => reach.min(at),
        Change::Append => reach,
    }
}

/// An engine that answers nodes by rules over the bytes of a file, and keeps the answers.
///
/// It is *right* for rules and bytes if each kept node has the answer that evaluation from nothing gives, all nodes that
/// it asked are kept, and the nodes and uses that are kept with it decide which edits touch its tree. Contracts state no
/// order of the kept entries.
#[derive(Drop)]
pub struct Engine<R: Rules> {
    machine: Machine<R>,
    looked: u64,
    reach: usize,
}

impl<R: Rules> Model for Engine<R> {
    ghost use Rattle.std.specs.Prelude.{◌≡◌, [], Result};
    ghost use Rattle.ksv_memo_rules.specs.Entry.{Memo};
    ghost use Rattle.ksv_memo.specs.Nodes.{nodes};
    ghost use Rattle.ksv_memo.specs.Resting.{IsResting};

    ghost Value = { Memo R.Node (Result R.Value R.Fault) };

    ghost view = { λ engine. record { kept = engine.machine.table.kept; turns = engine.machine.turns; looked = engine.looked; reach = engine.reach; looks = engine.machine.table.looks } };

    ghost invariant = { λ engine. IsResting (nodes engine.machine.table) engine.reach };
}

impl<R: Rules> Engine<R> {
    /// An engine that keeps nothing, which is right for all rules and bytes. It takes no memory.
    pub fn new(alloc: Global) -> Self
        ensures kept { result.kept ≡ [] }
        ensures turns { result.turns ≡ Some 0 }
        ensures looked { result.looked ≡ 0 }
        ensures reach { result.reach ≡ 0 }
        ensures looks { result.looks ≡ 0 }
        ensures right { (rules : R) (bytes : List ℕ) → IsRight (on (R.meaning rules) bytes) result.kept }
    {
        Engine {
            machine: Machine::new(alloc),
            looked: 0,
            reach: 0,
        }
    }

    /// Begins a question: the turns are counted from 0 again.
    pub fn begin(&mut self)
        ensures kept { self.new.kept ≡ self.old.kept }
        ensures turns { self.new.turns ≡ Some 0 }
        ensures looked { self.new.looked ≡ self.old.looked }
        ensures reach { self.new.reach ≡ self.old.reach }
        ensures looks { self.new.looks ≡ self.old.looks }
    {
        self.machine.begin();
    }

    /// The answer of a node, as evaluation from nothing gives it: the rules run first with no replies, and each
    /// asked node is evaluated the same way. A node that is asked while it is open is a circle, which ends the
    /// question. Kept nodes aren't run, and each completed node is kept, also after a circle. It always returns,
    /// however deep the nodes are.
    pub fn ask(
        &mut self,
        rules: &R,
        bytes: &Buffer,
        node: R::Node,
    ) -> Result<Answer<R::Node, R::Value, R::Fault>, AllocError>
        requires { IsRight (on (R.meaning rules.now) bytes.now) self.old.kept }
        ensures answer { IfOk result (λ answer. answer ≡ answer_of (tells (on (R.meaning rules.now) bytes.now) [] node).outcome) }

        // The engine is still right, also after a refused memory; so all that its nodes asked is kept.
        ensures right { IsRight (on (R.meaning rules.now) bytes.now) self.new.kept }

        // The nodes that were kept and those that the question completed are kept, and no others.
        ensures kept { OnOk result (AreExactly (on (R.meaning rules.now) bytes.now) (nodes_of self.new.kept) (nodes_of self.old.kept ++ done (on (R.meaning rules.now) bytes.now) [] node)) }
        ensures refused { OnErr result (AreBetween (on (R.meaning rules.now) bytes.now) (nodes_of self.old.kept) (nodes_of self.new.kept) (nodes_of self.old.kept ++ done (on (R.meaning rules.now) bytes.now) [] node)) }

        // Each node that wasn't kept took a turn, and one more after each of its asks.
        ensures turns { self.new.turns ≡ turns_after (costs (on (R.meaning rules.now) bytes.now) (fresh (R.meaning rules.now).number (nodes_of self.old.kept) (done (on (R.meaning rules.now) bytes.now) [] node))) self.old.turns result }
        ensures looked { self.new.looked ≡ self.old.looked }

        // What is kept reaches no further than the file.
        ensures reach { self.new.reach ≡ length bytes.now }
    {
        self.reach = bytes.len();
        match self.machine.ask(rules, bytes, node) {
            Ok(Outcome::Answered(Ok(value))) => Ok(Answer::Value(value)),
            Ok(Outcome::Answered(Err(fault))) => Ok(Answer::Fault(fault)),
            Ok(Outcome::Circle(node)) => {
                self.machine.stop();
                Ok(Answer::Circle(node))
            }
            Err(refused) => {
                self.machine.stop();
                Err(refused)
            }
        }
    }

    /// Takes out the kept nodes that an edit touches, so that the engine is right for the bytes after it. It takes no
    /// memory.
    #[inline(always)]
    pub fn forget(&mut self, change: Change)
        ensures right { (rules : R) (before after : List ℕ) → IsRight (on (R.meaning rules) before) self.old.kept → Makes change before after → IsRight (on (R.meaning rules) after) self.new.kept }

        // On the bytes before the edit those nodes stay that have no touched use in their tree, and no others.
        ensures left { (rules : R) (before : List ℕ) → IsRight (on (R.meaning rules) before) self.old.kept → AreExactly (on (R.meaning rules) before) (nodes_of self.new.kept) (left_after (on (R.meaning rules) before) change (nodes_of self.old.kept)) }
        ensures kept { AllByRecursion (Contains self.old.kept) self.new.kept }
        ensures turns { self.new.turns ≡ self.old.turns }

        // No look is left out: all looks since are among those that are told.
        ensures told { self.new.looks ≤ self.old.looks + self.new.looked }

        // After an overwrite of at least one byte, the looks are no fewer than the nodes that went, and no more than near.
        ensures looked { (rules : R) (before after : List ℕ) → IsRight (on (R.meaning rules) before) self.old.kept → Makes change before after → IsWrite change → LooksNear (on (R.meaning rules) before) change self.old.kept self.new.looked }

        // After any other edit, they are no more than what is after its place.
        ensures behind { (rules : R) (before : List ℕ) → IsRight (on (R.meaning rules) before) self.old.kept → IsMove change → LooksBehind (on (R.meaning rules) before) change self.old.reach self.old.kept self.new.looked }

        // What is kept reaches no further than the file after the edit, if it did so before it.
        ensures reach { (before after : List ℕ) → Makes change before after → self.old.reach ≤ length before → self.new.reach ≤ length after }
    {
        let pages = self.reach / PAGE as usize + 1;
        self.looked = self.machine.table.forget(change, pages);
        self.reach = reach_after(change, self.reach);
    }

    /// The looks of the last `forget`. A look reads or writes one entry; or one item, or the length, of one list: of an
    /// entry's users or notes, of the uses of a page, or of the slots to be taken. They are what the count of all looks is more than
    /// before; that count stops at 2^64 - 1, and from then on they are the nodes that went.
    pub fn looked(&self) -> u64
        ensures { result ≡ self.now.looked }
    {
        let looked = &self.looked;
        *looked
    }

    /// The number of kept nodes.
    pub fn kept(&self) -> usize
        ensures { result ≡ length self.now.kept }
    {
        self.machine.table.len()
    }

    /// The calls of the rules since the question began; None if it met a circle or was refused memory. The count stops
    /// at 2^64 - 1.
    pub fn turns(&self) -> Option<u64>
        ensures { result ≡ self.now.turns }
    {
        self.machine.turns()
    }
}
