//! The machine that runs nodes on a stack of open nodes, and keeps what they answer.
ghost use Rattle.std.specs.Prelude.{◌≡◌, ◌≤◌, [], Some, None, length, nat_lt, false, IfOk, OnOk, OnErr};
ghost use Rattle.ksv_memo_rules.specs.Meaning.{on};
ghost use Rattle.ksv_memo_rules.specs.Evaluation.{tells, done, IsAnswered};
ghost use Rattle.ksv_memo.specs.Nodes.{Steps, nodes};
ghost use Rattle.ksv_memo_rules.specs.Slots.{lent};
ghost use Rattle.ksv_memo_rules.specs.Right.{IsRight, nodes_of, counted};
ghost use Rattle.ksv_memo.specs.Running.{AreSame, AdvancesAt, HasReached, IsLeft, IsRunning, LeftAt, debt, to_keep};

pub(crate) mod turns;

use self::turns::Turns;
use crate::folded::Folded;
use ksv_bytes::Buffer;
use ksv_memo_rules::{Next, Outcome, Reply, Rules};
use std::alloc::{AllocError, Global};

/// An answer, lent.
fn lend<V, F>(answer: &Result<V, F>) -> Result<&V, &F>
    ensures { lent result ≡ answer.now }
{
    match answer {
        Ok(value) => Ok(value),
        Err(fault) => Err(fault),
    }
}

/// The nodes, and the calls of the rules that were counted.
#[derive(Drop)]
pub struct Machine<R: Rules> {
    alloc: Global,
    pub table: Folded<R>,
    turns: Turns,
}

impl<R: Rules> Machine<R> {
    /// A machine that keeps nothing.
    pub(crate) fn new(alloc: Global) -> Self
        ensures table { result.table ≡ record { kept = []; opened = []; looks = 0 } }
        ensures turns { result.turns ≡ Some 0 }
    {
        Machine {
            alloc,
            table: Folded::new(alloc),
            turns: Turns::new(),
        }
    }

    /// The turns are counted from 0 again.
    pub(crate) fn begin(&mut self)
        ensures table { self.new.table ≡ self.old.table }
        ensures turns { self.new.turns ≡ Some 0 }
    {
        self.turns.begin();
    }

    /// No turns are told, after a circle or a refused memory.
    pub(crate) fn stop(&mut self)
        ensures table { self.new.table ≡ self.old.table }
        ensures turns { self.new.turns ≡ None }
    {
        self.turns.stop();
    }

    /// The turns so far.
    pub(crate) fn turns(&self) -> Option<u64>
        ensures { result ≡ self.now.turns }
    {
        self.turns.now()
    }

    /// One call of the rules, which is counted.
    #[inline(always)]
    fn turn(&mut self, rules: &R, bytes: &Buffer) -> Result<Next<R::Node, Reply<R>>, AllocError>
        requires { IsRunning (on (R.meaning rules.now) bytes.now) self.old.table.kept self.old.table.opened }
        ensures step { IfOk result (λ step. Steps (on (R.meaning rules.now) bytes.now) self.old.table.opened self.new.table.opened step) }
        ensures kept { self.new.table.kept ≡ self.old.table.kept }
        ensures turns { OnOk result (self.new.turns ≡ counted 1 self.old.turns) }
        ensures looks { self.new.table.looks ≡ self.old.table.looks }
    {
        self.table.turn(self.alloc, rules, bytes, &mut self.turns)
    }

    /// Keeps the answer of the only open node, which ends the question.
    #[cold]
    #[inline(never)]
    fn end(
        &mut self,
        rules: &R,
        bytes: &Buffer,
        answer: Reply<R>,
    ) -> Result<Outcome<R::Node, Reply<R>>, AllocError>
        requires alone { nat_lt 1 (length self.old.table.opened) ≡ false }
        requires reached { HasReached (on (R.meaning rules.now) bytes.now) self.old.table.kept self.old.table.opened (Next.Done answer) }
        ensures ok { IfOk result (λ outcome. AdvancesAt (on (R.meaning rules.now) bytes.now) self.old.table.kept self.old.table.opened (Next.Done answer) (nodes self.new.table) (Some outcome)) }
        ensures err { OnErr result (LeftAt (on (R.meaning rules.now) bytes.now) self.old.table.kept self.old.table.opened (Next.Done answer) self.new.table.kept) }
        ensures turns { self.new.turns ≡ self.old.turns }
    {
        let reply = rules.copy_answer(self.alloc, lend(&answer))?;
        self.table.close(self.alloc, rules, bytes, answer)?;
        Ok(Outcome::Answered(reply))
    }

    /// Takes out all open nodes.
    fn abandon(&mut self)
        ensures kept { self.new.table.kept ≡ self.old.table.kept }
        ensures opened { self.new.table.opened ≡ [] }
        ensures turns { self.new.turns ≡ self.old.turns }
    {
        while self.table.abandon() {}
    }

    /// Runs a node, if it isn't kept, and what it asks. If the question ends early, some nodes are open after it.
    fn run(
        &mut self,
        rules: &R,
        bytes: &Buffer,
        node: R::Node,
    ) -> Result<Outcome<R::Node, Reply<R>>, AllocError>
        requires right { IsRight (on (R.meaning rules.now) bytes.now) self.old.table.kept }
        requires opened { self.old.table.opened ≡ [] }
        ensures outcome { IfOk result (λ outcome. outcome ≡ (tells (on (R.meaning rules.now) bytes.now) [] node).outcome) }
        ensures right { IsRight (on (R.meaning rules.now) bytes.now) self.new.table.kept }
        ensures kept { OnOk result (AreSame (on (R.meaning rules.now) bytes.now) (nodes_of self.new.table.kept) (to_keep (on (R.meaning rules.now) bytes.now) self.old.table.kept (done (on (R.meaning rules.now) bytes.now) [] node))) }
        ensures left { OnErr result (IsLeft (on (R.meaning rules.now) bytes.now) (to_keep (on (R.meaning rules.now) bytes.now) self.old.table.kept (done (on (R.meaning rules.now) bytes.now) [] node)) self.old.table.kept self.new.table.kept) }
        ensures turns { IfOk result (λ outcome. IsAnswered outcome → self.new.turns ≡ counted (debt (on (R.meaning rules.now) bytes.now) self.old.table.kept (done (on (R.meaning rules.now) bytes.now) [] node)) self.old.turns) }
    {
        let known = self.table.start(self.alloc, rules, node)?;
        if let Some(outcome) = known {
            return Ok(outcome);
        }
        // A turn is here, and not in a function of its own, which would be too large to be inlined.
        loop {
            match self.turn(rules, bytes) {
                Ok(Next::Done(answer)) => {
                    if !self.table.waits() {
                        return self.end(rules, bytes, answer);
                    }
                    self.table.close(self.alloc, rules, bytes, answer)?;
                }
                Ok(Next::Need(asked)) => {
                    match self
                        .table
                        .ask(self.alloc, rules, bytes, asked, &mut self.turns)
                    {
                        Ok(None) => continue,
                        Ok(Some(node)) => return Ok(Outcome::Circle(node)),
                        Err(refused) => return Err(refused),
                    }
                }
                Err(refused) => return Err(refused),
            }
        }
    }

    /// The outcome of the node from nothing. No node is open before and after.
    pub(crate) fn ask(
        &mut self,
        rules: &R,
        bytes: &Buffer,
        node: R::Node,
    ) -> Result<Outcome<R::Node, Reply<R>>, AllocError>
        requires right { IsRight (on (R.meaning rules.now) bytes.now) self.old.table.kept }
        requires opened { self.old.table.opened ≡ [] }
        ensures opened { self.new.table.opened ≡ [] }
        ensures outcome { IfOk result (λ outcome. outcome ≡ (tells (on (R.meaning rules.now) bytes.now) [] node).outcome) }
        ensures right { IsRight (on (R.meaning rules.now) bytes.now) self.new.table.kept }
        ensures kept { OnOk result (AreSame (on (R.meaning rules.now) bytes.now) (nodes_of self.new.table.kept) (to_keep (on (R.meaning rules.now) bytes.now) self.old.table.kept (done (on (R.meaning rules.now) bytes.now) [] node))) }
        ensures left { OnErr result (IsLeft (on (R.meaning rules.now) bytes.now) (to_keep (on (R.meaning rules.now) bytes.now) self.old.table.kept (done (on (R.meaning rules.now) bytes.now) [] node)) self.old.table.kept self.new.table.kept) }
        ensures turns { IfOk result (λ outcome. IsAnswered outcome → self.new.turns ≡ counted (debt (on (R.meaning rules.now) bytes.now) self.old.table.kept (done (on (R.meaning rules.now) bytes.now) [] node)) self.old.turns) }
    {
        self.table.tidy();
        self.table
            .grow(self.alloc, rules, bytes, &node, &mut self.turns);
        let outcome = self.run(rules, bytes, node);
        self.abandon();
        outcome
    }
}
