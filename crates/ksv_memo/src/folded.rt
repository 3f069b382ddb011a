//! The table of kept and open nodes, with nodes that are kept by numbers alone.
ghost use Rattle.std.specs.List.{AllByRecursion};
ghost use Rattle.std.specs.Prelude.{◌≡◌, ◌<◌, ◌≤◌, ◌+◌, ◌++◌, ◌∷◌, [], Some, None, length, true, nat_lt, IfOk, IfSome, IfNone, OnOk, OnErr};
ghost use Rattle.ksv_memo_links.specs.Touching.{AreWithin};
ghost use Rattle.ksv_memo_rules.specs.Meaning.{on};
ghost use Rattle.ksv_memo_rules.specs.Right.{IsRight, counted};
ghost use Rattle.ksv_memo.specs.Folding.{ClosesAs, FailsToLend, Founds, IsCovered, IsCut, IsFolding, IsFree, IsLastFree, IsNext, IsWithin, LendsTo, LosesFirst, SameButWild, SameRun, lending, viewed};
ghost use Rattle.ksv_memo.specs.Growing.{AsksGrown, Grows};
ghost use Rattle.ksv_memo.specs.Nodes.{Asks, Closes, HasNoEntry, IsHeard, IsPut, KeepsNode, MayKeep, MayLose, MayPut, Starts, Steps, TakesFirst, is_there, nodes};
ghost use Rattle.ksv_memo.specs.Running.{ClosesRight, HasReached, MayKeepRight};
ghost use Rattle.ksv_memo.specs.Sweep.{Sweeps};

use crate::lendings::Lendings;
use crate::machine::turns::Turns;
use crate::table::Table;
use ksv_bytes::{Buffer, Change};
use ksv_memo_rules::{Folds, Next, Outcome, Reply, Rules};
use std::alloc::{AllocError, Global};
use std::marker::Model;

/// How many nodes there must be at least, so that they are kept by numbers alone.
const LEAST: usize = 1_024;
/// And one for so many bytes of the file: as those of one list alone are kept so, a small list isn't that in a large file.
const BYTES: usize = 1_024;

/// Nodes of which the first are kept by numbers alone.
#[derive(Drop)]
pub struct Run<N: Eq + Drop, S> {
    /// The nodes.
    pub nodes: S,
    /// How many are kept so.
    pub kept: u32,
    /// The number from which on nodes may be open.
    pub wild: u32,
    /// The number from which on nodes may have slots as any others, which is no less. It only falls.
    pub far: u32,
    /// Those that have slots too, since they were asked.
    pub lent: Lendings<N>,
    /// An edit has moved the file's end since the nodes were told.
    pub moved: bool,
    /// An edit has taken some of those that were kept so since.
    pub has_lost: bool,
}

/// Whether a change moves the file's end.
fn moves_end(change: Change) -> bool {
    match change {
        Change::Overwrite { .. } => false,
        Change::Insert { .. } | Change::Delete { .. } | Change::Append => true,
    }
}

impl<N: Eq + Drop, S> Run<N, S> {
    /// An edit leaves the root, and so many of the first nodes.
    fn cut(&mut self, kept: u32)
        requires { kept ≤ self.old.kept }
        ensures { IsCut kept self.old self.new }
    {
        if kept < self.kept {
            self.kept = kept;
            self.has_lost = true;
            self.lent.cut(kept);
        }
    }
}

/// The number of a node that is kept by it alone. One that isn't, and could be, may be open from now on.
#[inline(always)]
fn covered<R: Rules>(run: &mut Run<R::Node, R::Fold>, node: &R::Node) -> Option<u32>
    requires { IsWithin R.Fold.fold run.old }
    ensures some { IfSome result (λ place. IsCovered R.Fold.fold run.new place node.now) }
    ensures none { IfNone result (IsFree R.Fold.fold run.new node.now) }
    ensures same { SameButWild run.old run.new }
{
    let place = run.nodes.place(node)?;
    if place < run.kept {
        return Some(place);
    }
    run.wild = run.wild.min(place);
    None
}

/// Lists the node of a number as one that has a slot. Where memory is refused, it isn't.
fn list<R: Rules>(
    run: &mut Run<R::Node, R::Fold>,
    alloc: Global,
    place: u32,
) -> Result<(), AllocError>
    requires { place < (R.Fold.fold run.old.nodes).size }
    ensures ok { OnOk result (SameRun run.old run.new (run.old.lent.items ++ lending (R.Fold.fold run.old.nodes) place ∷ [])) }
    ensures err { OnErr result (SameRun run.old run.new run.old.lent.items) }
{
    let node = run.nodes.node(alloc, place)?;
    run.lent.push(place, node)
}

/// Keeps the last open node, which is that of a number, in its slot, by the run's root. The one below gets its answer, if there is one;
/// whether that could be noted. If memory is refused for the node, it isn't open any more.
fn keep_beside<R: Rules>(
    table: &mut Table<R>,
    run: &mut Run<R::Node, R::Fold>,
    alloc: Global,
    place: u32,
    answer: Reply<R>,
) -> Result<bool, AllocError>
    requires there { is_there table.old.opened ≡ true }
    requires root { KeepsNode R.Node.eq table.old.kept (R.Fold.fold run.old.nodes).root }
    requires place_in { place < (R.Fold.fold run.old.nodes).size }
    ensures ok { IfOk result (λ is_heard. ClosesAs (R.Fold.fold run.old.nodes) place answer is_heard table.old.opened (nodes table.old) (nodes table.new)) }
    ensures err { OnErr result (LosesFirst (nodes table.old) (nodes table.new)) }
    ensures lent { OnOk result (SameRun run.old run.new (run.old.lent.items ++ lending (R.Fold.fold run.old.nodes) place ∷ [])) }
    ensures same { OnErr result (SameRun run.old run.new run.old.lent.items) }
    ensures grows { table.old.looks ≤ table.new.looks }
{
    match list::<R>(run, alloc, place) {
        Ok(()) => {}
        Err(refused) => {
            table.abandon();
            return Err(refused);
        }
    }
    match table.close_folded(&run.nodes, place, answer) {
        Ok(is_heard) => Ok(is_heard),
        Err(refused) => {
            run.lent.drop_last();
            Err(refused)
        }
    }
}

/// Keeps the last open node, which is kept by its number alone, in its slot too. The one below gets its answer, if there is one. If memory is
/// refused, it isn't open any more.
fn lend<R: Rules>(
    table: &mut Table<R>,
    run: &mut Run<R::Node, R::Fold>,
    alloc: Global,
    place: u32,
    answer: Reply<R>,
) -> Result<(), AllocError>
    requires there { is_there table.old.opened ≡ true }
    requires root { KeepsNode R.Node.eq table.old.kept (R.Fold.fold run.old.nodes).root }
    requires place_in { place < (R.Fold.fold run.old.nodes).size }
    ensures ok { OnOk result (LendsTo R.Fold.fold place answer run.old run.new table.old.opened (nodes table.old) (nodes table.new)) }
    ensures err { OnErr result (FailsToLend R.Fold.fold place answer run.old run.new (nodes table.old) (nodes table.new)) }
    ensures grows { table.old.looks ≤ table.new.looks }
{
    if keep_beside(table, run, alloc, place, answer)? {
        Ok(())
    } else {
        Err(AllocError)
    }
}

/// Keeps the last open node, which is the next after those that are kept by numbers alone, by its number, and in its slot too, with the answer
/// of that number. The one below gets it, if there is one.
#[cold]
#[inline(never)]
fn absorb<R: Rules>(
    table: &mut Table<R>,
    run: &mut Run<R::Node, R::Fold>,
    alloc: Global,
    place: u32,
) -> Result<(), AllocError>
    requires run { IsFolding R.Node.eq R.Fold.fold (Some run.old) (nodes table.old) }
    requires next { IsNext R.Fold.fold run.old place ((R.Fold.fold run.old.nodes).entry place).answer table.old.opened }
    ensures run { IsFolding R.Node.eq R.Fold.fold (Some run.new) (nodes table.new) }
    ensures ok { OnOk result (IsPut ((R.Fold.fold run.old.nodes).entry place) (viewed R.Node.eq R.Fold.fold (Some run.old) table.old).kept (viewed R.Node.eq R.Fold.fold (Some run.new) table.new).kept) }
    ensures heard { OnOk result (IsHeard ((R.Fold.fold run.old.nodes).entry place).answer table.old.opened table.new.opened) }
    ensures err { OnErr result (MayPut ((R.Fold.fold run.old.nodes).entry place) (viewed R.Node.eq R.Fold.fold (Some run.old) table.old).kept (viewed R.Node.eq R.Fold.fold (Some run.new) table.new).kept) }
    ensures grows { table.old.looks ≤ table.new.looks }
{
    let answer = run.nodes.answer(alloc, place)?;
    let is_heard = keep_beside(table, run, alloc, place, answer)?;
    run.kept = place + 1;
    run.wild = table.least_open(&run.nodes, run.far).max(run.kept);
    if is_heard { Ok(()) } else { Err(AllocError) }
}

/// Asks for a node that is kept by its number alone.
#[cold]
#[inline(never)]
fn ask_folded<R: Rules>(
    table: &mut Table<R>,
    run: &mut Run<R::Node, R::Fold>,
    alloc: Global,
    node: R::Node,
    place: u32,
) -> Result<Option<R::Node>, AllocError>
    requires run { IsFolding R.Node.eq R.Fold.fold (Some run.old) (nodes table.old) }
    requires covered { IsCovered R.Fold.fold run.old place node }
    ensures run { IsFolding R.Node.eq R.Fold.fold (Some run.new) (nodes table.new) }
    ensures ok { IfOk result (Asks R.Node.eq node (nodes (viewed R.Node.eq R.Fold.fold (Some run.old) table.old)) (nodes (viewed R.Node.eq R.Fold.fold (Some run.new) table.new))) }
    ensures err { OnErr result ((viewed R.Node.eq R.Fold.fold (Some run.new) table.new).kept ≡ (viewed R.Node.eq R.Fold.fold (Some run.old) table.old).kept) }
    ensures grows { table.old.looks ≤ table.new.looks }
{
    if table.holds(&node) {
        return table.ask(node);
    }
    let answer = run.nodes.answer(alloc, place)?;
    match table.ask(node) {
        Ok(None) => {
            lend(table, run, alloc, place, answer)?;
            Ok(None)
        }
        other => other,
    }
}

/// Asks for a node, where some are kept by numbers alone.
#[inline(never)]
fn ask_beside<R: Rules>(
    table: &mut Table<R>,
    run: &mut Run<R::Node, R::Fold>,
    alloc: Global,
    node: R::Node,
) -> Result<Option<R::Node>, AllocError>
    requires run { IsFolding R.Node.eq R.Fold.fold (Some run.old) (nodes table.old) }
    ensures run { IsFolding R.Node.eq R.Fold.fold (Some run.new) (nodes table.new) }
    ensures ok { IfOk result (Asks R.Node.eq node (nodes (viewed R.Node.eq R.Fold.fold (Some run.old) table.old)) (nodes (viewed R.Node.eq R.Fold.fold (Some run.new) table.new))) }
    ensures err { OnErr result ((viewed R.Node.eq R.Fold.fold (Some run.new) table.new).kept ≡ (viewed R.Node.eq R.Fold.fold (Some run.old) table.old).kept) }
    ensures grows { table.old.looks ≤ table.new.looks }
{
    match covered::<R>(run, &node) {
        Some(place) => ask_folded(table, run, alloc, node, place),
        None => table.ask(node),
    }
}

/// Starts a question for a node, where some are kept by numbers alone.
#[inline(never)]
fn start_beside<R: Rules>(
    table: &mut Table<R>,
    run: &mut Run<R::Node, R::Fold>,
    alloc: Global,
    rules: &R,
    node: R::Node,
) -> Result<Option<Outcome<R::Node, Reply<R>>>, AllocError>
    requires run { IsFolding R.Node.eq R.Fold.fold (Some run.old) (nodes table.old) }
    ensures run { IsFolding R.Node.eq R.Fold.fold (Some run.new) (nodes table.new) }
    ensures ok { IfOk result (Starts R.Node.eq node (nodes (viewed R.Node.eq R.Fold.fold (Some run.old) table.old)) (nodes (viewed R.Node.eq R.Fold.fold (Some run.new) table.new))) }
    ensures err { OnErr result ((viewed R.Node.eq R.Fold.fold (Some run.new) table.new).kept ≡ (viewed R.Node.eq R.Fold.fold (Some run.old) table.old).kept) }
    ensures grows { table.old.looks ≤ table.new.looks }
{
    match covered::<R>(run, &node) {
        Some(place) => {
            let answer = run.nodes.answer(alloc, place)?;
            Ok(Some(Outcome::Answered(answer)))
        }
        None => table.start(alloc, rules, node),
    }
}

/// More nodes are kept by numbers alone, if evaluation of a node completes them, which is about to be asked. Their calls are counted.
#[inline(never)]
fn grow_run<R: Rules>(
    table: &mut Table<R>,
    run: &mut Run<R::Node, R::Fold>,
    rules: &R,
    bytes: &Buffer,
    node: &R::Node,
    turns: &mut Turns,
)
    requires run { IsFolding R.Node.eq R.Fold.fold (Some run.old) (nodes table.old) }
    requires right { IsRight (on (R.meaning rules.now) bytes.now) (viewed R.Node.eq R.Fold.fold (Some run.old) table.old).kept }
    ensures run { IsFolding R.Node.eq R.Fold.fold (Some run.new) (nodes table.new) }
    ensures grown { Grows (on (R.meaning rules.now) bytes.now) node.now (viewed R.Node.eq R.Fold.fold (Some run.old) table.old) (viewed R.Node.eq R.Fold.fold (Some run.new) table.new) turns.old turns.new }
    ensures grows { table.old.looks ≤ table.new.looks }
{
    let Some(place) = run.nodes.place(node) else {
        return;
    };
    if place < run.kept {
        return;
    }
    let now = run.wild.min(run.nodes.whole(place));
    if now <= run.kept {
        return;
    }
    let count = table.foldable(rules, &run.nodes, bytes, run.kept, place);
    if place >= count {
        return;
    }
    turns.add_all(run.nodes.calls(run.kept, now));
    run.kept = now;
}

/// The nodes are told anew over these bytes, before a question for a node. Those that are kept by numbers alone stay as they are, and no more are kept so until
/// `widen` has looked.
fn retell<R: Rules>(
    table: &mut Table<R>,
    run: &mut Run<R::Node, R::Fold>,
    bytes: &Buffer,
    asked: &R::Node,
)
    requires opened { table.old.opened ≡ [] }
    requires run { IsFolding R.Node.eq R.Fold.fold (Some run.old) (nodes table.old) }
    ensures run { IsFolding R.Node.eq R.Fold.fold (Some run.new) (nodes table.new) }
    ensures seen { nodes (viewed R.Node.eq R.Fold.fold (Some run.new) table.new) ≡ nodes (viewed R.Node.eq R.Fold.fold (Some run.old) table.old) }
    ensures opened { table.new.opened ≡ [] }
    ensures grows { table.old.looks ≤ table.new.looks }
{
    table.retell(&mut run.nodes, bytes, run.kept, asked);
    run.wild = run.kept;
    run.far = run.kept;
}

/// Whether the node of a number has no slot, if there are more nodes than that.
fn is_free<R: Rules>(
    table: &mut Table<R>,
    folded: &R::Fold,
    alloc: Global,
    place: u32,
    count: u32,
) -> Result<bool, AllocError>
    requires { count ≤ (R.Fold.fold folded.now).size }
    ensures free { IfOk result (λ is_free. is_free ≡ true → place < count → HasNoEntry R.Node.eq table.old.kept ((R.Fold.fold folded.now).entry place).node) }
    ensures nodes { nodes table.new ≡ nodes table.old }
    ensures grows { table.old.looks ≤ table.new.looks }
{
    if place >= count {
        return Ok(true);
    }
    let node = folded.node(alloc, place)?;
    Ok(!table.holds(&node))
}

/// More nodes may be kept by numbers alone: all that there are over these bytes, if neither the first that isn't kept so nor the next one has a slot. Evaluation
/// of each that is behind them completes the first, so none of these has one either. If memory is refused, no more may be.
fn widen<R: Rules>(
    table: &mut Table<R>,
    run: &mut Run<R::Node, R::Fold>,
    alloc: Global,
    rules: &R,
    bytes: &Buffer,
) -> Result<(), AllocError>
    requires opened { table.old.opened ≡ [] }
    requires run { IsFolding R.Node.eq R.Fold.fold (Some run.old) (nodes table.old) }
    requires right { IsRight (on (R.meaning rules.now) bytes.now) (viewed R.Node.eq R.Fold.fold (Some run.old) table.old).kept }
    ensures run { IsFolding R.Node.eq R.Fold.fold (Some run.new) (nodes table.new) }
    ensures seen { nodes (viewed R.Node.eq R.Fold.fold (Some run.new) table.new) ≡ nodes (viewed R.Node.eq R.Fold.fold (Some run.old) table.old) }
    ensures grows { table.old.looks ≤ table.new.looks }
{
    let count = table.foldable(rules, &run.nodes, bytes, run.kept, u32::MAX);
    if count <= run.far {
        return Ok(());
    }
    if is_free(table, &run.nodes, alloc, run.kept, count)?
        && is_free(table, &run.nodes, alloc, run.kept + 1, count)?
    {
        run.far = count;
    }
    Ok(())
}

/// Whether the nodes are to be told anew before a question for a node: an edit has moved the file's end, or has taken some of those that were kept by numbers
/// alone and they aren't as they were told, up to that node. If it is none of them, no more is known.
fn is_outdated<R: Rules>(
    table: &mut Table<R>,
    run: &Run<R::Node, R::Fold>,
    rules: &R,
    bytes: &Buffer,
    node: &R::Node,
) -> bool
    ensures nodes { nodes table.new ≡ nodes table.old }
    ensures grows { table.old.looks ≤ table.new.looks }
{
    if run.moved || !run.has_lost {
        return run.moved;
    }
    match run.nodes.place(node) {
        Some(place) if place < run.kept => false,
        Some(place) => table.foldable(rules, &run.nodes, bytes, run.kept, place) <= place,
        None => true,
    }
}

/// More nodes are kept by numbers alone, if evaluation of a node completes them, for which a question is about to start. Their calls are counted. Where they
/// may be others since an edit, they are told anew first (`is_outdated`). No node is open.
#[inline(never)]
fn grow_anew<R: Rules>(
    table: &mut Table<R>,
    run: &mut Run<R::Node, R::Fold>,
    alloc: Global,
    rules: &R,
    bytes: &Buffer,
    node: &R::Node,
    turns: &mut Turns,
)
    requires opened { table.old.opened ≡ [] }
    requires run { IsFolding R.Node.eq R.Fold.fold (Some run.old) (nodes table.old) }
    requires right { IsRight (on (R.meaning rules.now) bytes.now) (viewed R.Node.eq R.Fold.fold (Some run.old) table.old).kept }
    ensures run { IsFolding R.Node.eq R.Fold.fold (Some run.new) (nodes table.new) }
    ensures grown { Grows (on (R.meaning rules.now) bytes.now) node.now (viewed R.Node.eq R.Fold.fold (Some run.old) table.old) (viewed R.Node.eq R.Fold.fold (Some run.new) table.new) turns.old turns.new }
    ensures grows { table.old.looks ≤ table.new.looks }
{
    if is_outdated(table, run, rules, bytes, node) {
        retell(table, run, bytes, node);
        run.moved = widen(table, run, alloc, rules, bytes).is_err();
        run.has_lost = false;
    }
    run.wild = run.far;
    grow_run(table, run, rules, bytes, node, turns);
}

/// Asks for a node, where some are kept by numbers alone. More are so before it is looked up. It is inlined, and what it calls isn't:
/// so what these calls need is made ready here, and not where no node is kept by its number.
#[inline(always)]
fn ask_grown<R: Rules>(
    table: &mut Table<R>,
    run: &mut Run<R::Node, R::Fold>,
    alloc: Global,
    rules: &R,
    bytes: &Buffer,
    node: R::Node,
    turns: &mut Turns,
) -> Result<Option<R::Node>, AllocError>
    requires run { IsFolding R.Node.eq R.Fold.fold (Some run.old) (nodes table.old) }
    requires right { IsRight (on (R.meaning rules.now) bytes.now) (viewed R.Node.eq R.Fold.fold (Some run.old) table.old).kept }
    ensures run { IsFolding R.Node.eq R.Fold.fold (Some run.new) (nodes table.new) }
    ensures asked { AsksGrown (on (R.meaning rules.now) bytes.now) R.Node.eq node (viewed R.Node.eq R.Fold.fold (Some run.old) table.old) (viewed R.Node.eq R.Fold.fold (Some run.new) table.new) turns.old turns.new result }
    ensures grows { table.old.looks ≤ table.new.looks }
{
    grow_run(table, run, rules, bytes, &node, turns);
    ask_beside(table, run, alloc, node)
}

/// The number of the last open node, which has its answer, if it is the next after those that are kept by numbers alone, and can be kept so.
/// Else it may have a slot as any other from now on.
#[inline(never)]
fn next_open<R: Rules>(
    table: &mut Table<R>,
    run: &mut Run<R::Node, R::Fold>,
    rules: &R,
    bytes: &Buffer,
    answer: &Reply<R>,
) -> Option<u32>
    requires run { IsFolding R.Node.eq R.Fold.fold (Some run.old) (nodes table.old) }
    requires reached { HasReached (on (R.meaning rules.now) bytes.now) (viewed R.Node.eq R.Fold.fold (Some run.old) table.old).kept table.old.opened (Next.Done answer.now) }
    ensures run { IsFolding R.Node.eq R.Fold.fold (Some run.new) (nodes table.new) }
    ensures seen { viewed R.Node.eq R.Fold.fold (Some run.new) table.old ≡ viewed R.Node.eq R.Fold.fold (Some run.old) table.old }
    ensures nodes { nodes table.new ≡ nodes table.old }
    ensures some { IfSome result (λ place. IsNext R.Fold.fold run.new place answer.now table.old.opened) }
    ensures right { IfSome result (λ place. IsRight (on (R.meaning rules.now) bytes.now) ((viewed R.Node.eq R.Fold.fold (Some run.old) table.old).kept ++ (R.Fold.fold run.new.nodes).entry place ∷ [])) }
    ensures none { IfNone result (IsLastFree R.Fold.fold run.new table.old.opened) }
    ensures grows { table.old.looks ≤ table.new.looks }
{
    // None of its nodes is open.
    if run.wild == run.far {
        return None;
    }
    let place = table.last_place(&run.nodes)?;
    let count = table.foldable(rules, &run.nodes, bytes, run.kept, place);
    if place == run.kept && place < count {
        return Some(place);
    }
    run.far = run.far.min(place);
    None
}

/// Keeps the last open node with its answer, where some are kept by numbers alone, or may be from now on. It is a call, so that `Folded::close` stays
/// small enough to be inlined where none is.
#[inline(never)]
fn close_slotted<R: Rules>(
    table: &mut Table<R>,
    alloc: Global,
    answer: Reply<R>,
) -> Result<(), AllocError>
    requires { is_there table.old.opened ≡ true }
    ensures ok { OnOk result (Closes answer table.old.opened (nodes table.old) (nodes table.new)) }
    ensures err { OnErr result (MayKeep answer table.old.opened table.old.kept table.new.kept) }
    ensures waiting { OnErr result (MayLose table.old.opened table.new.opened) }
    ensures grows { table.old.looks ≤ table.new.looks }
{
    table.close(alloc, answer)
}

/// Keeps the last open node with its answer, where some are kept by numbers alone: by its number too, if it is the next of these. It is inlined,
/// and what it calls isn't, as in `ask_grown`.
#[inline(always)]
fn close_beside<R: Rules>(
    table: &mut Table<R>,
    run: &mut Run<R::Node, R::Fold>,
    alloc: Global,
    rules: &R,
    bytes: &Buffer,
    answer: Reply<R>,
) -> Result<(), AllocError>
    requires run { IsFolding R.Node.eq R.Fold.fold (Some run.old) (nodes table.old) }
    requires reached { HasReached (on (R.meaning rules.now) bytes.now) (viewed R.Node.eq R.Fold.fold (Some run.old) table.old).kept table.old.opened (Next.Done answer) }
    ensures run { IsFolding R.Node.eq R.Fold.fold (Some run.new) (nodes table.new) }
    ensures ok { OnOk result (ClosesRight (on (R.meaning rules.now) bytes.now) answer table.old.opened (nodes (viewed R.Node.eq R.Fold.fold (Some run.old) table.old)) (nodes (viewed R.Node.eq R.Fold.fold (Some run.new) table.new))) }
    ensures err { OnErr result (MayKeepRight (on (R.meaning rules.now) bytes.now) answer table.old.opened (viewed R.Node.eq R.Fold.fold (Some run.old) table.old).kept (viewed R.Node.eq R.Fold.fold (Some run.new) table.new).kept) }
    ensures grows { table.old.looks ≤ table.new.looks }
{
    match next_open(table, run, rules, bytes, &answer) {
        Some(place) => absorb(table, run, alloc, place),
        None => close_slotted(table, alloc, answer),
    }
}

/// The run of nodes that can be kept by numbers alone once the last open node has this answer, if there are enough of them.
#[cold]
#[inline(never)]
fn founded<R: Rules>(
    table: &Table<R>,
    alloc: Global,
    rules: &R,
    bytes: &Buffer,
    answer: &Reply<R>,
) -> Result<Option<Run<R::Node, R::Fold>>, AllocError>
    requires { HasReached (on (R.meaning rules.now) bytes.now) table.now.kept table.now.opened (Next.Done answer.now) }
    ensures { IfOk result (λ run. Founds R.Node.eq R.Fold.fold run table.now.kept table.now.opened) }
{
    let Ok(value) = answer else {
        return Ok(None);
    };
    let Some(nodes) = table.fold(alloc, rules, value, bytes)? else {
        return Ok(None);
    };
    let count = rules.foldable(&nodes, value, bytes, 0, u32::MAX);
    if (count as usize) < LEAST.max(bytes.len() / BYTES) {
        return Ok(None);
    }
    let wild = table.least_open(&nodes, count);
    Ok(Some(Run {
        nodes,
        kept: 0,
        wild,
        far: count,
        lent: Lendings::new(alloc),
        moved: false,
        has_lost: false,
    }))
}

/// Keeps the last open node with its answer, where no node is kept by its number, and others may be once it has it. It is inlined, as `ask_grown` is.
#[inline(always)]
fn close_founding<R: Rules>(
    table: &mut Table<R>,
    run: &mut Option<Run<R::Node, R::Fold>>,
    alloc: Global,
    rules: &R,
    bytes: &Buffer,
    answer: Reply<R>,
) -> Result<(), AllocError>
    requires none { run.old ≡ None }
    requires reached { HasReached (on (R.meaning rules.now) bytes.now) table.old.kept table.old.opened (Next.Done answer) }
    ensures run { IsFolding R.Node.eq R.Fold.fold run.new (nodes table.new) }
    ensures ok { OnOk result (Closes answer table.old.opened (nodes table.old) (nodes (viewed R.Node.eq R.Fold.fold run.new table.new))) }
    ensures err { OnErr result (MayKeep answer table.old.opened table.old.kept (viewed R.Node.eq R.Fold.fold run.new table.new).kept) }
    ensures grows { table.old.looks ≤ table.new.looks }
{
    let found = founded(table, alloc, rules, bytes, &answer)?;
    close_slotted(table, alloc, answer)?;
    *run = found;
    Ok(())
}

/// Whether other nodes may be kept by numbers alone once a node has this answer.
#[inline(always)]
fn may_found<R: Rules>(rules: &R, answer: &Reply<R>) -> bool {
    match answer {
        Ok(value) => rules.may_fold(value),
        Err(_) => false,
    }
}

/// The nodes that are kept and those that are open.
#[derive(Drop)]
pub struct Folded<R: Rules> {
    table: Table<R>,
    run: Option<Run<R::Node, R::Fold>>,
}

impl<R: Rules> Model for Folded<R> {
    ghost use Rattle.std.specs.Prelude.{Result};
    ghost use Rattle.ksv_memo.specs.Nodes.{Tabled, nodes};
    ghost use Rattle.ksv_memo.specs.Folding.{IsFolding, viewed};

    ghost Value = { Tabled R.Node (Result R.Value R.Fault) };

    ghost view = { λ folded. viewed R.Node.eq R.Fold.fold folded.run folded.table };

    ghost invariant = { λ folded. IsFolding R.Node.eq R.Fold.fold folded.run (nodes folded.table) };
}

impl<R: Rules> Folded<R> {
    /// The empty table, which takes no memory.
    pub(crate) fn new(alloc: Global) -> Self
        ensures { result ≡ record { kept = []; opened = []; looks = 0 } }
    {
        Folded {
            table: Table::new(alloc),
            run: None,
        }
    }

    /// The number of kept nodes.
    pub(crate) fn len(&self) -> usize
        ensures { result ≡ length self.now.kept }
    {
        match &self.run {
            None => self.table.len(),
            Some(run) => self.table.len() - run.lent.len() + run.kept as usize,
        }
    }

    /// Gives memory back that was taken for nodes whose numbers others have now, if it is much.
    #[inline(always)]
    pub(crate) fn tidy(&mut self)
        ensures nodes { nodes self.new ≡ nodes self.old }
        ensures grows { self.old.looks ≤ self.new.looks }
    {
        self.table.tidy();
    }

    /// Starts a question for a node: its outcome if the node is kept or open; else the node is opened.
    pub(crate) fn start(
        &mut self,
        alloc: Global,
        rules: &R,
        node: R::Node,
    ) -> Result<Option<Outcome<R::Node, Reply<R>>>, AllocError>
        ensures ok { IfOk result (Starts R.Node.eq node (nodes self.old) (nodes self.new)) }
        ensures err { OnErr result (self.new.kept ≡ self.old.kept) }
        ensures grows { self.old.looks ≤ self.new.looks }
    {
        match &mut self.run {
            None => self.table.start(alloc, rules, node),
            Some(run) => start_beside(&mut self.table, run, alloc, rules, node),
        }
    }

    /// Asks for a node, which is given back if it is open. If it is kept, the last open node gets its answer; else it is
    /// opened. Before it is looked up, the table grows by nodes that evaluation of it completes; their calls are counted.
    #[inline(always)]
    pub(crate) fn ask(
        &mut self,
        alloc: Global,
        rules: &R,
        bytes: &Buffer,
        node: R::Node,
        turns: &mut Turns,
    ) -> Result<Option<R::Node>, AllocError>
        requires right { IsRight (on (R.meaning rules.now) bytes.now) self.old.kept }
        ensures asked { AsksGrown (on (R.meaning rules.now) bytes.now) R.Node.eq node self.old self.new turns.old turns.new result }
        ensures grows { self.old.looks ≤ self.new.looks }
    {
        match &mut self.run {
            None => self.table.ask(node),
            Some(run) => ask_grown(&mut self.table, run, alloc, rules, bytes, node, turns),
        }
    }

    /// Grows by nodes that evaluation of a node completes, for which a question is about to start; their calls are counted. No node is open.
    pub(crate) fn grow(
        &mut self,
        alloc: Global,
        rules: &R,
        bytes: &Buffer,
        node: &R::Node,
        turns: &mut Turns,
    )
        requires opened { self.old.opened ≡ [] }
        requires right { IsRight (on (R.meaning rules.now) bytes.now) self.old.kept }
        ensures grown { Grows (on (R.meaning rules.now) bytes.now) node.now self.old self.new turns.old turns.new }
        ensures grows { self.old.looks ≤ self.new.looks }
    {
        match &mut self.run {
            None => {}
            Some(run) => grow_anew(&mut self.table, run, alloc, rules, bytes, node, turns),
        }
    }

    /// One call of the rules for the last open node, which is counted.
    #[inline(always)]
    pub(crate) fn turn(
        &mut self,
        alloc: Global,
        rules: &R,
        bytes: &Buffer,
        turns: &mut Turns,
    ) -> Result<Next<R::Node, Reply<R>>, AllocError>
        requires { is_there self.old.opened ≡ true }
        ensures step { IfOk result (λ step. Steps (on (R.meaning rules.now) bytes.now) self.old.opened self.new.opened step) }
        ensures kept { self.new.kept ≡ self.old.kept }
        ensures turns { turns.new ≡ counted 1 turns.old }
        ensures looks { self.new.looks ≡ self.old.looks }
    {
        self.table.turn(alloc, rules, bytes, turns)
    }

    /// Keeps the last open node with its answer, which the one below gets, if there is one. Once it has this answer, other nodes may be kept by
    /// numbers alone; and where some are, it may be the next of them.
    #[inline(always)]
    pub(crate) fn close(
        &mut self,
        alloc: Global,
        rules: &R,
        bytes: &Buffer,
        answer: Reply<R>,
    ) -> Result<(), AllocError>
        requires { HasReached (on (R.meaning rules.now) bytes.now) self.old.kept self.old.opened (Next.Done answer) }
        ensures ok { OnOk result (ClosesRight (on (R.meaning rules.now) bytes.now) answer self.old.opened (nodes self.old) (nodes self.new)) }
        ensures err { OnErr result (MayKeepRight (on (R.meaning rules.now) bytes.now) answer self.old.opened self.old.kept self.new.kept) }
        ensures grows { self.old.looks ≤ self.new.looks }
    {
        match &mut self.run {
            Some(run) => return close_beside(&mut self.table, run, alloc, rules, bytes, answer),
            None => {}
        }
        if !may_found(rules, &answer) {
            return self.table.close(alloc, answer);
        }
        close_founding(&mut self.table, &mut self.run, alloc, rules, bytes, answer)
    }

    /// Takes the last open node out, if there is one.
    pub(crate) fn abandon(&mut self) -> bool
        ensures kept { self.new.kept ≡ self.old.kept }
        ensures rest { TakesFirst result self.old.opened self.new.opened }
        ensures grows { self.old.looks ≤ self.new.looks }
    {
        self.table.abandon()
    }

    /// Whether an open node waits for the last one.
    pub(crate) fn waits(&self) -> bool
        ensures { result ≡ nat_lt 1 (length self.now.opened) }
    {
        self.table.waits()
    }

    /// Takes out each kept node that a change touches or that asked one that goes, in its tree. No node is open. It takes
    /// no memory. The uses of kept nodes are within this many pages. An overwrite looks only near, and any other edit at
    /// what is after it. How many looks it took: those of the table, and two for the root of a run; and no fewer than the nodes
    /// that went, of which those that are kept by numbers alone need none.
    #[inline(always)]
    pub(crate) fn forget(&mut self, change: Change, pages: usize) -> u64
        requires opened { self.old.opened ≡ [] }
        requires within { AllByRecursion (λ entry. AreWithin pages entry.uses) self.old.kept }
        ensures kept { Sweeps change pages self.old.kept self.new.kept result }
        ensures opened { self.new.opened ≡ [] }
        ensures told { self.new.looks ≤ self.old.looks + result }
    {
        match &self.run {
            None => self.table.forget(change, pages),
            Some(_) => self.forget_beside(change, pages),
        }
    }

    /// The same, where nodes are kept by numbers alone.
    #[cold]
    #[inline(never)]
    fn forget_beside(&mut self, change: Change, pages: usize) -> u64
        requires opened { self.old.opened ≡ [] }
        requires within { AllByRecursion (λ entry. AreWithin pages entry.uses) self.old.kept }
        ensures kept { Sweeps change pages self.old.kept self.new.kept result }
        ensures opened { self.new.opened ≡ [] }
        ensures told { self.new.looks ≤ self.old.looks + result }
    {
        let count = self.len();
        let Some(mut run) = self.run.take() else {
            return self.table.forget(change, pages);
        };
        self.table.holds(run.nodes.root());
        let left = run.nodes.left(run.kept, change);
        let looked = self.table.forget_lent(change, pages, &mut run.lent, left);
        if self.table.holds(run.nodes.root()) {
            run.cut(left);
            run.moved = run.moved || moves_end(change);
            self.run = Some(run);
        }
        let went = count.saturating_sub(self.len());
        looked.saturating_add(2).max(went as u64)
    }
}
