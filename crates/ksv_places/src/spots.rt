//! Nodes by their kinds and steps.
ghost use Rattle.std.specs.Prelude.{◌≡◌, ℕ, ◌<◌, ◌≤◌, ◌+◌, ◌++◌, ◌∷◌, max, [], Some, length, slice_get, slice_index_or, slice_set, reverse, take, IfOk, IfSome, IfNone, OnOk, OnErr};
ghost use Rattle.std.specs.Vec.{vec_len, vec_capacity};
ghost use Rattle.ksv_places.specs.Spots.{mark_in, with_mark, row_at, spot_at, spots_of, IsRoomed};
ghost use Rattle.ksv_places.specs.Tree.{EndsAt};

use crate::links::{Row, Spot};
use crate::parts::count_of;
use crate::trace::Trace;
use crate::tree::Tree;
use ksv_expr_value::Step;
use ksv_nodes::NodeKind;
use std::alloc::{AllocError, Global};
use std::marker::Model;

/// The mark of a kind in a row: the place of the path's node of this kind, and one more; 0 for none.
#[inline(always)]
fn mark_in(row: Row, kind: NodeKind) -> u32
    ensures { result ≡ mark_in row kind }
{
    match kind {
        NodeKind::Head => row.head,
        NodeKind::Value => row.value,
        NodeKind::End => row.end,
        NodeKind::Rest => row.rest,
    }
}

/// The mark of a kind in a path's row; 0 where there is no row.
#[inline(always)]
fn mark_at(rows: &[Row], path: u32, kind: NodeKind) -> u32
    ensures { result ≡ mark_in (row_at rows.now path) kind }
{
    if (path as usize) < rows.len() {
        mark_in(rows[path as usize], kind)
    } else {
        0
    }
}

/// The row with another mark of a kind.
#[inline(always)]
fn with_mark(row: Row, kind: NodeKind, mark: u32) -> Row
    ensures { result ≡ with_mark row kind mark }
{
    match kind {
        NodeKind::Head => Row { head: mark, ..row },
        NodeKind::Value => Row { value: mark, ..row },
        NodeKind::End => Row { end: mark, ..row },
        NodeKind::Rest => Row { rest: mark, ..row },
    }
}

/// There is a row for a path. New ones have no mark.
#[inline(always)]
fn widen(rows: &mut Vec<Row>, path: u32) -> Result<(), AllocError>
    ensures same { (other : ℕ) → row_at rows.new.items other ≡ row_at rows.old.items other }
    ensures ok { OnOk result (path < length rows.new.items) }
    ensures few { length rows.new.items ≤ max (length rows.old.items) (path + 1) }
{
    while rows.as_slice().len() <= path as usize {
        rows.push(Row {
            head: 0,
            value: 0,
            end: 0,
            rest: 0,
        })?;
    }
    Ok(())
}

/// The number of a path, for which there is a row then.
#[inline(always)]
fn make_row(
    tree: &mut Tree,
    rows: &mut Vec<Row>,
    steps: &[Step],
    trace: Trace,
) -> Result<u32, AllocError>
    requires few { length rows.old.items ≤ length tree.old }
    requires ends { EndsAt tree.old steps.now trace }
    ensures roomed { IsRoomed tree.old tree.new rows.old.items rows.new.items }
    ensures ok { IfOk result (λ path. (slice_get tree.new path ≡ Some (reverse steps.now)) × (path < length rows.new.items)) }
{
    let path = tree.reach(steps, trace)?;
    widen(rows, path)?;
    Ok(path)
}

/// Sets a mark in a path's row.
#[inline(always)]
fn write(rows: &mut Vec<Row>, path: u32, kind: NodeKind, mark: u32)
    requires { path < length rows.old.items }
    ensures { rows.new.items ≡ slice_set rows.old.items path (with_mark (row_at rows.old.items path) kind mark) }
{
    let row = rows[path as usize];
    rows[path as usize] = with_mark(row, kind, mark);
}

/// The spot of a place.
#[inline(always)]
fn spot_at(paths: &[u32], kinds: &[NodeKind], place: usize) -> Spot
    requires both { length kinds.now ≡ length paths.now }
    requires there { place < length paths.now }
    ensures { result ≡ spot_at (spots_of paths.now kinds.now) place }
{
    Spot {
        path: paths[place],
        kind: kinds[place],
    }
}

/// Nodes by their kinds and steps. Contracts see the list of the nodes, each its kind and its steps from the last to the first, the
/// paths by their numbers, and where the last search ended.
#[derive(Drop)]
pub(crate) struct Spots {
    alloc: Global,
    tree: Tree,
    rows: Vec<Row>,
    /// The path of each place's node.
    paths: Vec<u32>,
    /// Its kind.
    kinds: Vec<NodeKind>,
    /// Where the last search ended.
    end: Trace,
}

impl Model for Spots {
    ghost use Rattle.std.specs.Prelude.{◌≡◌, length};
    ghost use Rattle.ksv_places.specs.Spots.{Spotted, IsFiled, nodes_of, spots_of};

    ghost Value = { Spotted };

    ghost view = { λ all. record { nodes = nodes_of all.tree (spots_of all.paths.items all.kinds.items); paths = all.tree; end = all.end } };

    ghost invariant = { λ all. record { both : length all.kinds.items ≡ length all.paths.items; filed : IsFiled all.tree all.rows.items (spots_of all.paths.items all.kinds.items) } };
}

impl Spots {
    /// No nodes, which take no memory.
    pub(crate) fn new(alloc: Global) -> Self
        ensures { result.nodes ≡ [] }
    {
        Spots {
            alloc,
            tree: Tree::new(alloc),
            rows: Vec::new(alloc),
            paths: Vec::new(alloc),
            kinds: Vec::new(alloc),
            end: Trace { path: 0, steps: 0 },
        }
    }

    /// How many nodes there are.
    #[inline(always)]
    pub(crate) fn len(&self) -> usize
        ensures { result ≡ length self.now.nodes }
    {
        self.paths.as_slice().len()
    }

    /// How many paths there are, also such as lead to no node.
    #[inline(always)]
    pub(crate) fn path_count(&self) -> usize
        ensures { result ≡ length self.now.paths }
    {
        self.tree.len()
    }

    /// No two places have one node.
    #[inline(always)]
    pub(crate) fn apart(&self)
        ensures { (i j : ℕ) → i < length self.now.nodes → j < length self.now.nodes → slice_get self.now.nodes i ≡ slice_get self.now.nodes j → i ≡ j }
    {
        self.tree.apart();
    }

    /// The place of a node, if it has one. Notes where the search for it ended.
    #[inline(always)]
    pub(crate) fn find(&mut self, kind: NodeKind, steps: &[Step]) -> Option<usize>
        ensures some { IfSome result (λ i. slice_get self.new.nodes i ≡ Some (kind, reverse steps.now)) }
        ensures none { IfNone result ((i : ℕ) → slice_get self.new.nodes i ≡ Some (kind, reverse steps.now) → ⊥) }
        ensures ends { EndsAt self.new.paths steps.now self.new.end }
        ensures nodes { self.new.nodes ≡ self.old.nodes }
        ensures paths { self.new.paths ≡ self.old.paths }
    {
        self.tree.apart();
        let path = self.tree.find(steps, &mut self.end)?;
        let mark = mark_at(self.rows.as_slice(), path, kind);
        if mark == 0 {
            return None;
        }
        Some((mark - 1) as usize)
    }

    /// Gives the next place to a node that has none, from where the search for it ended.
    pub(crate) fn add(&mut self, kind: NodeKind, steps: &[Step]) -> Result<(), AllocError>
        requires none { (i : ℕ) → slice_get self.old.nodes i ≡ Some (kind, reverse steps.now) → ⊥ }
        requires ends { EndsAt self.old.paths steps.now self.old.end }
        ensures ok { OnOk result (self.new.nodes ≡ self.old.nodes ++ (kind, reverse steps.now) ∷ []) }
        ensures err { OnErr result (self.new.nodes ≡ self.old.nodes) }
    {
        let count = count_of(self.paths.as_slice().len())?;
        let mark = count_of(count as usize + 1)?;
        self.paths.reserve(1)?;
        self.kinds.reserve(1)?;
        let path = make_row(&mut self.tree, &mut self.rows, steps, self.end)?;
        write(&mut self.rows, path, kind, mark);
        self.paths.push_reserved(path);
        self.kinds.push_reserved(kind);
        Ok(())
    }

    /// Gives the place of another node to a node that has none.
    pub(crate) fn give(
        &mut self,
        place: usize,
        kind: NodeKind,
        steps: &[Step],
    ) -> Result<(), AllocError>
        requires none { (i : ℕ) → slice_get self.old.nodes i ≡ Some (kind, reverse steps.now) → ⊥ }
        requires place_in { place < length self.old.nodes }
        ensures ok { OnOk result (self.new.nodes ≡ slice_set self.old.nodes place (kind, reverse steps.now)) }
        ensures err { OnErr result (self.new.nodes ≡ self.old.nodes) }
    {
        let count = count_of(place)?;
        let mark = count_of(count as usize + 1)?;
        let trace = self.tree.start();
        let path = make_row(&mut self.tree, &mut self.rows, steps, trace)?;
        let spot = spot_at(self.paths.as_slice(), self.kinds.as_slice(), place);
        write(&mut self.rows, spot.path, spot.kind, 0);
        write(&mut self.rows, path, kind, mark);
        self.paths[place] = path;
        self.kinds[place] = kind;
        Ok(())
    }

    /// The kind of the node of a place, whose steps are written.
    fn node_at(&self, place: usize, steps: &mut Vec<Step>) -> Result<NodeKind, AllocError>
        requires { place < length self.now.nodes }
        ensures { IfOk result (λ kind. slice_get self.now.nodes place ≡ Some (kind, reverse steps.new.items)) }
    {
        let spot = spot_at(self.paths.as_slice(), self.kinds.as_slice(), place);
        self.tree.steps_of(spot.path, steps)?;
        Ok(spot.kind)
    }

    /// The first nodes again, with no path that isn't theirs or leads to one of theirs.
    pub(crate) fn rebuilt(&self, count: usize) -> Result<Spots, AllocError>
        requires { count ≤ length self.now.nodes }
        ensures { IfOk result (λ fresh. fresh.nodes ≡ take count self.now.nodes) }
    {
        self.apart();
        let mut fresh = Spots::new(self.alloc);
        let mut steps = Vec::new(self.alloc);
        for place in 0..count {
            let kind = self.node_at(place, &mut steps)?;
            let slice = steps.as_slice();
            let _none = fresh.find(kind, slice);
            fresh.add(kind, slice)?;
        }
        Ok(fresh)
    }
}
