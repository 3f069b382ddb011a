//! Paths by their numbers.
ghost use Rattle.std.specs.Prelude.{◌≡◌, ℕ, ◌<◌, ◌≤◌, nat_lt, [], List, Some, length, slice_get, slice_index_or, IfOk, IfSome, IfNone, OnOk, OnErr, reverse};
ghost use Rattle.ksv_places.specs.Table.{number_at, shelf_at};
ghost use Rattle.ksv_places.specs.Tree.{IsTree, look, chain, chain_length, is_name, link_at, paths_of, Hooks, IsUnhooked, IsGrown, IsMore, IsFurther, EndsAt};
ghost use Rattle.ksv_expr_value.specs.declared.step.Step.{Step};

use crate::links::Link;
use crate::numbers::Numbers;
use crate::parts::count_of;
use crate::tables::Tables;
use crate::trace::Trace;
use ksv_expr_value::Step;
use std::alloc::{AllocError, Global};
use std::marker::Model;

/// How many members of a path are in a chain at most. Further ones are in a table.
const CHAINED: u32 = 8;

/// Whether a step is that to the member of a name.
#[inline(always)]
fn is_name(step: Step, name: u32) -> bool
    ensures { result ≡ is_name step name }
{
    match step {
        Step::Name(other) => other == name,
        Step::Index(_) => false,
    }
}

/// The first member of a name in the chain that begins with a path; 0 for none.
#[inline(always)]
fn member(
    links: &[Link],
    firsts: &Numbers,
    members: &Tables,
    elements: &Tables,
    first: u32,
    name: u32,
) -> u32
    requires tree { IsTree links.now (number_at firsts.now) (shelf_at members.now) (shelf_at elements.now) }
    requires there { first < length links.now }
    ensures { result ≡ chain links.now (length links.now) first name }
{
    let mut path = first;
    while path != 0 {
        let link = links[path as usize];
        if is_name(link.step, name) {
            return path;
        }
        path = link.next;
    }
    0
}

/// The number of the path one step further; 0 for none.
#[inline(always)]
fn look(
    links: &[Link],
    firsts: &Numbers,
    members: &Tables,
    elements: &Tables,
    path: u32,
    step: Step,
) -> u32
    requires tree { IsTree links.now (number_at firsts.now) (shelf_at members.now) (shelf_at elements.now) }
    requires there { path < length links.now }
    ensures { result ≡ look links.now (number_at firsts.now) (shelf_at members.now) (shelf_at elements.now) path step }
{
    match step {
        Step::Name(name) => {
            let chained = member(links, firsts, members, elements, firsts.at(path), name);
            if chained != 0 {
                return chained;
            }
            members.at(path, name)
        }
        Step::Index(index) => elements.at(path, index),
    }
}

/// Whether a chain has room for a member more.
fn has_room(
    links: &[Link],
    firsts: &Numbers,
    members: &Tables,
    elements: &Tables,
    first: u32,
) -> bool
    requires tree { IsTree links.now (number_at firsts.now) (shelf_at members.now) (shelf_at elements.now) }
    requires there { first < length links.now }
    ensures { result ≡ nat_lt (chain_length links.now (length links.now) first) 8 }
{
    let mut path = first;
    let mut count = 0;
    while path != 0 {
        count += 1;
        if count >= CHAINED {
            return false;
        }
        path = links[path as usize].next;
    }
    true
}

/// Hooks a member to its path: at the front of the chain, or where the chain has no room in the table. The next member in the chain;
/// 0 for none.
fn hook_member(
    links: &[Link],
    firsts: &mut Numbers,
    members: &mut Tables,
    elements: &Tables,
    path: u32,
    name: u32,
    number: u32,
) -> Result<u32, AllocError>
    requires tree { IsTree links.now (number_at firsts.old) (shelf_at members.old) (shelf_at elements.now) }
    requires there { path < length links.now }
    requires some { 0 < number }
    ensures ok { IfOk result (λ next. Hooks (number_at firsts.old) (number_at firsts.new) (shelf_at members.old) (shelf_at members.new) (shelf_at elements.now) (shelf_at elements.now) path (Step.Name name) number next) }
    ensures err { OnErr result (IsUnhooked (number_at firsts.old) (number_at firsts.new) (shelf_at members.old) (shelf_at members.new) (shelf_at elements.now) (shelf_at elements.now)) }
{
    let first = firsts.at(path);
    if has_room(links, firsts, members, elements, first) {
        firsts.put(path, number)?;
        return Ok(first);
    }
    members.put(path, name, number)?;
    Ok(0)
}

/// Hooks a path to the one a step shorter. The next member in the chain; 0 for none.
#[inline(always)]
fn hook(
    links: &[Link],
    firsts: &mut Numbers,
    members: &mut Tables,
    elements: &mut Tables,
    path: u32,
    step: Step,
    number: u32,
) -> Result<u32, AllocError>
    requires tree { IsTree links.now (number_at firsts.old) (shelf_at members.old) (shelf_at elements.old) }
    requires there { path < length links.now }
    requires some { 0 < number }
    ensures ok { IfOk result (λ next. Hooks (number_at firsts.old) (number_at firsts.new) (shelf_at members.old) (shelf_at members.new) (shelf_at elements.old) (shelf_at elements.new) path step number next) }
    ensures err { OnErr result (IsUnhooked (number_at firsts.old) (number_at firsts.new) (shelf_at members.old) (shelf_at members.new) (shelf_at elements.old) (shelf_at elements.new)) }
{
    match step {
        Step::Name(name) => hook_member(links, firsts, members, elements, path, name, number),
        Step::Index(index) => {
            elements.put(path, index, number)?;
            Ok(0)
        }
    }
}

/// Adds the path a step further than one that has no such one. Its number.
#[inline(never)]
fn grow(
    links: &mut Vec<Link>,
    firsts: &mut Numbers,
    members: &mut Tables,
    elements: &mut Tables,
    path: u32,
    step: Step,
) -> Result<u32, AllocError>
    requires tree { IsTree links.old.items (number_at firsts.old) (shelf_at members.old) (shelf_at elements.old) }
    requires there { path < length links.old.items }
    requires free { look links.old.items (number_at firsts.old) (shelf_at members.old) (shelf_at elements.old) path step ≡ 0 }
    ensures tree { IsTree links.new.items (number_at firsts.new) (shelf_at members.new) (shelf_at elements.new) }
    ensures ok { IfOk result (λ number. IsGrown links.old.items links.new.items path step number) }
    ensures err { OnErr result (links.new.items ≡ links.old.items) }
{
    let number = count_of(links.as_slice().len())?;
    links.reserve(1)?;
    let next = hook(
        links.as_slice(),
        firsts,
        members,
        elements,
        path,
        step,
        number,
    )?;
    links.push_reserved(Link {
        parent: path,
        step,
        next,
    });
    Ok(number)
}

/// The root has a number.
#[inline(always)]
fn plant(links: &mut Vec<Link>) -> Result<(), AllocError>
    ensures tree { (firsts : ℕ → ℕ) (members elements : ℕ → ℕ → ℕ) → IsTree links.old.items firsts members elements → IsTree links.new.items firsts members elements }
    ensures more { IsMore (paths_of links.old.items) (paths_of links.new.items) }
    ensures there { OnOk result (0 < length links.new.items) }
{
    if links.as_slice().is_empty() {
        links.push(Link {
            parent: 0,
            step: Step::Name(0),
            next: 0,
        })?;
    }
    Ok(())
}

/// The path a step further, which gets a number if it has none.
#[inline(always)]
fn further(
    links: &mut Vec<Link>,
    firsts: &mut Numbers,
    members: &mut Tables,
    elements: &mut Tables,
    path: u32,
    step: Step,
) -> Result<u32, AllocError>
    requires tree { IsTree links.old.items (number_at firsts.old) (shelf_at members.old) (shelf_at elements.old) }
    requires there { path < length links.old.items }
    ensures tree { IsTree links.new.items (number_at firsts.new) (shelf_at members.new) (shelf_at elements.new) }
    ensures more { IsMore (paths_of links.old.items) (paths_of links.new.items) }
    ensures ok { IfOk result (λ number. IsFurther links.old.items links.new.items path step number) }
{
    let number = look(links.as_slice(), firsts, members, elements, path, step);
    if number == 0 {
        return grow(links, firsts, members, elements, path, step);
    }
    Ok(number)
}

/// Paths by their numbers: the root first, and each path after the one that is a step shorter. Contracts see the list of the paths,
/// each from its last step to its first.
#[derive(Drop)]
pub(crate) struct Tree {
    links: Vec<Link>,
    firsts: Numbers,
    members: Tables,
    elements: Tables,
}

impl Model for Tree {
    ghost use Rattle.std.specs.Prelude.{List};
    ghost use Rattle.ksv_expr_value.specs.declared.step.Step.{Step};
    ghost use Rattle.ksv_places.specs.Table.{number_at, shelf_at};
    ghost use Rattle.ksv_places.specs.Tree.{IsTree, paths_of};

    ghost Value = { List (List Step) };

    ghost view = { λ tree. paths_of tree.links.items };

    ghost invariant = { λ tree. IsTree tree.links.items (number_at tree.firsts) (shelf_at tree.members) (shelf_at tree.elements) };
}

impl Tree {
    /// No paths, which take no memory.
    pub(crate) fn new(alloc: Global) -> Self
        ensures { result ≡ [] }
    {
        Tree {
            links: Vec::new(alloc),
            firsts: Numbers::new(alloc),
            members: Tables::new(alloc),
            elements: Tables::new(alloc),
        }
    }

    /// No two numbers have one path.
    #[inline(always)]
    pub(crate) fn apart(&self)
        ensures { (i j : ℕ) → i < length self.now → j < length self.now → slice_index_or self.now i [] ≡ slice_index_or self.now j [] → i ≡ j }
    {
        let _links = &self.links;
    }

    /// How many paths there are.
    #[inline(always)]
    pub(crate) fn len(&self) -> usize
        ensures { result ≡ length self.now }
    {
        self.links.as_slice().len()
    }

    /// Where each search begins.
    #[inline(always)]
    pub(crate) fn start(&self) -> Trace
        ensures { (steps : List Step) → EndsAt self.now steps result }
    {
        let _links = &self.links;
        Trace { path: 0, steps: 0 }
    }

    /// The number of a path, if it has one. Notes where the search for it ended.
    pub(crate) fn find(&self, steps: &[Step], end: &mut Trace) -> Option<u32>
        ensures some { IfSome result (λ path. slice_get self.now path ≡ Some (reverse steps.now)) }
        ensures none { IfNone result ((i : ℕ) → i < length self.now → slice_index_or self.now i [] ≡ reverse steps.now → ⊥) }
        ensures ends { EndsAt self.now steps.now end.new }
    {
        if self.links.as_slice().is_empty() {
            *end = self.start();
            return None;
        }
        let mut path = 0;
        for count in 0..steps.len() {
            let next = look(
                self.links.as_slice(),
                &self.firsts,
                &self.members,
                &self.elements,
                path,
                steps[count],
            );
            if next == 0 {
                *end = Trace {
                    path,
                    steps: count as u32,
                };
                return None;
            }
            path = next;
        }
        *end = Trace {
            path,
            steps: steps.len() as u32,
        };
        Some(path)
    }

    /// The number of a path, which gets one if it has none, as do those it leads through. It goes on from where a search for it ended.
    #[inline(always)]
    pub(crate) fn reach(&mut self, steps: &[Step], trace: Trace) -> Result<u32, AllocError>
        requires ends { EndsAt self.old steps.now trace }
        ensures more { IsMore self.old self.new }
        ensures ok { IfOk result (λ path. slice_get self.new path ≡ Some (reverse steps.now)) }
    {
        if trace.steps > 0 && trace.steps as usize == steps.len() {
            return Ok(trace.path);
        }
        self.go_on(steps, trace)
    }

    /// As `reach`, also where there are no paths yet.
    fn go_on(&mut self, steps: &[Step], trace: Trace) -> Result<u32, AllocError>
        requires ends { EndsAt self.old steps.now trace }
        ensures more { IsMore self.old self.new }
        ensures ok { IfOk result (λ path. slice_get self.new path ≡ Some (reverse steps.now)) }
    {
        plant(&mut self.links)?;
        let mut path = trace.path;
        for count in trace.steps as usize..steps.len() {
            path = further(
                &mut self.links,
                &mut self.firsts,
                &mut self.members,
                &mut self.elements,
                path,
                steps[count],
            )?;
        }
        Ok(path)
    }

    /// Writes the steps of a path, from its first to its last.
    pub(crate) fn steps_of(&self, path: u32, steps: &mut Vec<Step>) -> Result<(), AllocError>
        requires { path < length self.now }
        ensures { OnOk result (reverse steps.new.items ≡ slice_index_or self.now path []) }
    {
        steps.clear();
        let mut above = path;
        while above != 0 {
            let link = self.links[above as usize];
            steps.push(link.step)?;
            above = link.parent;
        }
        steps.reverse();
        Ok(())
    }
}
