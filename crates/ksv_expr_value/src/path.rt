//! Where a value is in a described file: the steps that lead to it from the root.
ghost use Rattle.std.specs.Prelude.{◌≡◌, ℕ, ◌+◌, ◌<◌, ◌≤◌, ◌++◌, [], ◌∷◌, length, reverse, true, IsTrue, IfOk, IfSome, IsSome, is_some, ◌↔◌, slice_get};
ghost use Rattle.ksv_expr_value.specs.Trail.{Trail, fits, root, child, parent, last, holder, list_holder, step_fits, InRange};
ghost use Rattle.std.specs.Hash as fed;
ghost use Rattle.ksv_expr_value.specs.contracts.step.StepPartialEq.TheImpl.Laws.{laws-law as step_partial_laws};
ghost use Rattle.ksv_expr_value.specs.contracts.step.StepEq.TheImpl.Laws.{laws-law as step_laws};
ghost use Rattle.ksv_expr_value.specs.contracts.step.StepHash.TheImpl.Laws.{respects_eq-law as step_respects_eq};
ghost use Rattle.std.specs.Hash.{on_Alike, items_Alike};
ghost use Rattle.std.specs.Cmp.{on_per, on_equiv};
ghost use Rattle.std.specs.Cmp.Lexicographic.{pointwise, lists_per, lists_equiv};

use crate::step::Step;
use crate::steps::Steps;
use std::alloc::{AllocError, Global};
use std::hash::{Hash, Hasher};
use std::marker::Model;

/// The steps from the root to a value: at most 64, and each index below 1,048,576.
///
/// Contracts see a path as its steps from the last to the first, with the proof that they fit. Two paths are equal
/// if they have the same steps.
#[derive(Drop)]
pub struct Path {
    steps: Steps,
    ghost valid: { IsTrue (fits (reverse steps)) },
}

impl Model for Path {
    ghost use Rattle.std.specs.Prelude.{reverse};
    ghost use Rattle.ksv_expr_value.specs.Trail.{Trail};

    ghost Value = { Trail };

    ghost view = { λ p. record { upward = reverse p.steps; valid = p.valid } };
}

impl Path {
    /// The most steps that a path has.
    pub const MAX_STEPS: usize = 64;

    /// The first number that is no index of an element.
    pub const MAX_INDEX: u32 = 1048576;

    /// The path of no steps, which is the root's.
    pub fn root(_alloc: Global) -> Path
        ensures { result ≡ root }
    {
        Path {
            steps: Steps::none(),
        }
    }

    /// The path of these steps, from the first to the last.
    pub fn from_steps(alloc: Global, steps: &[Step]) -> Result<Path, AllocError>
        requires { IsTrue (fits (reverse steps.now)) }
        ensures { IfOk result (λ path. path.upward ≡ reverse steps.now) }
    {
        Ok(Path {
            steps: Steps::from_slice(alloc, steps)?,
        })
    }

    /// How many steps the path has, at most 64.
    #[inline(always)]
    pub fn len(&self) -> usize
        ensures len { result ≡ length self.now.upward }
        ensures small { result ≤ 64 }
    {
        self.steps.len()
    }

    /// The steps, from the first to the last.
    #[inline(always)]
    pub fn steps(&self) -> &[Step]
        ensures { result.now ≡ reverse self.now.upward }
    {
        self.steps.as_slice()
    }

    /// The last step; the root has none.
    #[inline(always)]
    pub fn last(&self) -> Option<Step>
        ensures last { result ≡ last self.now }
        ensures in_range { IfSome result InRange }
    {
        self.last_step()
    }

    #[inline(always)]
    fn last_step(&self) -> Option<Step>
        ensures { result ≡ last self.now }
    {
        let steps = self.steps.as_slice();
        steps.last().copied()
    }

    /// A copy of the path.
    #[inline(always)]
    pub fn copy(&self, alloc: Global) -> Result<Path, AllocError>
        ensures { IfOk result (λ path. path ≡ self.now) }
    {
        let steps = self.steps.copy(alloc)?;
        Ok(Path { steps })
    }

    /// The path without its last step; of the root, the root itself.
    #[inline(always)]
    pub fn parent(&self, alloc: Global) -> Result<Path, AllocError>
        ensures { IfOk result (λ path. path ≡ parent self.now) }
    {
        let len = self.len();
        let shorter = if len == 0 { 0 } else { len - 1 };
        let steps = self.steps.front(alloc, shorter)?;
        Ok(Path { steps })
    }

    /// The object that holds this attribute: the path without its last name and the index after it, if any. The
    /// root has none.
    pub fn holder(&self, alloc: Global) -> Result<Option<Path>, AllocError>
        ensures { IfOk result (λ path. path ≡ holder self.now) }
    {
        match self.last() {
            None => Ok(None),
            Some(Step::Name(_)) => Ok(Some(self.parent(alloc)?)),
            Some(Step::Index(_)) => {
                let list = self.parent(alloc)?;
                list.holder_of_list(alloc)
            }
        }
    }

    fn holder_of_list(&self, alloc: Global) -> Result<Option<Path>, AllocError>
        ensures { IfOk result (λ path. path ≡ list_holder self.now (last self.now)) }
    {
        match self.last() {
            Some(Step::Name(_)) => Ok(Some(self.parent(alloc)?)),
            _ => Ok(None),
        }
    }

    #[inline(always)]
    fn child(&self, alloc: Global, step: Step) -> Result<Option<Path>, AllocError>
        requires { IsTrue (step_fits step) }
        ensures { IfOk result (λ path. path ≡ child self.now step) }
    {
        let len = self.len();
        if len == Path::MAX_STEPS {
            return Ok(None);
        }
        let steps = self.steps.with(alloc, step)?;
        Ok(Some(Path { steps }))
    }

    /// The path to the member of this name; None if it would have more than 64 steps.
    #[inline(always)]
    pub fn child_name(&self, alloc: Global, name: u32) -> Result<Option<Path>, AllocError>
        ensures { IfOk result (λ path. path ≡ child self.now (Step.Name name)) }
    {
        self.child(alloc, Step::Name(name))
    }

    /// The path to the element of this index; None if it would have more than 64 steps, or the index is 1,048,576
    /// or above.
    #[inline(always)]
    pub fn child_index(&self, alloc: Global, index: u32) -> Result<Option<Path>, AllocError>
        ensures { IfOk result (λ path. path ≡ child self.now (Step.Index index)) }
    {
        if index >= Path::MAX_INDEX {
            return Ok(None);
        }
        self.child(alloc, Step::Index(index))
    }

    /// Whether the path to a member fits.
    #[inline(always)]
    fn has_member(&self, _name: u32) -> bool
        ensures { result ≡ is_some (child self.now (Step.Name _name)) }
    {
        self.len() < Path::MAX_STEPS
    }

    /// Whether the path to an element fits.
    #[inline(always)]
    fn has_element(&self, index: u32) -> bool
        ensures { result ≡ is_some (child self.now (Step.Index index)) }
    {
        index < Path::MAX_INDEX && self.len() < Path::MAX_STEPS
    }

    /// Whether the path one step further fits.
    #[inline(always)]
    pub fn has_part(&self, step: Step) -> bool
        ensures { result ≡ is_some (child self.now step) }
    {
        match step {
            Step::Name(name) => self.has_member(name),
            Step::Index(index) => self.has_element(index),
        }
    }

    /// Whether the path to a member of what is above fits; the path above has a step less.
    #[inline(always)]
    fn has_member_beside(&self, _name: u32) -> bool
        ensures { result ≡ is_some (child (parent self.now) (Step.Name _name)) }
    {
        true
    }

    /// Whether the path to an element of what is above fits.
    #[inline(always)]
    fn has_element_beside(&self, index: u32) -> bool
        ensures { result ≡ is_some (child (parent self.now) (Step.Index index)) }
    {
        index < Path::MAX_INDEX
    }

    /// Whether the path to a part of what is above fits.
    #[inline(always)]
    pub fn has_part_beside(&self, step: Step) -> bool
        ensures { result ≡ is_some (child (parent self.now) step) }
    {
        match step {
            Step::Name(name) => self.has_member_beside(name),
            Step::Index(index) => self.has_element_beside(index),
        }
    }
}

impl PartialEq for Path {
    ghost eq = { λ a b. pointwise ⟦<Step as PartialEq>⟧.eq (reverse a.upward) (reverse b.upward) };

    ghost laws = { on_per (λ (p : Trail). reverse p.upward) (lists_per step_partial_laws) };

    fn eq(&self, other: &Path) -> bool {
        self.steps() == other.steps()
    }
}

impl Eq for Path {
    ghost laws = { on_equiv (λ (p : Trail). reverse p.upward) (lists_equiv step_laws) };
}

impl Hash for Path {
    ghost hash_input = { λ p. fed.slice ⟦<Step as Hash>⟧.hash_input (reverse p.upward) };

    ghost respects_eq = { (on_Alike (λ (p : Trail). reverse p.upward) (items_Alike (record { fed = step_respects_eq }))).fed };

    fn hash<H: Hasher>(&self, state: &mut H) {
        self.steps().hash(state);
    }
}
