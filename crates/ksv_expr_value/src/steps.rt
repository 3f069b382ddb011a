//! The steps of a path. Few of them lie in the value itself, and are copied as they lie there.
ghost use Rattle.std.specs.Prelude.{◌≡◌, ◌≤◌, ◌<◌, ◌++◌, [], ◌∷◌, length, take, IfOk};

use crate::step::Step;
use std::alloc::{AllocError, Global};
use std::marker::Model;

/// How many steps lie in the value itself at most; where there are more, all are on the heap. Most paths of real descriptions are short.
const FEW: usize = 3;

/// Steps that lie in the value itself: the first ones of an array.
#[derive(Clone, Copy)]
pub(crate) struct Few {
    steps: [Step; FEW],
    count: u32,
    ghost fits: { (count ≤ 3) × (length steps ≡ 3) },
}

impl Few {
    ghost use Rattle.ksv_expr_value.specs.Kept.{steps_of};

    /// No steps.
    #[inline(always)]
    fn none() -> Few
        ensures { steps_of result ≡ [] }
    {
        Few {
            steps: [Step::default(); FEW],
            count: 0,
        }
    }

    /// The steps.
    #[inline(always)]
    fn as_slice(&self) -> &[Step]
        ensures { result.now ≡ steps_of self.now }
    {
        &self.steps[..self.count as usize]
    }

    /// How many there are.
    #[inline(always)]
    fn len(&self) -> usize
        ensures len { result ≡ length (steps_of self.now) }
        ensures few { result ≤ 3 }
    {
        self.count as usize
    }

    /// The first of them.
    #[inline(always)]
    fn front(&self, count: usize) -> Few
        requires { count ≤ length (steps_of self.now) }
        ensures { steps_of result ≡ take count (steps_of self.now) }
    {
        Few {
            steps: self.steps,
            count: count as u32,
        }
    }

    /// These steps and one more.
    #[inline(always)]
    fn with(&self, step: Step) -> Few
        requires { length (steps_of self.now) < 3 }
        ensures { steps_of result ≡ steps_of self.now ++ step ∷ [] }
    {
        let mut steps = self.steps;
        steps[self.count as usize] = step;
        Few {
            steps,
            count: self.count + 1,
        }
    }

    /// These steps, which are few.
    fn of(steps: &[Step]) -> Few
        requires { length steps.now ≤ 3 }
        ensures { steps_of result ≡ steps.now }
    {
        let mut few = Few::none();
        for step in steps {
            few = few.with(*step);
        }
        few
    }
}

/// Where steps lie.
#[derive(Drop)]
pub(crate) enum Kept {
    /// In the value.
    Few(Few),
    /// On the heap.
    Many(Vec<Step>),
}

/// Steps in a row. Contracts see them as a list.
#[derive(Drop)]
pub(crate) struct Steps {
    kept: Kept,
}

impl Model for Steps {
    ghost use Rattle.std.specs.Prelude.{List};
    ghost use Rattle.ksv_expr_value.specs.declared.step.Step.{Step};
    ghost use Rattle.ksv_expr_value.specs.Kept.{steps_in};

    ghost Value = { List Step };

    ghost view = { λ s. steps_in s.kept };
}

impl Steps {
    /// No steps.
    #[inline(always)]
    pub(crate) fn none() -> Steps
        ensures { result ≡ [] }
    {
        Steps {
            kept: Kept::Few(Few::none()),
        }
    }

    /// These steps.
    #[inline(never)]
    pub(crate) fn from_slice(alloc: Global, steps: &[Step]) -> Result<Steps, AllocError>
        ensures { IfOk result (λ new. new ≡ steps.now) }
    {
        let kept = if steps.len() <= FEW {
            Kept::Few(Few::of(steps))
        } else {
            Kept::Many(Vec::from_slice(alloc, steps)?)
        };
        Ok(Steps { kept })
    }

    /// The steps.
    #[inline(always)]
    pub(crate) fn as_slice(&self) -> &[Step]
        ensures { result.now ≡ self.now }
    {
        match &self.kept {
            Kept::Few(few) => few.as_slice(),
            Kept::Many(steps) => steps.as_slice(),
        }
    }

    /// How many there are.
    #[inline(always)]
    pub(crate) fn len(&self) -> usize
        ensures { result ≡ length self.now }
    {
        match &self.kept {
            Kept::Few(few) => few.len(),
            Kept::Many(steps) => steps.len(),
        }
    }

    /// A copy of them.
    #[inline(always)]
    pub(crate) fn copy(&self, alloc: Global) -> Result<Steps, AllocError>
        ensures { IfOk result (λ copy. copy ≡ self.now) }
    {
        match &self.kept {
            Kept::Few(few) => Ok(Steps {
                kept: Kept::Few(*few),
            }),
            Kept::Many(steps) => Steps::from_slice(alloc, steps.as_slice()),
        }
    }

    /// A copy of the first of them.
    #[inline(always)]
    pub(crate) fn front(&self, alloc: Global, count: usize) -> Result<Steps, AllocError>
        requires { count ≤ length self.now }
        ensures { IfOk result (λ front. front ≡ take count self.now) }
    {
        match &self.kept {
            Kept::Few(few) => Ok(Steps {
                kept: Kept::Few(few.front(count)),
            }),
            Kept::Many(steps) => Steps::from_slice(alloc, &steps.as_slice()[..count]),
        }
    }

    /// A copy of them with one step more.
    #[inline(always)]
    pub(crate) fn with(&self, alloc: Global, step: Step) -> Result<Steps, AllocError>
        requires { length self.now < 64 }
        ensures { IfOk result (λ more. more ≡ self.now ++ step ∷ []) }
    {
        if let Kept::Few(few) = &self.kept {
            if few.len() < FEW {
                return Ok(Steps {
                    kept: Kept::Few(few.with(step)),
                });
            }
        }
        self.with_many(alloc, step)
    }

    /// These steps and one more, on the heap.
    #[inline(never)]
    fn with_many(&self, alloc: Global, step: Step) -> Result<Steps, AllocError>
        requires { length self.now < 64 }
        ensures { IfOk result (λ more. more ≡ self.now ++ step ∷ []) }
    {
        let mut steps = Vec::with_capacity(alloc, self.len() + 1)?;
        steps.extend_from_slice(self.as_slice())?;
        steps.push(step)?;
        Ok(Steps {
            kept: Kept::Many(steps),
        })
    }
}
