//! Who answers the wants of an expression.

ghost use Rattle.std.specs.Prelude.{◌≡◌, IfOk};
ghost use Rattle.ksv_expr_value.specs.Bytes.{content};
ghost use Rattle.ksv_expr_meaning.specs.Asked.{want_for};
ghost use Rattle.ksv_expr_eval.specs.Runs.{Runs};
ghost use Rattle.ksv_expr_eval.specs.Said.{said};

use crate::answer::Answer;
use crate::halt::Halt;
use ksv_expr_meaning::Want;
use ksv_expr_value::{Ctx, Fault, FaultKind, Parts};
use std::alloc::{AllocError, Global};

/// Who answers the wants of an expression. `By` names the way of answering, so that a crate may say how a type of another crate
/// answers.
pub trait Answers<By> {
    ghost use Rattle.std.specs.Prelude.{ℕ, List};
    ghost use Rattle.ksv_expr_eval.specs.Answering.{Answering};
    ghost use Rattle.ksv_expr_value.specs.Setting.{Setting};

    /// What is needed where a want has no answer yet.
    type Need: Drop;

    /// Bytes of an answer.
    type Bytes: Drop;

    /// How each want of an expression in this context is answered, and what its own faults are.
    ghost handler: { Setting → Answering Self Self.Need };

    /// The content of bytes.
    ghost bytes: { Self.Bytes → List ℕ };

    /// The allocator.
    fn alloc(&self) -> Global;

    /// Bytes, as they are lent.
    fn parts(lent: &Self::Bytes) -> Parts<'_>
        ensures { content result ≡ bytes lent.now };

    /// The fault of an expression in this context, by its kind.
    fn own_fault(&self, ctx: &Ctx, kind: FaultKind) -> Result<Fault, AllocError>
        ensures { IfOk result (λ fault. fault ≡ (handler ctx.now).raise kind self.now) };

    /// The answer to a want of an expression in this context.
    fn answer(&mut self, ctx: &Ctx, want: Want) -> Result<Answer<Self::Bytes>, Halt<Self::Need>>
        ensures { Runs (handler ctx.now) (want_for want) (said bytes) self.old self.new result };
}
