//! One turn of a node's rule: what it asks is answered by the replies, in their order (`replies`), and it reads the bytes
//! (`readings`).

ghost use Rattle.std.specs.Prelude.{◌≡◌, ◌≤◌, length, [], IfErr, IsErr};
ghost use Rattle.ksv_nodes.specs.Rule.{raise};
ghost use Rattle.ksv_nodes.specs.Turning.{Runs, TakesReply, IsFault};

pub(crate) mod readings;
mod replies;

use crate::given::Given;
use crate::node::Node;
use ksv_bytes::{Buffer, Use};
use ksv_expr_value::{Fault, FaultKind, Path};
use ksv_memo_rules::Replies;
use smallvec::SmallVec;
use std::alloc::{AllocError, AllocFailed, Global};
use std::marker::Model;

/// How many uses a turn holds by itself; further ones are on the heap. Most calls of a rule have one or none.
const INLINE_USES: usize = 2;

/// Why a rule halts before its end.
#[derive(Drop)]
pub enum Halt {
    /// It needs the answer of this node.
    Need(Node),
    /// It has this fault.
    Fault(Fault),
    /// Memory was refused.
    Memory,
}

impl From<AllocError> for Halt {
    ghost use Rattle.std.specs.Prelude.{◌≡◌};
    ghost use Rattle.ksv_nodes.specs.declared.turn.Halt.TheVariants.{Memory};

    ghost from_gives = { λ _ e. e ≡ Memory };

    fn from(_e: AllocError) -> Halt {
        Halt::Memory
    }
}

impl<T: Drop> From<AllocFailed<T>> for Halt {
    ghost use Rattle.std.specs.Prelude.{◌≡◌};
    ghost use Rattle.ksv_nodes.specs.declared.turn.Halt.TheVariants.{Memory};

    ghost from_gives = { λ _ e. e ≡ Memory };

    fn from(_e: AllocFailed<T>) -> Halt {
        Halt::Memory
    }
}

/// A node's rule while it runs: the replies so far, and what its readings depend on so far.
#[derive(Drop)]
pub struct Turn<'a> {
    alloc: Global,
    here: &'a Path,
    bytes: &'a Buffer,
    replies: &'a Replies<'a, Given, Fault>,
    at: usize,
    uses: SmallVec<Use, INLINE_USES>,
}

impl<'a> Model for Turn<'a> {
    ghost use Rattle.std.specs.Prelude.{◌≤◌, length, drop};
    ghost use Rattle.ksv_nodes.specs.Turning.{State};

    ghost Value = { State };

    ghost view = { λ t. record { here = t.here.now; bytes = t.bytes.now; replies = drop t.at t.replies.now; uses = t.uses.items } };

    ghost invariant = { λ t. t.at ≤ length t.replies.now };
}

impl<'a> Turn<'a> {
    /// A turn that has used nothing yet.
    pub fn new(
        alloc: Global,
        here: &'a Path,
        bytes: &'a Buffer,
        replies: &'a Replies<'a, Given, Fault>,
    ) -> Turn<'a>
        ensures { result ≡ record { here = here.now; bytes = bytes.now; replies = replies.now; uses = [] } }
    {
        Turn {
            alloc,
            here,
            bytes,
            replies,
            at: 0,
            uses: SmallVec::new(alloc),
        }
    }

    /// The allocator of the rule.
    pub fn alloc(&self) -> Global {
        self.alloc
    }

    /// The path of the node.
    pub fn here(&self) -> &'a Path
        ensures { result.now ≡ self.now.here }
    {
        self.here
    }

    /// What its readings depend on.
    pub fn uses(&self) -> &[Use]
        ensures { result.now ≡ self.now.uses }
    {
        self.uses.as_slice()
    }

    /// The next reply, if one is left.
    #[inline(always)]
    fn next_reply(&mut self) -> Option<Result<&'a Given, &'a Fault>>
        ensures { TakesReply self.old self.new result }
    {
        let reply = self.replies.get(self.at)?;
        let count = self.replies.len();
        prove!(self.at < count);
        self.at += 1;
        Some(reply)
    }

    /// The fault of a node that was asked.
    #[cold]
    #[inline(never)]
    fn fault<X>(&self, fault: &Fault) -> Result<X, Halt>
        ensures fault { IfErr result (λ e. IsFault fault.now e) }
        ensures err { IsErr result }
    {
        Err(Halt::Fault(fault.copy(self.alloc)?))
    }

    /// A fault at the path of the node.
    #[cold]
    #[inline(never)]
    pub fn raise<X>(&self, kind: FaultKind) -> Result<X, Halt>
        ensures { Runs (raise kind) (λ x. x) self.now self.now result }
    {
        Err(Halt::Fault(Fault {
            kind,
            path: self.here.copy(self.alloc)?,
        }))
    }
}
