//! What a turn asks of other nodes: the next reply, in the form of what was asked.

ghost use Rattle.std.specs.Prelude.{◌≡◌};
ghost use Rattle.ksv_expr_value.specs.Trail.{parent};
ghost use Rattle.ksv_memo_rules.specs.Slots.{lent};
ghost use Rattle.ksv_nodes.specs.Rule.{in_end, ask_head, ask_value, ask_end, ask_rest, part, value_of_part, end_of_part};
ghost use Rattle.ksv_nodes.specs.Turning.{Runs, headed, valued, ended, RepliesWith};

use crate::given::{Ended, Given, Head, Rested};
use crate::node::{Node, NodeKind};
use crate::turn::{Halt, Turn};
use ksv_expr_value::{Fault, FaultKind, Path, Step, Value};

impl<'a> Turn<'a> {
    /// The next reply, which is for the node of this kind and path. The path is copied only where none is left.
    #[inline(always)]
    fn reply(&mut self, kind: NodeKind, path: &Path) -> Result<Result<&'a Given, &'a Fault>, Halt>
        ensures { RepliesWith (record { kind = kind; path = path.now }) self.old self.new result }
    {
        match self.next_reply() {
            None => Err(Halt::Need(Node {
                kind,
                path: path.copy(self.alloc)?,
            })),
            Some(reply) => Ok(reply),
        }
    }

    /// The next reply, which is for the node of this kind at the path above. That path is made only where none is left.
    #[inline(always)]
    fn reply_above(
        &mut self,
        kind: NodeKind,
        path: &Path,
    ) -> Result<Result<&'a Given, &'a Fault>, Halt>
        ensures { RepliesWith (record { kind = kind; path = parent path.now }) self.old self.new result }
    {
        match self.next_reply() {
            None => Err(Halt::Need(Node {
                kind,
                path: path.parent(self.alloc)?,
            })),
            Some(reply) => Ok(reply),
        }
    }

    /// What is at a path, and where.
    #[inline(always)]
    pub fn head(&mut self, path: &Path) -> Result<&'a Head, Halt>
        ensures { Runs (ask_head path.now) (λ head. head.now) self.old self.new result }
    {
        let reply = self.reply(NodeKind::Head, path)?;
        self.headed(reply)
    }

    /// What is at the path above a path, and where. That path is made only where no reply is left.
    #[inline(always)]
    pub fn head_above(&mut self, path: &Path) -> Result<&'a Head, Halt>
        ensures { Runs (ask_head (parent path.now)) (λ head. head.now) self.old self.new result }
    {
        let reply = self.reply_above(NodeKind::Head, path)?;
        self.headed(reply)
    }

    /// A reply as a head.
    #[inline(always)]
    fn headed(&self, reply: Result<&'a Given, &Fault>) -> Result<&'a Head, Halt>
        ensures { Runs (headed (lent reply.entry)) (λ head. head.now) self.now self.now result }
    {
        match reply {
            Ok(Given::Head(head)) => Ok(head),
            Ok(_) => self.raise(FaultKind::BadType),
            Err(fault) => self.fault(fault),
        }
    }

    /// The value at a path.
    #[inline(always)]
    pub fn value(&mut self, path: &Path) -> Result<&'a Value, Halt>
        ensures { Runs (ask_value path.now) (λ value. value.now) self.old self.new result }
    {
        let reply = self.reply(NodeKind::Value, path)?;
        self.valued(reply)
    }

    /// A reply as a value.
    #[inline(always)]
    fn valued(&self, reply: Result<&'a Given, &Fault>) -> Result<&'a Value, Halt>
        ensures { Runs (valued (lent reply.entry)) (λ value. value.now) self.now self.now result }
    {
        match reply {
            Ok(Given::Value(value)) => Ok(value),
            Ok(_) => self.raise(FaultKind::BadType),
            Err(fault) => self.fault(fault),
        }
    }

    /// Where the thing at a path ends.
    #[inline(always)]
    pub fn end(&mut self, path: &Path) -> Result<Ended, Halt>
        ensures { Runs (ask_end path.now) (λ ended. ended) self.old self.new result }
    {
        let reply = self.reply(NodeKind::End, path)?;
        self.ended(reply)
    }

    /// A reply as an end.
    #[inline(always)]
    fn ended(&self, reply: Result<&Given, &Fault>) -> Result<Ended, Halt>
        ensures { Runs (ended (lent reply.entry)) (λ ended. ended) self.now self.now result }
    {
        match reply {
            Ok(given) => self.in_end(given),
            Err(fault) => self.fault(fault),
        }
    }

    /// An answer as an end.
    #[inline(always)]
    fn in_end(&self, given: &Given) -> Result<Ended, Halt>
        ensures { Runs (in_end given.now) (λ ended. ended) self.now self.now result }
    {
        match given {
            Given::End { place, last } => Ok(Ended {
                place: *place,
                last: *last,
            }),
            _ => self.raise(FaultKind::BadType),
        }
    }

    /// What a list is from the element at a path on.
    pub fn rest(&mut self, path: &Path) -> Result<Rested, Halt>
        ensures { Runs (ask_rest path.now) (λ rested. rested) self.old self.new result }
    {
        match self.reply(NodeKind::Rest, path)? {
            Ok(Given::Rest { count, place }) => Ok(Rested {
                count: *count,
                place: *place,
            }),
            Ok(_) => self.raise(FaultKind::BadType),
            Err(fault) => self.fault(fault),
        }
    }

    /// The path one step further. A path that doesn't fit is a fault of the node.
    #[inline(always)]
    pub fn part(&self, path: &Path, step: Step) -> Result<Path, Halt>
        ensures { Runs (part path.now step) (λ part. part) self.now self.now result }
    {
        let part = match step {
            Step::Name(name) => path.child_name(self.alloc, name)?,
            Step::Index(index) => path.child_index(self.alloc, index)?,
        };
        match part {
            Some(part) => Ok(part),
            None => self.raise(FaultKind::PathTooLong),
        }
    }

    /// The value of a part of what is at a path. Its path is made only where no reply is left.
    #[inline(always)]
    pub fn value_of_part(&mut self, path: &Path, step: Step) -> Result<&'a Value, Halt>
        ensures { Runs (value_of_part path.now step) (λ value. value.now) self.old self.new result }
    {
        if !path.has_part(step) {
            return self.raise(FaultKind::PathTooLong);
        }
        match self.next_reply() {
            None => {
                let path = self.part(path, step)?;
                Err(Halt::Need(Node {
                    kind: NodeKind::Value,
                    path,
                }))
            }
            Some(reply) => self.valued(reply),
        }
    }

    /// Where a part of what is at a path ends. Its path is made only where no reply is left.
    #[inline(always)]
    pub fn end_of_part(&mut self, path: &Path, step: Step) -> Result<Ended, Halt>
        ensures { Runs (end_of_part path.now step) (λ ended. ended) self.old self.new result }
    {
        if !path.has_part(step) {
            return self.raise(FaultKind::PathTooLong);
        }
        match self.next_reply() {
            None => {
                let path = self.part(path, step)?;
                Err(Halt::Need(Node {
                    kind: NodeKind::End,
                    path,
                }))
            }
            Some(reply) => self.ended(reply),
        }
    }

    /// Where a part of what is at the path above a path ends. The paths are made only where no reply is left.
    #[inline(always)]
    pub fn end_beside(&mut self, path: &Path, step: Step) -> Result<Ended, Halt>
        ensures { Runs (end_of_part (parent path.now) step) (λ ended. ended) self.old self.new result }
    {
        if !path.has_part_beside(step) {
            return self.raise(FaultKind::PathTooLong);
        }
        match self.next_reply() {
            None => {
                let above = path.parent(self.alloc)?;
                let path = self.part(&above, step)?;
                Err(Halt::Need(Node {
                    kind: NodeKind::End,
                    path,
                }))
            }
            Some(given) => self.ended(given),
        }
    }
}
