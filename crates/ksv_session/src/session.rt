//! A session: the current bytes, what is kept of answers, and the reply to each line.
ghost use Rattle.std.specs.Prelude.{◌≡◌, ◌<◌, ◌↔◌, ◌++◌, true, false, Some, codes, length, if◌then◌else◌, IsTrue, IfOk, IfErr, IsErr, MatchResult, OnErr, OnOk};
ghost use Rattle.ksv_bytes.specs.Edits.{IsRefusedAs, append, delete, file_limit, insert, overwrite};
ghost use Rattle.ksv_bytes.specs.declared.uses.Change.TheVariants as changes;
ghost use Rattle.ksv_session.specs.Explored.{description_of, tally_of};
ghost use Rattle.ksv_commands.specs.Commands.{command_of};
ghost use Rattle.ksv_commands.specs.declared.command.Command.TheVariants as commands;
ghost use Rattle.ksv_session.specs.Kept.{Holds, HoldsSome, Memory, Remembers, after_asking, after_edit, nothing_kept};
ghost use Rattle.ksv_questions.specs.Answers.{asking, asks, outcome, question_text, question_told};
ghost use Rattle.ksv_questions.specs.Writing.{put_question};
ghost use Rattle.ksv_session.specs.Replies.{LongText, OutOfMemory, ShortText, answer, answer_to, form, form_to, has, may_be_refused, no_memory_text, put_answer, put_form, said, shown_text, told_form};
ghost use Rattle.ksv_session.specs.Code.{IsReply, PutSays, edit_text, wants_memory};
ghost use Rattle.ksv_session.specs.Seen.{answer_seen, form_of, is_last, is_refusal, reply_text};

use crate::reply::{
    Reply, edit_reply, lined, refused_edit, refused_line, size_reply, stats_reply, told_reply,
};
use ksv_bytes::{Buffer, Change, EditRefusal};
use ksv_commands::{Command, Question, read_line};
use ksv_desc::Desc;
use ksv_expr_value::{Integer, Path};
use ksv_lines::{EDIT_LIMIT, EditDigits};
use ksv_memo::Engine;
use ksv_questions::{Overwrite, answer, bytes_text, overwrite_for};
use ksv_rule_meaning::{Described, NodeRules};
use std::alloc::{AllocError, Global};
use std::marker::Model;
use thiserror::Error;

/// Why a session does not begin.
#[derive(Clone, Copy, Debug, PartialEq, Eq, Error)]
pub enum NewFault {
    /// B3: the file has more than 16,777,216 bytes.
    #[error("file too large")]
    FileTooLarge,
}

/// A file that is explored by its description, with an engine that is right for its bytes. Contracts see the description, the current
/// bytes, the kept nodes, and the turns of the last question. The code of `N` runs the rules of nodes.
#[derive(Drop)]
pub struct Session<N: NodeRules> {
    alloc: Global,
    described: Described<N>,
    buffer: Buffer,
    engine: Engine<Described<N>>,
    turns: Option<u64>,
}

impl<N: NodeRules> Model for Session<N> {
    ghost use Rattle.ksv_desc.specs.Whole.{plain_pieces};
    ghost use Rattle.ksv_memo_rules.specs.Right.{IsRight, nodes_of};
    ghost use Rattle.ksv_questions.specs.Engines.{world};
    ghost use Rattle.ksv_session.specs.Explored.{Explored};
    ghost use Rattle.ksv_expr_tree.specs.contracts.tree.Expr as expr;
    ghost use Rattle.std.specs.Coded.{codes};

    ghost Value = { Explored };

    ghost coded = { Prim.hlevel (codes, expr.the_row.coded) };

    ghost view = { λ s. record { pieces = s.described.desc; bytes = s.buffer; kept = nodes_of s.engine.kept; turns = s.turns } };

    ghost invariant = { λ s. IsRight (world (plain_pieces s.described.desc) s.buffer) s.engine.kept };
}

impl<N: NodeRules> Session<N> {
    /// A session over the bytes of a file, of which nothing is kept yet. It takes no memory.
    pub fn new(alloc: Global, desc: Desc, bytes: Vec<u8>) -> Result<Session<N>, NewFault>
        ensures begun { IfOk result (λ session. session ≡ record { pieces = desc; bytes = bytes.items; kept = nothing_kept.kept; turns = nothing_kept.turns }) }
        ensures refused { IsErr result ↔ (file_limit < length bytes.items) }
    {
        match Buffer::new(bytes) {
            Ok(buffer) => Ok(Session {
                alloc,
                described: Described::new(desc),
                buffer,
                engine: Engine::new(alloc),
                turns: Some(0),
            }),
            Err(_) => Err(NewFault::FileTooLarge),
        }
    }

    /// The current bytes.
    pub fn into_buffer(self) -> Buffer
        ensures { result ≡ self.bytes }
    {
        let Session {
            alloc: _,
            described: _,
            buffer,
            engine: _,
            turns: _,
        } = self;
        buffer
    }

    /// Answers a line, given without its LF; it may still end with a carriage return. If memory is refused the bytes don't change;
    /// it can be refused only for a question, for `put`, for `bytes` and for an edit that makes the file longer.
    #[tactic(auto, using(crate::proofs::QuestionLemmas::question_may), unfolding(crate::specs::Explored::description_of))]
    pub fn line(&mut self, line: &[u8]) -> Reply
        ensures answer { answer_seen self.new.bytes result ≡ answer (description_of self.old) self.old.bytes (record { line = line.now; refused = is_refusal result; tally = tally_of self.old }) }
        ensures fair { IsTrue (is_refusal result) → may_be_refused self.old.bytes (command_of (description_of self.old) line.now) ≡ true }
        ensures form { form_of result ≡ form (description_of self.old) self.old.bytes (record { line = line.now; refused = is_refusal result; tally = tally_of self.old }) }
        ensures kept { description_of self.new ≡ description_of self.old }

        // What is kept across lines: after a list of lines, the fold of `memory_after` over them.
        ensures memory { (m : Memory) → Holds self.old m → Remembers (description_of self.old) self.old.bytes (command_of (description_of self.old) line.now) (is_refusal result) m self.new }
    {
        let Ok(command) = read_line(self.alloc, self.described.desc(), line) else {
            self.turns = None;
            return Reply::NoMemory;
        };
        self.obeyed(command)
    }

    /// Does what a command says; its reply.
    #[inline(always)]
    #[tactic(auto, using(crate::proofs::QuestionLemmas::question_may), unfolding(crate::specs::Explored::description_of))]
    fn obeyed(&mut self, command: Command<'_>) -> Reply
        ensures answer { answer_seen self.new.bytes result ≡ (if is_refusal result then said self.old.bytes no_memory_text else answer_to (description_of self.old) self.old.bytes (tally_of self.old) command.entry) }
        ensures fair { IsTrue (is_refusal result) → may_be_refused self.old.bytes command.entry ≡ true }
        ensures form { form_of result ≡ (if is_refusal result then OutOfMemory else form_to (description_of self.old) self.old.bytes command.entry) }
        ensures kept { description_of self.new ≡ description_of self.old }
        ensures memory { (m : Memory) → Holds self.old m → Remembers (description_of self.old) self.old.bytes command.entry (is_refusal result) m self.new }
    {
        match command {
            Command::Blank => Reply::None,
            Command::Refused(refusal) => Reply::Short(refused_line(refusal)),
            Command::Ask(question) => self.answered(&question),
            Command::Put(path, number) => self.put(&path, number),
            Command::Set(at, digits) => {
                let outcome = self.overwrite_digits(at as usize, &digits);
                self.edited(outcome)
            }
            Command::Ins(at, digits) => {
                let outcome = self.insert_digits(at as usize, &digits);
                self.edited(outcome)
            }
            Command::Del(at, count) => {
                let outcome = self.delete(at as usize, count as usize);
                self.edited(outcome)
            }
            Command::App(digits) => {
                let outcome = self.append_digits(&digits);
                self.edited(outcome)
            }
            Command::Bytes(at, count) => self.shown(at, count),
            Command::Size => Reply::Short(size_reply(self.buffer.len())),
            Command::Stats => Reply::Short(stats_reply(self.engine.kept(), self.turns)),
            Command::Quit => Reply::Bye,
        }
    }

    /// The reply to a question, unless memory is refused. The turns are unknown until it is complete.
    #[tactic(auto, unfolding(crate::specs::Explored::description_of))]
    fn asked(&mut self, question: &Question) -> Result<Reply, AllocError>
        ensures says { IfOk result (IsReply (question_text (description_of self.old) self.old.bytes question.now ++ codes "\n") (told_form (question_told (description_of self.old) self.old.bytes question.now))) }
        ensures kept { (description_of self.new ≡ description_of self.old) × (self.new.bytes ≡ self.old.bytes) }
        ensures memory { (m : Memory) → Holds self.old m → OnOk result (Holds self.new (after_asking (description_of self.old) self.old.bytes (asks (description_of self.old) self.old.bytes (asking (description_of self.old) self.old.bytes question.now)) m)) }
        ensures refused { (m : Memory) → Holds self.old m → OnErr result (HoldsSome (description_of self.old) self.old.bytes (asks (description_of self.old) self.old.bytes (asking (description_of self.old) self.old.bytes question.now)) m self.new) }
    {
        self.turns = None;
        self.engine.begin();
        let told = answer(
            self.alloc,
            &mut self.engine,
            &self.described,
            &self.buffer,
            question,
        )?;
        let reply = told_reply(told)?;
        self.turns = self.engine.turns();
        Ok(reply)
    }

    /// The reply to a question.
    #[inline(never)]
    #[tactic(auto, unfolding(crate::specs::Explored::description_of))]
    fn answered(&mut self, question: &Question) -> Reply
        ensures answer { answer_seen self.new.bytes result ≡ said self.old.bytes (if is_refusal result then no_memory_text else question_text (description_of self.old) self.old.bytes question.now ++ codes "\n") }
        ensures form { form_of result ≡ (if is_refusal result then OutOfMemory else told_form (question_told (description_of self.old) self.old.bytes question.now)) }
        ensures kept { description_of self.new ≡ description_of self.old }
        ensures memory { (m : Memory) → Holds self.old m → Remembers (description_of self.old) self.old.bytes (commands.Ask question.now) (is_refusal result) m self.new }
    {
        match self.asked(question) {
            Ok(reply) => reply,
            Err(_) => Reply::NoMemory,
        }
    }

    /// The bytes that `put` writes for an integer at a path, or its reply if it writes none, unless memory is refused. The turns are
    /// unknown until it is complete.
    #[tactic(auto, unfolding(crate::specs::Explored::description_of))]
    fn meant(
        &mut self,
        path: &Path,
        number: Integer,
    ) -> Result<Result<Overwrite, Reply>, AllocError>
        ensures says { IfOk result (PutSays (description_of self.old) (outcome (description_of self.old) self.old.bytes (put_question (description_of self.old) self.old.bytes path.now number))) }
        ensures kept { (description_of self.new ≡ description_of self.old) × (self.new.bytes ≡ self.old.bytes) }
        ensures memory { (m : Memory) → Holds self.old m → OnOk result (Holds self.new (after_asking (description_of self.old) self.old.bytes (asks (description_of self.old) self.old.bytes (put_question (description_of self.old) self.old.bytes path.now number)) m)) }
        ensures refused { (m : Memory) → Holds self.old m → OnErr result (HoldsSome (description_of self.old) self.old.bytes (asks (description_of self.old) self.old.bytes (put_question (description_of self.old) self.old.bytes path.now number)) m self.new) }
    {
        self.turns = None;
        self.engine.begin();
        let told = overwrite_for(
            self.alloc,
            &mut self.engine,
            &self.described,
            &self.buffer,
            path,
            number,
        )?;
        let meant = match told {
            Ok(overwrite) => Ok(overwrite),
            Err(told) => Err(told_reply(told)?),
        };
        self.turns = self.engine.turns();
        Ok(meant)
    }

    /// Writes an integer over the one at a path. The edit comes last, and takes no memory.
    #[inline(never)]
    #[tactic(auto, unfolding(crate::specs::Explored::description_of))]
    fn put(&mut self, path: &Path, number: Integer) -> Reply
        ensures answer { answer_seen self.new.bytes result ≡ (if is_refusal result then said self.old.bytes no_memory_text else put_answer (description_of self.old) self.old.bytes (outcome (description_of self.old) self.old.bytes (put_question (description_of self.old) self.old.bytes path.now number))) }
        ensures form { form_of result ≡ (if is_refusal result then OutOfMemory else put_form (description_of self.old) (outcome (description_of self.old) self.old.bytes (put_question (description_of self.old) self.old.bytes path.now number))) }
        ensures kept { description_of self.new ≡ description_of self.old }
        ensures memory { (m : Memory) → Holds self.old m → Remembers (description_of self.old) self.old.bytes (commands.Put path.now number) (is_refusal result) m self.new }
    {
        let Ok(meant) = self.meant(path, number) else {
            return Reply::NoMemory;
        };
        match meant {
            Ok(overwrite) => {
                let outcome = self.overwrite(overwrite.at as usize, overwrite.bytes.as_slice());
                self.edited(outcome)
            }
            Err(reply) => reply,
        }
    }

    /// Writes bytes over those from a place on, and forgets what that touches.
    #[tactic(auto, unfolding(crate::specs::Explored::description_of))]
    fn overwrite(&mut self, at: usize, bytes: &[u8]) -> Result<(), EditRefusal>
        ensures edit { MatchResult result
            (λ _. overwrite self.old.bytes at bytes.now ≡ Ok self.new.bytes)
            (λ refusal. (overwrite self.old.bytes at bytes.now ≡ Err refusal) × (self.new ≡ self.old)) }
        ensures kept { description_of self.new ≡ description_of self.old }
        ensures memory { (m : Memory) → Holds self.old m → Holds self.new (after_edit (description_of self.old) self.old.bytes (changes.Overwrite at (length bytes.now)) (overwrite self.old.bytes at bytes.now) m) }
    {
        self.buffer.overwrite(at, bytes)?;
        self.engine.forget(Change::Overwrite { at, n: bytes.len() });
        Ok(())
    }

    /// Writes the bytes of these digits over those from a place on. It alone makes room for them.
    #[tactic(auto, unfolding(crate::specs::Explored::description_of))]
    fn overwrite_digits(&mut self, at: usize, digits: &EditDigits<'_>) -> Result<(), EditRefusal>
        ensures edit { MatchResult result
            (λ _. overwrite self.old.bytes at digits.now ≡ Ok self.new.bytes)
            (λ refusal. (overwrite self.old.bytes at digits.now ≡ Err refusal) × (self.new ≡ self.old)) }
        ensures kept { description_of self.new ≡ description_of self.old }
        ensures memory { (m : Memory) → Holds self.old m → Holds self.new (after_edit (description_of self.old) self.old.bytes (changes.Overwrite at (length digits.now)) (overwrite self.old.bytes at digits.now) m) }
    {
        let mut room = [0; EDIT_LIMIT];
        let bytes = digits.bytes(&mut room);
        self.overwrite(at, bytes)
    }

    /// Puts bytes before the byte at a place, or after the last one, and forgets what that touches.
    #[tactic(auto, unfolding(crate::specs::Explored::description_of))]
    fn insert(&mut self, at: usize, bytes: &[u8]) -> Result<(), EditRefusal>
        ensures done { OnOk result (insert self.old.bytes at bytes.now ≡ Ok self.new.bytes) }
        ensures unchanged { OnErr result (self.new ≡ self.old) }
        ensures refused { IfErr result (λ refusal. IsRefusedAs refusal (insert self.old.bytes at bytes.now)) }
        ensures kept { description_of self.new ≡ description_of self.old }
        ensures memory { (m : Memory) → Holds self.old m → OnOk result (Holds self.new (after_edit (description_of self.old) self.old.bytes (changes.Insert at (length bytes.now)) (insert self.old.bytes at bytes.now) m)) }
    {
        self.buffer.insert(at, bytes)?;
        self.engine.forget(Change::Insert { at, n: bytes.len() });
        Ok(())
    }

    /// Puts the bytes of these digits before the byte at a place, or after the last one.
    #[tactic(auto, unfolding(crate::specs::Explored::description_of))]
    fn insert_digits(&mut self, at: usize, digits: &EditDigits<'_>) -> Result<(), EditRefusal>
        ensures done { OnOk result (insert self.old.bytes at digits.now ≡ Ok self.new.bytes) }
        ensures unchanged { OnErr result (self.new ≡ self.old) }
        ensures refused { IfErr result (λ refusal. IsRefusedAs refusal (insert self.old.bytes at digits.now)) }
        ensures kept { description_of self.new ≡ description_of self.old }
        ensures memory { (m : Memory) → Holds self.old m → OnOk result (Holds self.new (after_edit (description_of self.old) self.old.bytes (changes.Insert at (length digits.now)) (insert self.old.bytes at digits.now) m)) }
    {
        let mut room = [0; EDIT_LIMIT];
        let bytes = digits.bytes(&mut room);
        self.insert(at, bytes)
    }

    /// Removes this many bytes from a place on, and forgets what that touches.
    #[tactic(auto, unfolding(crate::specs::Explored::description_of))]
    fn delete(&mut self, at: usize, count: usize) -> Result<(), EditRefusal>
        ensures edit { MatchResult result
            (λ _. delete self.old.bytes at count ≡ Ok self.new.bytes)
            (λ refusal. (delete self.old.bytes at count ≡ Err refusal) × (self.new ≡ self.old)) }
        ensures kept { description_of self.new ≡ description_of self.old }
        ensures memory { (m : Memory) → Holds self.old m → Holds self.new (after_edit (description_of self.old) self.old.bytes (changes.Delete at count) (delete self.old.bytes at count) m) }
    {
        self.buffer.delete(at, count)?;
        self.engine.forget(Change::Delete { at, n: count });
        Ok(())
    }

    /// Adds bytes at the end, and forgets what that touches.
    #[tactic(auto, unfolding(crate::specs::Explored::description_of))]
    fn append(&mut self, bytes: &[u8]) -> Result<(), EditRefusal>
        ensures done { OnOk result (append self.old.bytes bytes.now ≡ Ok self.new.bytes) }
        ensures unchanged { OnErr result (self.new ≡ self.old) }
        ensures refused { IfErr result (λ refusal. IsRefusedAs refusal (append self.old.bytes bytes.now)) }
        ensures kept { description_of self.new ≡ description_of self.old }
        ensures memory { (m : Memory) → Holds self.old m → OnOk result (Holds self.new (after_edit (description_of self.old) self.old.bytes changes.Append (append self.old.bytes bytes.now) m)) }
    {
        self.buffer.append(bytes)?;
        self.engine.forget(Change::Append);
        Ok(())
    }

    /// Adds the bytes of these digits at the end.
    #[tactic(auto, unfolding(crate::specs::Explored::description_of))]
    fn append_digits(&mut self, digits: &EditDigits<'_>) -> Result<(), EditRefusal>
        ensures done { OnOk result (append self.old.bytes digits.now ≡ Ok self.new.bytes) }
        ensures unchanged { OnErr result (self.new ≡ self.old) }
        ensures refused { IfErr result (λ refusal. IsRefusedAs refusal (append self.old.bytes digits.now)) }
        ensures kept { description_of self.new ≡ description_of self.old }
        ensures memory { (m : Memory) → Holds self.old m → OnOk result (Holds self.new (after_edit (description_of self.old) self.old.bytes changes.Append (append self.old.bytes digits.now) m)) }
    {
        let mut room = [0; EDIT_LIMIT];
        let bytes = digits.bytes(&mut room);
        self.append(bytes)
    }

    /// The bytes from a place on, at most 4,096.
    #[inline(never)]
    fn shown(&self, at: u64, count: u64) -> Reply
        ensures answer { reply_text result ≡ (if is_refusal result then no_memory_text else shown_text self.now.bytes at count) }
        ensures form { form_of result ≡ (if is_refusal result then OutOfMemory else if has self.now.bytes at count then LongText else ShortText) }
        ensures fair { IsTrue (is_refusal result) → has self.now.bytes at count ≡ true }
        ensures last { is_last result ≡ false }
    {
        let size = self.buffer.len() as u64;
        if at > size || count > size - at {
            return Reply::Short(refused_edit(EditRefusal::Outside));
        }
        match bytes_text(self.alloc, &self.buffer, at as u32, (at + count) as u32) {
            Ok(text) => match lined(text) {
                Ok(text) => Reply::Text(text),
                Err(_) => Reply::NoMemory,
            },
            Err(_) => Reply::NoMemory,
        }
    }

    /// The reply to an edit that was tried.
    fn edited(&self, outcome: Result<(), EditRefusal>) -> Reply
        ensures text { reply_text result ≡ edit_text self.now.bytes outcome }
        ensures form { form_of result ≡ (if is_refusal result then OutOfMemory else ShortText) }
        ensures refusal { is_refusal result ≡ wants_memory outcome }
        ensures last { is_last result ≡ false }
    {
        match outcome {
            Ok(()) => Reply::Short(edit_reply(self.buffer.len())),
            Err(EditRefusal::NoMemory) => Reply::NoMemory,
            Err(refusal) => Reply::Short(refused_edit(refusal)),
        }
    }
}
