//! Replies, and those that take no memory.
ghost use Rattle.std.specs.Prelude.{◌≡◌, ◌<◌, ◌≤◌, ◌++◌, IfOk, codes, decimal, length, string_bytes};
ghost use Rattle.ksv_questions.specs.Answers.{text_of};
ghost use Rattle.ksv_questions.specs.Seen.{told_of};
ghost use Rattle.ksv_session.specs.Code.{IsReply};
ghost use Rattle.ksv_session.specs.Replies.{edit_refusal_text, line_refusal_text, tally_text, told_form, turns_text};
ghost use Rattle.ksv_session.specs.Seen.{is_last, reply_text};
ghost use Rattle.ksv_texts.specs.Texts.{refusal_text};

use arrayvec::ArrayString;
use itoa::Buffer as Digits;
use ksv_bytes::EditRefusal;
use ksv_commands::LineRefusal;
use ksv_questions::{Refusal, Told, refusal_text};
use std::alloc::AllocError;

/// A text of at most 64 bytes, which takes no memory.
pub type Short = ArrayString<64>;

/// The reply to a line, its LF included.
#[derive(Drop)]
pub enum Reply {
    /// Nothing: the line is blank.
    None,
    /// A short text.
    Short(Short),
    /// A text of any length.
    Text(String),
    /// Memory was refused while the line was answered. The bytes are as they were.
    NoMemory,
    /// The session ends.
    Bye,
}

impl Reply {
    /// The bytes that are written for it.
    pub fn as_bytes(&self) -> &[u8]
        ensures { result.now ≡ reply_text self.now }
    {
        match self {
            Reply::None => &[],
            Reply::Short(text) => text.as_bytes(),
            Reply::Text(text) => text.as_bytes(),
            Reply::NoMemory => b"error: no memory\n",
            Reply::Bye => b"bye\n",
        }
    }

    /// Whether the session ends with it.
    pub(crate) fn is_last(&self) -> bool
        ensures { result ≡ is_last self.now }
    {
        match self {
            Reply::Bye => true,
            _ => false,
        }
    }
}

/// The reply to a line that is refused for this reason.
fn line_refusal(refusal: LineRefusal) -> &'static str
    ensures text { result.now ≡ line_refusal_text refusal }
    ensures short { length result.now ≤ 64 }
{
    match refusal {
        LineRefusal::UnknownCommand => "error: unknown command\n",
        LineRefusal::WrongArguments => "error: wrong arguments\n",
        LineRefusal::BadNumber => "error: bad number\n",
        LineRefusal::BadHex => "error: bad hex\n",
        LineRefusal::BadPath => "error: bad path\n",
        LineRefusal::LineTooLong => "error: line too long\n",
        LineRefusal::TooLarge => "error: too large\n",
    }
}

/// The reply to an edit that is refused for this reason.
fn edit_refusal(refusal: EditRefusal) -> &'static str
    ensures text { result.now ≡ edit_refusal_text refusal }
    ensures short { length result.now ≤ 64 }
{
    match refusal {
        EditRefusal::Outside => "error: outside\n",
        EditRefusal::NothingToDo => "error: nothing to do\n",
        EditRefusal::TooLarge => "error: file too large\n",
        EditRefusal::NoMemory => "error: no memory\n",
    }
}

/// A short text of a reply.
fn short(text: &str) -> Short
    requires { length text.now ≤ 64 }
    ensures { result.bytes ≡ text.now }
{
    let mut short = Short::new();
    short.push_str(text);
    short
}

/// A word, a number and an LF, as `size 8`.
fn numbered(word: &str, number: usize) -> Short
    requires { length word.now ≤ 8 }
    ensures { result.bytes ≡ word.now ++ decimal number ++ codes "\n" }
{
    let mut text = short(word);
    text.push_str(Digits::new().format(number));
    text.push_str("\n");
    text
}

/// The reply to a line that is refused.
pub(crate) fn refused_line(refusal: LineRefusal) -> Short
    ensures { result.bytes ≡ line_refusal_text refusal }
{
    short(line_refusal(refusal))
}

/// The reply to `size`.
pub(crate) fn size_reply(size: usize) -> Short
    ensures { result.bytes ≡ codes "size " ++ decimal size ++ codes "\n" }
{
    numbered("size ", size)
}

/// Appends the turns of a question, or a `-` if they aren't known.
fn push_turns(text: &mut Short, turns: Option<u64>)
    requires { length text.old.bytes ≤ 40 }
    ensures text { text.new.bytes ≡ text.old.bytes ++ turns_text turns }
    ensures short { length text.new.bytes ≤ 60 }
{
    match turns {
        Some(turns) => text.push_str(Digits::new().format(turns)),
        None => text.push_str("-"),
    }
}

/// The reply to `stats`.
pub(crate) fn stats_reply(kept: usize, turns: Option<u64>) -> Short
    ensures { result.bytes ≡ tally_text (record { kept = kept; turns = turns }) }
{
    let mut text = short("kept ");
    text.push_str(Digits::new().format(kept));
    text.push_str(" turns ");
    push_turns(&mut text, turns);
    text.push_str("\n");
    text
}

/// The reply to an edit that was done.
pub(crate) fn edit_reply(size: usize) -> Short
    ensures { result.bytes ≡ codes "ok " ++ decimal size ++ codes "\n" }
{
    numbered("ok ", size)
}

/// The reply to an edit that is refused.
pub(crate) fn refused_edit(refusal: EditRefusal) -> Short
    ensures { result.bytes ≡ edit_refusal_text refusal }
{
    short(edit_refusal(refusal))
}

/// A text of any length and its LF, for which memory may be refused.
pub(crate) fn lined(mut text: String) -> Result<String, AllocError>
    ensures { IfOk result (λ lined. string_bytes lined ≡ string_bytes text ++ codes "\n") }
{
    text.push_str("\n")?;
    Ok(text)
}

/// The reply to a question that is refused.
fn refused_question(refusal: Refusal) -> Short
    ensures { result.bytes ≡ refusal_text refusal ++ codes "\n" }
{
    let mut text = short(refusal_text(refusal));
    text.push_str("\n");
    text
}

/// The reply to a question, by what is told of it. A refusal takes no memory.
pub(crate) fn told_reply(told: Told) -> Result<Reply, AllocError>
    ensures { IfOk result (λ reply. IsReply (text_of (told_of told) ++ codes "\n") (told_form (told_of told)) reply) }
{
    match told {
        Told::Text(text) => Ok(Reply::Text(lined(text)?)),
        Told::Refused(refusal) => Ok(Reply::Short(refused_question(refusal))),
    }
}
