//! Reads a line: nothing, a command with its values, or a refusal.
ghost use Rattle.std.specs.Prelude.{◌≡◌, ◌≤◌, ◌↔◌, [], length, is_ok, Err, IfOk, IfSome, IsTrue, MatchResult, Ok, OnErr, option_copied};
ghost use Rattle.ksv_desc.specs.Whole.{plain_pieces};
ghost use Rattle.ksv_lines.specs.Lines.{line_limit, words_of};
ghost use Rattle.ksv_commands.specs.Commands.{alone, app_of, command_named, command_of, is_question, only, pathed, place_and_bytes, place_and_count, place_and_word, put_of, shown};
ghost use Rattle.ksv_commands.specs.declared.command.Command.TheVariants.{Ask, Refused};
ghost use Rattle.ksv_commands.specs.declared.command.Question.{Question};

use crate::number::{integer, number};
use crate::refusal::LineRefusal;
use ksv_desc::Desc;
use ksv_expr_value::{Integer, Path};
use ksv_lines::{EditDigits, edit_digits, line_text, next_word};
use ksv_paths::path_of;
use std::alloc::{AllocError, Global};

/// The most bytes of a line, its LF aside.
const LINE_LIMIT: usize = 4096;

/// The most bytes that one line shows.
const SHOWN_LIMIT: u64 = 4096;

/// A question about a path.
#[derive(Drop)]
pub enum Question {
    /// `get`: the value there.
    Value(Path),
    /// `at`: where it begins and ends.
    Place(Path),
    /// `ls`: the members of an object, or the number of elements of a list.
    Members(Path),
    /// `dump`: the value there with all that is in it, as JSON.
    Dump(Path),
}

/// What a line means. The bytes of an edit are still digits on the line.
#[derive(Drop)]
pub enum Command<'a> {
    /// Nothing: no word, or a first word that begins with `#`.
    Blank,
    /// A refused line.
    Refused(LineRefusal),
    /// `get PATH`, `at PATH`, `ls PATH` or `dump PATH`: a question about a path.
    Ask(Question),
    /// `put PATH INT`: an integer written over the one at a path.
    Put(Path, Integer),
    /// `set POS HEX`: bytes written over those from a place on.
    Set(u64, EditDigits<'a>),
    /// `ins POS HEX`: bytes put before the byte at a place, or after the last one.
    Ins(u64, EditDigits<'a>),
    /// `del POS COUNT`: this many bytes removed, from a place on.
    Del(u64, u64),
    /// `bytes POS COUNT`: this many bytes shown, from a place on, at most 4,096.
    Bytes(u64, u64),
    /// `app HEX`: bytes added at the end.
    App(EditDigits<'a>),
    /// `size`: the number of bytes.
    Size,
    /// `stats`: how many nodes are kept, and the turns of the last question.
    Stats,
    /// `quit`: the end of the session.
    Quit,
}

/// Whether no word is left.
fn no_word(text: &[u8]) -> bool
    ensures { IsTrue result ↔ (words_of text.now ≡ []) }
{
    next_word(text).is_none()
}

/// The word of a text that has exactly one.
fn only_word(text: &[u8]) -> Option<&[u8]>
    ensures word { option_copied result ≡ only (words_of text.now) }
    ensures within { IfSome result (λ word. length word.now ≤ length text.now) }
{
    let (word, rest) = next_word(text)?;
    if no_word(rest) { Some(word) } else { None }
}

/// Reads the argument `PATH`. Only a valid path takes memory.
fn only_path(
    alloc: Global,
    desc: &Desc,
    arguments: &[u8],
) -> Result<Result<Path, LineRefusal>, AllocError>
    ensures path { IfOk result (λ path. path ≡ pathed (plain_pieces desc.now) (only (words_of arguments.now))) }
    ensures refused { OnErr result (IsTrue (is_ok (pathed (plain_pieces desc.now) (only (words_of arguments.now))))) }
{
    let Some(path) = only_word(arguments) else {
        return Ok(Err(LineRefusal::WrongArguments));
    };
    match path_of(alloc, desc, path)? {
        Some(path) => Ok(Ok(path)),
        None => Ok(Err(LineRefusal::BadPath)),
    }
}

/// Reads the argument of a question.
fn about_path<'a, F: FnOnce(Path) -> Question>(
    alloc: Global,
    desc: &Desc,
    arguments: &'a [u8],
    question: F,
) -> Result<Command<'a>, AllocError>
    requires { F.IsAlwaysCallable question }
    ensures command { IfOk result (λ command. MatchResult (pathed (plain_pieces desc.now) (only (words_of arguments.now))) (λ path. (asks : Question) × F.post question path asks × (command ≡ Ask asks)) (λ refusal. command ≡ Refused refusal)) }
    ensures refused { OnErr result (IsTrue (is_ok (pathed (plain_pieces desc.now) (only (words_of arguments.now))))) }
{
    match only_path(alloc, desc, arguments)? {
        Ok(path) => Ok(Command::Ask(question(path))),
        Err(refusal) => Ok(Command::Refused(refusal)),
    }
}

/// Reads the arguments of `put`. Only a valid path takes memory, so a bad integer is refused even if memory runs out.
fn put<'a>(alloc: Global, desc: &Desc, arguments: &'a [u8]) -> Result<Command<'a>, AllocError>
    ensures command { IfOk result (λ command. command ≡ put_of (plain_pieces desc.now) (words_of arguments.now)) }
    ensures refused { OnErr result (IsTrue (is_question (put_of (plain_pieces desc.now) (words_of arguments.now)))) }
{
    let Some((path, rest)) = next_word(arguments) else {
        return Ok(Command::Refused(LineRefusal::WrongArguments));
    };
    let Some(digits) = only_word(rest) else {
        return Ok(Command::Refused(LineRefusal::WrongArguments));
    };
    match (path_of(alloc, desc, path), integer(digits)) {
        (Ok(None), _) => Ok(Command::Refused(LineRefusal::BadPath)),
        (_, None) => Ok(Command::Refused(LineRefusal::BadNumber)),
        (Ok(Some(path)), Some(number)) => Ok(Command::Put(path, number)),
        (Err(refused), Some(_)) => Err(refused),
    }
}

/// Reads the argument `POS`, and finds the one word after it.
#[inline(always)]
fn place_and_word(arguments: &[u8]) -> Result<(u64, &[u8]), LineRefusal>
    ensures read { MatchResult result (λ read. place_and_word (words_of arguments.now) ≡ Ok (read.0, read.1.now)) (λ refusal. place_and_word (words_of arguments.now) ≡ Err refusal) }
    ensures within { IfOk result (λ read. length read.1.now ≤ length arguments.now) }
{
    let Some((place, rest)) = next_word(arguments) else {
        return Err(LineRefusal::WrongArguments);
    };
    let Some(word) = only_word(rest) else {
        return Err(LineRefusal::WrongArguments);
    };
    match number(place) {
        Some(at) => Ok((at, word)),
        None => Err(LineRefusal::BadNumber),
    }
}

/// Reads the arguments `POS HEX`.
fn place_and_bytes(arguments: &[u8]) -> Result<(u64, EditDigits<'_>), LineRefusal>
    requires { length arguments.now ≤ line_limit }
    ensures { result ≡ place_and_bytes (place_and_word (words_of arguments.now)) }
{
    let (at, digits) = place_and_word(arguments)?;
    match edit_digits(digits) {
        Some(bytes) => Ok((at, bytes)),
        None => Err(LineRefusal::BadHex),
    }
}

/// Reads the arguments `POS COUNT`.
fn place_and_count(arguments: &[u8]) -> Result<(u64, u64), LineRefusal>
    ensures { result ≡ place_and_count (place_and_word (words_of arguments.now)) }
{
    let (at, digits) = place_and_word(arguments)?;
    match number(digits) {
        Some(count) => Ok((at, count)),
        None => Err(LineRefusal::BadNumber),
    }
}

/// The command for a place and what comes after it, or the refusal of these arguments.
fn at_place<'a, T: Drop, F: FnOnce(u64, T) -> Command<'a>>(
    arguments: Result<(u64, T), LineRefusal>,
    command: F,
) -> Command<'a>
    requires { F.IsAlwaysCallable command }
    ensures { MatchResult arguments (λ read. F.post command read.0 read.1 result) (λ refusal. result ≡ Refused refusal) }
{
    match arguments {
        Ok((at, value)) => command(at, value),
        Err(refusal) => Command::Refused(refusal),
    }
}

/// Shows bytes from a place on, if they aren't too many.
fn shown<'a>(at: u64, count: u64) -> Command<'a>
    ensures { result ≡ shown at count }
{
    if count > SHOWN_LIMIT {
        Command::Refused(LineRefusal::TooLarge)
    } else {
        Command::Bytes(at, count)
    }
}

/// Reads the arguments of `app`.
fn app(arguments: &[u8]) -> Command<'_>
    requires { length arguments.now ≤ line_limit }
    ensures { result ≡ app_of (only (words_of arguments.now)) }
{
    let Some(digits) = only_word(arguments) else {
        return Command::Refused(LineRefusal::WrongArguments);
    };
    match edit_digits(digits) {
        Some(bytes) => Command::App(bytes),
        None => Command::Refused(LineRefusal::BadHex),
    }
}

/// A command that takes no arguments.
fn without_arguments<'a>(command: Command<'a>, arguments: &[u8]) -> Command<'a>
    ensures { result ≡ alone command.entry (words_of arguments.now) }
{
    if no_word(arguments) {
        command
    } else {
        Command::Refused(LineRefusal::WrongArguments)
    }
}

/// Reads the arguments of the command of this name.
fn command_with<'a>(
    alloc: Global,
    desc: &Desc,
    name: &[u8],
    arguments: &'a [u8],
) -> Result<Command<'a>, AllocError>
    requires { length arguments.now ≤ line_limit }
    ensures command { IfOk result (λ command. command ≡ command_named (plain_pieces desc.now) name.now (words_of arguments.now)) }
    ensures refused { OnErr result (IsTrue (is_question (command_named (plain_pieces desc.now) name.now (words_of arguments.now)))) }
{
    if name == b"get".as_slice() {
        about_path(alloc, desc, arguments, Question::Value)
    } else if name == b"at".as_slice() {
        about_path(alloc, desc, arguments, Question::Place)
    } else if name == b"ls".as_slice() {
        about_path(alloc, desc, arguments, Question::Members)
    } else if name == b"dump".as_slice() {
        about_path(alloc, desc, arguments, Question::Dump)
    } else if name == b"put".as_slice() {
        put(alloc, desc, arguments)
    } else if name == b"set".as_slice() {
        Ok(at_place(place_and_bytes(arguments), Command::Set))
    } else if name == b"ins".as_slice() {
        Ok(at_place(place_and_bytes(arguments), Command::Ins))
    } else if name == b"del".as_slice() {
        Ok(at_place(place_and_count(arguments), Command::Del))
    } else if name == b"app".as_slice() {
        Ok(app(arguments))
    } else if name == b"bytes".as_slice() {
        Ok(at_place(place_and_count(arguments), shown))
    } else if name == b"size".as_slice() {
        Ok(without_arguments(Command::Size, arguments))
    } else if name == b"stats".as_slice() {
        Ok(without_arguments(Command::Stats, arguments))
    } else if name == b"quit".as_slice() {
        Ok(without_arguments(Command::Quit, arguments))
    } else {
        Ok(Command::Refused(LineRefusal::UnknownCommand))
    }
}

/// Reads a line, given without its LF. Only the path of a question or of a `put` takes memory.
pub fn read_line<'a>(alloc: Global, desc: &Desc, line: &'a [u8]) -> Result<Command<'a>, AllocError>
    ensures command { IfOk result (λ command. command ≡ command_of (plain_pieces desc.now) line.now) }
    ensures refused { OnErr result (IsTrue (is_question (command_of (plain_pieces desc.now) line.now))) }
{
    if line.len() > LINE_LIMIT {
        return Ok(Command::Refused(LineRefusal::LineTooLong));
    }
    let Some((name, arguments)) = next_word(line_text(line)) else {
        return Ok(Command::Blank);
    };
    if name[0] == b'#' {
        return Ok(Command::Blank);
    }
    command_with(alloc, desc, name, arguments)
}
