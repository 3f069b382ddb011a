//! The program's messages, and the words that it takes.
//!
//! Values are by hand: messages and statuses as docs/REFERENCE.md lists them, under "The program"; the kinds of errors are
//! those of `clap`, of which each has its status.

use ksv::{Memory, Stop, arguments, say};
use std::alloc::{AllocError, Global};
use std::fmt::Write;
use std::test::Fail;

static STOPS: [Stop; 10] = [
    Stop::FileUnreadable,
    Stop::FileTooLarge,
    Stop::DescriptionUnreadable,
    Stop::Line {
        line: 12,
        code: "S8",
        text: "left-out feature",
        at: None,
    },
    Stop::Line {
        line: 5,
        code: "S10",
        text: "expression: X2 unexpected end",
        at: Some(3),
    },
    Stop::NoMemory,
    Stop::InputFailed,
    Stop::OutputFailed,
    Stop::SaveFailed,
    Stop::SaveUnsure,
];

const MESSAGES: &[u8] = b"ksv: f: cannot read
ksv: f: file too large
ksv: k: cannot read
ksv: k: line 12: S8 left-out feature
ksv: k: line 5: S10 expression: X2 unexpected end at 3
ksv: no memory
ksv: input failed
ksv: output failed
ksv: o: cannot write
ksv: o: perhaps not saved
";

/// Adds the message of a stop.
fn add_message(alloc: Global, stop: &Stop, messages: &mut Vec<u8>) -> Result<(), Fail> {
    let mut sink = Memory::new(Vec::with_capacity(alloc, 100)?);
    if say(stop, ["f", "k", "o"], &mut sink).is_err() {
        return Err(Fail::from("a message isn't written"));
    }
    messages.extend_from_slice(sink.bytes.as_slice())?;
    Ok(())
}

/// Adds whether the status of a stop is 3, and whether it is 1.
fn add_status(stop: &Stop, statuses: &mut String) -> Result<(), AllocError> {
    statuses.push_str(if stop.status() == 3 { "3" } else { "-" })?;
    statuses.push_str(if stop.status() == 1 { "1" } else { "-" })
}

/// Whether each stop has its message and its status.
fn are_told(alloc: Global) -> Result<bool, Fail> {
    let (mut messages, mut statuses) = (Vec::new(alloc), String::new(alloc));
    for stop in &STOPS {
        add_message(alloc, stop, &mut messages)?;
        add_status(stop, &mut statuses)?;
    }
    Ok(messages.as_slice() == MESSAGES && statuses.as_str() == "-1-1-1-1-1-13-3-3-3-")
}

/// Whether a message fails on a device that takes three bytes.
fn is_cut_off(alloc: Global) -> Result<bool, AllocError> {
    let mut full = Memory::new(Vec::with_capacity(alloc, 3)?);
    Ok(say(&Stop::NoMemory, ["f", "k", "o"], &mut full).is_err())
}

#[test]
fn each_stop_has_its_message_and_status(rt: HostRuntime) -> Result<(), Fail> {
    let is_right = are_told(rt.alloc())? && is_cut_off(rt.alloc())?;
    assert!(rt; is_right);
    Ok(())
}

/// Words, and how they are read.
const WORDS: &str = "ksv f k => f k -
ksv --save o f k => f k o
ksv f --save o k => f k o
ksv f k --save o => f k o
ksv --save=o f k => f k o
ksv --save f k => MissingRequiredArgument 2 true
ksv --save o f => MissingRequiredArgument 2 true
ksv f k --save => InvalidValue 2 false
ksv --save o --save o f k => ArgumentConflict 2 true
ksv -- --save f => --save f -
ksv f => MissingRequiredArgument 2 true
ksv f k x => UnknownArgument 2 true
ksv --fast f k => UnknownArgument 2 true
ksv --help => DisplayHelp 0 true";

/// Adds how some words are read: the file, its description and the file for the bytes, or the kind of the error, its
/// exit code, and whether it prints the usage.
fn add_taken(alloc: Global, words: &[&str], out: &mut String) -> Result<(), AllocError> {
    match arguments(alloc, words) {
        Ok(args) => {
            let save = args.save.unwrap_or("-");
            write!(out, "{} {} {save}", args.file, args.ksy)
        }
        Err(error) => {
            let text = format!(in alloc; "{error}")?;
            let mut has_usage = text.as_str().contains("Usage: ksv ");
            has_usage &= text.as_str().contains("<FILE> <KSY>");
            write!(out, "{:?} {} {has_usage}", error.kind(), error.exit_code())
        }
    }
}

/// Adds how the words of a line are read.
fn add_line(alloc: Global, line: &str, out: &mut String) -> Result<(), AllocError> {
    let mut words = Vec::new(alloc);
    for word in line.split(' ') {
        words.push(word)?;
    }
    add_taken(alloc, words.as_slice(), out)
}

/// Whether the words of a row are read as it says.
fn is_taken(alloc: Global, row: &str) -> Result<bool, AllocError> {
    let (line, wanted) = row.split_once(" => ").unwrap_or((row, ""));
    let mut found = String::new(alloc);
    add_line(alloc, line, &mut found)?;
    Ok(found.as_str() == wanted)
}

#[test]
fn words_are_taken_or_refused(rt: HostRuntime) -> Result<(), Fail> {
    let mut are_right = true;
    for row in WORDS.split('\n') {
        are_right &= is_taken(rt.alloc(), row)?;
    }
    assert!(rt; are_right);
    Ok(())
}

/// What help says of the words and of the command lines.
const HELP: &str = "Usage: ksv [OPTIONS] <FILE> <KSY>
<FILE>  The file to explore
<KSY>   Its description
--save <OUT>  Writes the bytes
get PATH
at PATH
ls PATH
dump PATH
put PATH INT
set POS HEX
ins POS HEX
del POS COUNT
app HEX
bytes POS COUNT
size
stats
quit
Example: echo 'get /' | ksv ";

/// Whether help has each line of [`HELP`].
fn is_helped(alloc: Global) -> Result<bool, AllocError> {
    let Err(error) = arguments(alloc, &["ksv", "--help"]) else {
        return Ok(false);
    };
    let text = format!(in alloc; "{error}")?;
    let mut has_all = true;
    for line in HELP.split('\n') {
        has_all &= text.as_str().contains(line);
    }
    Ok(has_all)
}

#[test]
fn help_names_each_word(rt: HostRuntime) -> Result<(), Fail> {
    let is_helped = is_helped(rt.alloc())?;
    assert!(rt; is_helped);
    Ok(())
}
