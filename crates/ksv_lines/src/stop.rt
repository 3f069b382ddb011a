//! Why the program stops before a session, or after it, and its message.
ghost use Rattle.std.specs.Prelude.{◌≡◌, ◌++◌, false, IsTrue, OnOk, codes, decimal, is_err, map};
ghost use Rattle.ksv_lines.specs.Messages.{message, place_text, status_of};

use crate::device::{Failed, Sink, write_all};
use itoa::Buffer as Digits;

/// Why the program stops, other than at the end of a session that went well.
#[derive(Clone, Copy)]
pub enum Stop {
    /// The file can't be read.
    FileUnreadable,
    /// The file has more than 16,777,216 bytes.
    FileTooLarge,
    /// The description can't be read.
    DescriptionUnreadable,
    /// The description is refused.
    Line {
        /// The line of the fault, from 1.
        line: u32,
        /// The code of the refusal, as `S8`.
        code: &'static str,
        /// The text of the code.
        text: &'static str,
        /// The place of the fault in an expression, in bytes from its start.
        at: Option<u32>,
    },
    /// Memory was refused.
    NoMemory,
    /// A read of the commands failed.
    InputFailed,
    /// A write of the replies failed.
    OutputFailed,
    /// The bytes can't be saved.
    SaveFailed,
    /// The bytes were given their name, but perhaps the disk loses it, or something else has it.
    SaveUnsure,
}

impl Stop {
    /// The program's exit status: 1 before a session, 3 where a device failed.
    pub fn status(&self) -> u8
        ensures { result ≡ status_of self.now }
    {
        match self {
            Stop::InputFailed | Stop::OutputFailed | Stop::SaveFailed | Stop::SaveUnsure => 3,
            _ => 1,
        }
    }
}

/// Writes three texts one after the other.
fn write_three<W: Sink>(first: &str, second: &str, third: &str, sink: &mut W) -> Result<(), Failed>
    requires { W.failed sink.old ≡ false }
    ensures ok { IsTrue W.tells → OnOk result (W.bytes sink.new ≡ W.bytes sink.old ++ (first.now ++ second.now ++ third.now)) }
    ensures fault { W.failed sink.new ≡ is_err result }
{
    write_all(sink, first.as_bytes())?;
    write_all(sink, second.as_bytes())?;
    write_all(sink, third.as_bytes())
}

/// Writes the end of the message for a refused description: the place in an expression, if there is one.
fn write_place<W: Sink>(place: Option<u32>, sink: &mut W) -> Result<(), Failed>
    requires { W.failed sink.old ≡ false }
    ensures ok { IsTrue W.tells → OnOk result (W.bytes sink.new ≡ W.bytes sink.old ++ place_text place) }
    ensures fault { W.failed sink.new ≡ is_err result }
{
    match place {
        Some(place) => write_three(" at ", Digits::new().format(place), "\n", sink),
        None => write_all(sink, b"\n"),
    }
}

/// Writes the message for a description that is refused at a line.
fn say_line<W: Sink>(
    ksy: &str,
    line: u32,
    code: &str,
    text: &str,
    place: Option<u32>,
    sink: &mut W,
) -> Result<(), Failed>
    requires { W.failed sink.old ≡ false }
    ensures ok { IsTrue W.tells → OnOk result (W.bytes sink.new ≡ W.bytes sink.old ++ (codes "ksv: " ++ ksy.now ++ codes ": line " ++ (decimal line ++ codes ": " ++ code.now) ++ codes " " ++ text.now ++ place_text place)) }
    ensures fault { W.failed sink.new ≡ is_err result }
{
    write_three("ksv: ", ksy, ": line ", sink)?;
    write_three(Digits::new().format(line), ": ", code, sink)?;
    write_all(sink, b" ")?;
    write_all(sink, text.as_bytes())?;
    write_place(place, sink)
}

/// Writes the message for a stop, one line. It names a file as the command line does.
pub fn say<W: Sink>(stop: &Stop, names: [&str; 3], sink: &mut W) -> Result<(), Failed>
    requires { W.failed sink.old ≡ false }
    ensures ok { IsTrue W.tells → OnOk result (W.bytes sink.new ≡ W.bytes sink.old ++ message (map (λ name. name.now) names.entry) stop.now) }
    ensures fault { W.failed sink.new ≡ is_err result }
{
    let file = names[0];
    let ksy = names[1];
    let out = names[2];
    match stop {
        Stop::FileUnreadable => write_three("ksv: ", file, ": cannot read\n", sink),
        Stop::FileTooLarge => write_three("ksv: ", file, ": file too large\n", sink),
        Stop::DescriptionUnreadable => write_three("ksv: ", ksy, ": cannot read\n", sink),
        Stop::Line {
            line,
            code,
            text,
            at,
        } => say_line(ksy, *line, code, text, *at, sink),
        Stop::NoMemory => write_all(sink, b"ksv: no memory\n"),
        Stop::InputFailed => write_all(sink, b"ksv: input failed\n"),
        Stop::OutputFailed => write_all(sink, b"ksv: output failed\n"),
        Stop::SaveFailed => write_three("ksv: ", out, ": cannot write\n", sink),
        Stop::SaveUnsure => write_three("ksv: ", out, ": perhaps not saved\n", sink),
    }
}
