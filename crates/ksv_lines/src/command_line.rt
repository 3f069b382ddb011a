//! The words of the program's command line.
ghost use Rattle.std.specs.Prelude.{◌≡◌, Some, IfOk, map, codes, option_map};
ghost use Rattle.clap.specs.Words.{app_of, fault_of, FailsBy};
ghost use Rattle.ksv_lines.specs.Words.{Demands, IsDemanded, IsNamed, IsOption, explorer, found};

use clap::{Arg, ArgAction, Command, Error};
use std::alloc::{AllocError, Global};

/// What a command line names.
#[derive(Clone, Copy)]
pub struct Args<'a> {
    /// Where the bytes are saved at the end of the session, if they are.
    pub save: Option<&'a str>,
    /// The path of the file.
    pub file: &'a str,
    /// The path of its description.
    pub ksy: &'a str,
}

/// The end of the help: the commands, and an example.
const COMMAND_LINES: &str = "\
Command lines are read from standard input, and each is answered in one line:
  get PATH         the value at a path, such as /items/0/name; / is the whole file
  at PATH          where it begins and ends
  ls PATH          the members of an object, or how many elements a list has
  dump PATH        the value with all that is in it, as JSON
  put PATH INT     writes an integer over one, as: put /items/0/len 3
  set POS HEX      writes bytes over those from a place on, as: set 3 02ff
  ins POS HEX      puts bytes before a place
  del POS COUNT    takes bytes out
  app HEX          adds bytes at the end
  bytes POS COUNT  the bytes from a place on
  size             the number of bytes
  stats            how many answers are kept, and the turns of the last question
  quit             ends the session

Example: echo 'get /' | ksv picture.png png.ksy";

/// A required argument: its name in the usage, and its line of the help.
fn demanded<'a>(alloc: Global, id: &'a str, shown: &'a str, help: &'a str) -> Arg<'a>
    ensures { IsDemanded id.now result }
{
    Arg::new(alloc, id)
        .value_name(shown)
        .help(help)
        .required(true)
        .action(ArgAction::Set)
}

/// An optional `--ID VALUE`: the name of the value in the usage, and its line of the help.
fn optional<'a>(alloc: Global, id: &'a str, shown: &'a str, help: &'a str) -> Arg<'a>
    ensures { IsOption id.now result }
{
    Arg::new(alloc, id)
        .long(id)
        .value_name(shown)
        .help(help)
        .action(ArgAction::Set)
}

/// The program's name and its help, before any argument is added.
fn named<'a>(alloc: Global) -> Command<'a>
    ensures { IsNamed result }
{
    Command::new(alloc, "ksv")
        .about("Explores a binary file by its Kaitai Struct description")
        .after_help(COMMAND_LINES)
}

/// The command line `ksv [--save OUT] FILE KSY`.
fn command<'a>(alloc: Global) -> Result<Command<'a>, AllocError>
    ensures app { IfOk result (λ r. app_of r ≡ explorer) }
    ensures file { IfOk result (λ r. Demands r (codes "file")) }
    ensures ksy { IfOk result (λ r. Demands r (codes "ksy")) }
{
    let with_save = named(alloc).arg(optional(
        alloc,
        "save",
        "OUT",
        "Writes the bytes to OUT after the session",
    ))?;
    let with_file = with_save.arg(demanded(alloc, "file", "FILE", "The file to explore"))?;
    with_file.arg(demanded(alloc, "ksy", "KSY", "Its description, a .ksy file"))
}

/// Reads the words of a command line; the first is the program's name. An error is `clap`'s: it has the text to print,
/// which may be the help, and the exit code. Valid arguments fail only when memory runs out.
pub fn arguments<'a>(alloc: Global, words: &'a [&'a str]) -> Result<Args<'a>, Error>
    ensures save { IfOk result (λ args. option_map (λ s. s.now) args.save ≡ found (map (λ w. w.now) words.entry.now) (codes "save")) }
    ensures file { IfOk result (λ args. Some args.file.now ≡ found (map (λ w. w.now) words.entry.now) (codes "file")) }
    ensures ksy { IfOk result (λ args. Some args.ksy.now ≡ found (map (λ w. w.now) words.entry.now) (codes "ksy")) }
    ensures kinds { FailsBy (fault_of explorer (map (λ w. w.now) words.entry.now)) result }
{
    let matches = command(alloc)?.try_get_matches_from(words)?;
    Ok(Args {
        save: matches.get_str("save"),
        file: matches.get_str("file").unwrap(),
        ksy: matches.get_str("ksy").unwrap(),
    })
}
