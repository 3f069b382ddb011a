//! `ksv [--save OUT] FILE KSY`: explores a file by its description, over standard input and output.
//!
//! Modules:
//!
//! - `beside`: new files in the folder of another
//! - `mounts`: the files and folders over which something is mounted
//! - `rights`: a file's owner, group and mode
//! - `save`: saves the bytes at a session's end
#![tactic(auto)]

mod beside;
mod mounts;
mod rights;
mod save;

use crate::save::{Saved, Target, save, target_at};
use clap::Error;
use clap::error::ErrorKind as WordsKind;
use ksv::{Args, Desc, End, NewFault, Std, Stop, arguments, describe, run, say};
use ksv_bytes::{Buffer, FILE_LIMIT};
use ksv_yaml_scan::cut::MAX_LENGTH as DESCRIPTION_LIMIT;
use std::alloc::{AllocError, Global};
use std::fs::File;
use std::io::{self, ErrorKind, Read};
use std::process::ExitCode;

/// What a message says of a word that names no file, as no name of a file that ksv reads can be so.
const NO_TEXT: &str = "a word that isn't UTF-8";

/// The bytes of a file, at most `limit` of them.
fn read_file(rt: &HostRuntime, path: &str, limit: u64) -> io::Result<Vec<u8>> {
    let mut bytes = Vec::new(rt.alloc());
    File::open(rt, path)?.take(limit).read_to_end(&mut bytes)?;
    Ok(bytes)
}

/// Why the program stops at an error of the system: out of memory, or else this.
fn stop_of(error: io::Error, otherwise: Stop) -> Stop {
    if error.kind() == ErrorKind::OutOfMemory {
        Stop::NoMemory
    } else {
        otherwise
    }
}

/// Where the words say that the bytes go at the session's end.
fn target_of(rt: &HostRuntime, out: Option<&str>) -> Result<Option<Target>, Stop> {
    match out {
        Some(out) => match target_at(rt, out) {
            Ok(target) => Ok(Some(target)),
            Err(error) => Err(stop_of(error, Stop::SaveFailed)),
        },
        None => Ok(None),
    }
}

/// Keeps the bytes at the session's end, if the words name a file for them.
fn keep(rt: &HostRuntime, target: Option<&Target>, buffer: &Buffer) -> Result<(), Stop> {
    let Some(target) = target else {
        return Ok(());
    };
    match save(rt, target, buffer) {
        Ok(Saved::Surely) => Ok(()),
        Ok(Saved::Perhaps) => Err(Stop::SaveUnsure),
        Err(_) => Err(Stop::SaveFailed),
    }
}

/// The bytes of the file, of which at most one more is read than it may have.
fn file_of(rt: &HostRuntime, path: &str) -> Result<Vec<u8>, Stop> {
    match read_file(rt, path, FILE_LIMIT as u64 + 1) {
        Ok(bytes) if bytes.len() > FILE_LIMIT => Err(Stop::FileTooLarge),
        Ok(bytes) => Ok(bytes),
        Err(error) => Err(stop_of(error, Stop::FileUnreadable)),
    }
}

/// The description, of which at most one byte more is read than it may have.
fn description_of(rt: &HostRuntime, path: &str) -> Result<Desc, Stop> {
    match read_file(rt, path, DESCRIPTION_LIMIT as u64 + 1) {
        Ok(ksy) => describe(rt.alloc(), ksy.as_slice()),
        Err(error) => Err(stop_of(error, Stop::DescriptionUnreadable)),
    }
}

/// Serves the session, and saves the bytes if it went well.
fn serve(
    rt: &HostRuntime,
    target: &Option<Target>,
    desc: Desc,
    bytes: Vec<u8>,
) -> Result<(), Stop> {
    let mut reader = Std::new(rt.stdin());
    let mut writer = Std::new(rt.stdout());
    match run(rt.alloc(), &mut reader, &mut writer, desc, bytes) {
        Ok((buffer, End::Quit | End::Input)) => keep(rt, target.as_ref(), &buffer),
        Ok((_, End::ReadFailed)) => Err(Stop::InputFailed),
        Ok((_, End::WriteFailed)) => Err(Stop::OutputFailed),
        Err(NewFault::FileTooLarge) => Err(Stop::FileTooLarge),
    }
}

/// Looks where the bytes are to be saved, and serves the session.
fn serve_for(rt: &HostRuntime, out: Option<&str>, desc: Desc, bytes: Vec<u8>) -> Result<(), Stop> {
    match target_of(rt, out) {
        Ok(target) => serve(rt, &target, desc, bytes),
        Err(stop) => {
            drop(desc);
            Err(stop)
        }
    }
}

/// Reads the file and its description, in this order, and explores it.
fn explore(rt: &HostRuntime, args: Args) -> Result<(), Stop> {
    let bytes = file_of(rt, args.file)?;
    match description_of(rt, args.ksy) {
        Ok(desc) => serve_for(rt, args.save, desc, bytes),
        Err(stop) => Err(stop),
    }
}

/// Prints on standard error why the program stops, and gives its status.
fn stopped<'a>(
    rt: &HostRuntime,
    stop: Stop,
    file: &'a str,
    ksy: &'a str,
    out: &'a str,
) -> ExitCode {
    let names = [file, ksy, out];
    let _ = say(&stop, names, &mut Std::new(rt.stderr()));
    ExitCode::from(stop.status())
}

/// Prints usage on standard error, or help on standard output.
fn refused_words(rt: &HostRuntime, error: Error) -> ExitCode {
    if error.kind() == WordsKind::OutOfMemory {
        return stopped(rt, Stop::NoMemory, "", "", "");
    }
    match error.print(rt) {
        Err(unprinted) if !error.use_stderr() => {
            stopped(rt, stop_of(unprinted, Stop::OutputFailed), "", "", "")
        }
        _ => ExitCode::from(error.exit_code() as u8),
    }
}

/// The words that the program was started with.
fn words(rt: &HostRuntime) -> io::Result<Vec<String>> {
    let words = std::env::args(rt)?.collect(rt.alloc())?;
    Ok(words)
}

/// The words as texts. The first is `ksv`, whatever the name of the file that the program was started from, since
/// usage prints it.
fn texts<'a>(alloc: Global, words: &'a [String]) -> Result<Vec<&'a str>, AllocError> {
    let mut texts: Vec<&'a str> = Vec::new(alloc);
    texts.push("ksv")?;
    for word in words.iter().skip(1) {
        texts.push(word.as_str())?;
    }
    Ok(texts)
}

/// Explores the file that the words name.
fn explore_by(rt: &HostRuntime, words: &[&str]) -> ExitCode {
    match arguments(rt.alloc(), words) {
        Ok(args) => match explore(rt, args) {
            Ok(()) => ExitCode::SUCCESS,
            Err(stop) => stopped(rt, stop, args.file, args.ksy, args.save.unwrap_or("")),
        },
        Err(error) => refused_words(rt, error),
    }
}

fn main(rt: HostRuntime) -> ExitCode {
    let words = match words(&rt) {
        Ok(words) => words,
        Err(error) => {
            let stop = stop_of(error, Stop::FileUnreadable);
            return stopped(&rt, stop, NO_TEXT, "", "");
        }
    };
    match texts(rt.alloc(), words.as_slice()) {
        Ok(texts) => explore_by(&rt, texts.as_slice()),
        Err(_) => stopped(&rt, Stop::NoMemory, "", "", ""),
    }
}
