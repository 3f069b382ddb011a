//! Saves the bytes at a session's end: beside the file that they are for, which they then replace as a whole.

use crate::beside::{
    PRIVATE, SHARED, file_beside, folder_of, is_at, is_same, open_name, tried_beside,
};
use crate::mounts::is_mounted;
use crate::rights::Rights;
use ksv_bytes::{Buffer, Window};
use std::fs::{self, File, Metadata, OpenOptions};
use std::io::{self, ErrorKind, Write};
use std::os::unix::fs::MetadataExt;

/// How many links are followed, one after the other, to a file that isn't there.
const LINKS: u32 = 40;

/// The bit of a folder's mode by which only the owner of a file there may give its name to another, or the folder's owner.
const STICKY: u32 = 0o1000;

/// What was at a path before the session.
#[derive(Drop)]
pub(crate) enum Before {
    /// This file. It's kept open, so that no other file can be taken for it.
    File(File),
    /// None; these are the rights of a new file there.
    Nothing(Rights),
}

/// Where the bytes go.
#[derive(Drop)]
pub(crate) enum Target {
    /// To the file of this path, which has its old bytes until all new ones are on the disk.
    File { path: String, before: Before },
    /// To this device or pipe: they are written there at once.
    Device(String),
}

/// How sure it is that the new bytes have their name.
#[derive(Clone, Copy)]
pub(crate) enum Saved {
    /// They have it, also after the power fails.
    Surely,
    /// They were given it. But the disk failed when it was to keep it, or something else has it by now.
    Perhaps,
}

/// Opens a file without a change, to know it again.
fn opened(rt: &HostRuntime, path: &str) -> io::Result<File> {
    match File::open(rt, path) {
        Ok(file) => Ok(file),
        Err(_) => OpenOptions::new().write(true).open(rt, path),
    }
}

/// Whether a file's folder keeps its name from the one who made another file there.
fn is_kept_from(
    rt: &HostRuntime,
    path: &str,
    file: &Metadata,
    mine: &Metadata,
) -> io::Result<bool> {
    let folder = fs::metadata(rt, open_name(path))?;
    let me = mine.uid();
    Ok(folder.mode() & STICKY != 0 && me != 0 && me != folder.uid() && me != file.uid())
}

/// The target of a file that is there and may be written. A link is followed.
fn file_at(rt: &HostRuntime, out: &str) -> io::Result<Target> {
    drop(OpenOptions::new().write(true).open(rt, out)?);
    let path = String::from_str(rt.alloc(), fs::canonicalize(rt, out)?.as_str())?;
    let file = opened(rt, path.as_str())?;
    let mine = tried_beside(rt, path.as_str(), PRIVATE)?;
    let is_kept = is_kept_from(rt, path.as_str(), &file.metadata()?, &mine)?;
    if is_kept || is_mounted(rt, path.as_str())? {
        return Err(io::Error::from(ErrorKind::PermissionDenied));
    }
    Ok(Target::File {
        path,
        before: Before::File(file),
    })
}

/// Whether an error in reading a link is that there is none.
fn is_no_link(error: &io::Error) -> bool {
    matches!(error.kind(), ErrorKind::InvalidInput | ErrorKind::NotFound)
}

/// The path that a link at a path leads to, by what is written in it.
fn led_to(rt: &HostRuntime, link: &str, text: &str) -> io::Result<String> {
    let folder = if text.starts_with('/') {
        ""
    } else {
        folder_of(link)
    };
    let path = format!(in rt.alloc(); "{folder}{text}")?;
    Ok(path)
}

/// The path of the file that links lead to, where none is there.
fn end_of_links(rt: &HostRuntime, out: &str) -> io::Result<String> {
    let mut path = String::from_str(rt.alloc(), out)?;
    for _ in 0..LINKS {
        match fs::read_link(rt, path.as_str()) {
            Ok(next) => path = led_to(rt, path.as_str(), next.as_str())?,
            Err(error) if is_no_link(&error) => return Ok(path),
            Err(error) => return Err(error),
        }
    }
    Err(io::Error::from(ErrorKind::FilesystemLoop))
}

/// The target of a file that isn't there.
fn new_file_at(rt: &HostRuntime, out: &str) -> io::Result<Target> {
    let path = end_of_links(rt, out)?;
    if path.as_str().is_empty() || path.as_str().ends_with('/') {
        return Err(io::Error::from(ErrorKind::IsADirectory));
    }
    let made = tried_beside(rt, path.as_str(), SHARED)?;
    Ok(Target::File {
        path,
        before: Before::Nothing(Rights::of(&made)),
    })
}

/// The target that OUT names, looked for before the session: there an error means that nothing could be saved.
pub(crate) fn target_at(rt: &HostRuntime, out: &str) -> io::Result<Target> {
    match fs::metadata(rt, out) {
        Ok(metadata) if metadata.is_file() => file_at(rt, out),
        Ok(metadata) if metadata.is_dir() => Err(io::Error::from(ErrorKind::IsADirectory)),
        Ok(_) => Ok(Target::Device(String::from_str(rt.alloc(), out)?)),
        Err(error) if error.kind() == ErrorKind::NotFound => new_file_at(rt, out),
        Err(error) => Err(error),
    }
}

/// Writes the bytes of a buffer.
fn write_bytes(file: &mut File, buffer: &Buffer) -> io::Result<()> {
    let (front, back) = buffer.parts(Window {
        from: 0,
        to: buffer.len(),
    });
    file.write_all(front)?;
    file.write_all(back)?;
    file.flush()
}

/// Puts what was written on the disk, unless it's of a kind that has none.
fn synced(file: &File) -> io::Result<()> {
    match file.sync_all() {
        Err(error) if error.kind() == ErrorKind::InvalidInput => Ok(()),
        synced => synced,
    }
}

/// The file at a path by now, if one is there. What isn't a file, as a link, is not to be replaced.
fn file_now(rt: &HostRuntime, path: &str) -> io::Result<Option<Metadata>> {
    match fs::symlink_metadata(rt, path) {
        Ok(metadata) if metadata.is_file() => Ok(Some(metadata)),
        Ok(_) => Err(io::Error::from(ErrorKind::AlreadyExists)),
        Err(error) if error.kind() == ErrorKind::NotFound => Ok(None),
        Err(error) => Err(error),
    }
}

/// The rights of the file at a path by now. Where another file came there since, what it has in common with the one before; None where nothing is.
fn rights_now(rt: &HostRuntime, path: &str, before: &Before) -> io::Result<Option<Rights>> {
    let now = file_now(rt, path)?;
    let rights = match before {
        Before::File(file) => {
            let metadata = file.metadata()?;
            let rights = Rights::of(&metadata);
            match now {
                Some(now) if !is_same(&now, &metadata) => rights.shared(Rights::of(&now)),
                _ => Some(rights),
            }
        }
        Before::Nothing(rights) => match now {
            Some(now) => rights.shared(Rights::of(&now)),
            None => Some(*rights),
        },
    };
    Ok(rights)
}

/// Writes the bytes to a file that was just made, gives it rights, and puts it on the disk. What the system then says of it.
fn fill(file: &mut File, rights: Option<Rights>, buffer: &Buffer) -> io::Result<Metadata> {
    write_bytes(file, buffer)?;
    if let Some(rights) = rights {
        rights.give(file)?;
    }
    file.sync_all()?;
    file.metadata()
}

/// Gives a file the name of another, unless its own name is by now that of something else.
fn rename(rt: &HostRuntime, name: &str, path: &str, made: &Metadata) -> io::Result<()> {
    if is_at(rt, name, made) {
        fs::rename(rt, name, path)
    } else {
        Err(io::Error::from(ErrorKind::NotFound))
    }
}

/// The folder of a path, open so that its names can be put on the disk; None where it may not be read.
fn open_folder(rt: &HostRuntime, path: &str) -> io::Result<Option<File>> {
    match File::open(rt, open_name(path)) {
        Ok(folder) => Ok(Some(folder)),
        Err(error) if error.kind() == ErrorKind::PermissionDenied => Ok(None),
        Err(error) => Err(error),
    }
}

/// Whether the disk has the names of a folder, if that can be known.
fn are_names_synced(folder: Option<&File>) -> bool {
    match folder {
        Some(folder) => synced(folder).is_ok(),
        None => true,
    }
}

/// Writes the bytes to a new file beside the one of a path, and then gives it that one's name.
fn replace(rt: &HostRuntime, path: &str, before: &Before, buffer: &Buffer) -> io::Result<Saved> {
    let rights = rights_now(rt, path, before)?;
    let folder = open_folder(rt, path)?;
    let (mut file, name) = file_beside(rt, path, PRIVATE)?;
    let filled = fill(&mut file, rights, buffer);
    let renamed = filled.and_then(|made| {
        rename(rt, name.as_str(), path, &made)?;
        Ok(made)
    });
    match renamed {
        Ok(made) if is_at(rt, path, &made) && are_names_synced(folder.as_ref()) => Ok(
            Saved::Surely,
        ),
        Ok(_) => Ok(Saved::Perhaps),
        Err(error) => {
            let _ = fs::remove_file(rt, name.as_str());
            Err(error)
        }
    }
}

/// Writes the bytes to a device or a pipe.
fn write_in_place(rt: &HostRuntime, path: &str, buffer: &Buffer) -> io::Result<Saved> {
    let mut file = OpenOptions::new().write(true).open(rt, path)?;
    if file.metadata()?.is_file() {
        return Err(io::Error::from(ErrorKind::AlreadyExists));
    }
    write_bytes(&mut file, buffer)?;
    synced(&file)?;
    Ok(Saved::Surely)
}

/// Saves the bytes. Where that fails, a file that was there has its old bytes, and one that wasn't isn't.
pub(crate) fn save(rt: &HostRuntime, target: &Target, buffer: &Buffer) -> io::Result<Saved> {
    match target {
        Target::File { path, before } => replace(rt, path.as_str(), before, buffer),
        Target::Device(path) => write_in_place(rt, path.as_str(), buffer),
    }
}
