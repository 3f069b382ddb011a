//! New files in the folder of another, which nobody else can have made.

use std::fs::{self, File, Metadata, OpenOptions};
use std::io::{self, ErrorKind};
use std::os::unix::fs::{MetadataExt, OpenOptionsExt};
use std::random::RandomSource;

/// The mode of a file that only its owner may read or write.
pub(crate) const PRIVATE: u32 = 0o600;

/// The mode that a new file has, but for what the process takes away of it (its umask).
pub(crate) const SHARED: u32 = 0o666;

/// How many random names are tried.
const NAMES: u32 = 100;

/// The folder of a path, with the slash after it; empty where the path names none.
pub(crate) fn folder_of(path: &str) -> &str {
    match path.rfind('/') {
        Some(slash) => &path[..slash + 1],
        None => "",
    }
}

/// The folder of a path, by a name that it can be opened by.
pub(crate) fn open_name(path: &str) -> &str {
    let folder = folder_of(path);
    if folder.is_empty() { "." } else { folder }
}

/// A random name in the folder of a path.
fn random_name(rt: &HostRuntime, path: &str) -> io::Result<String> {
    let mut bytes = [0u8; 8];
    rt.fill_bytes(&mut bytes)?;
    let number = u64::from_le_bytes(bytes);
    let name = format!(in rt.alloc(); "{}.ksv-save-{number:016x}", folder_of(path))?;
    Ok(name)
}

/// A new file beside another, and its path.
pub(crate) fn file_beside(rt: &HostRuntime, path: &str, mode: u32) -> io::Result<(File, String)> {
    let mut options = OpenOptions::new();
    options.write(true).create_new(true).mode(mode);
    for _ in 0..NAMES {
        let name = random_name(rt, path)?;
        match options.open(rt, name.as_str()) {
            Ok(file) => return Ok((file, name)),
            Err(error) if error.kind() == ErrorKind::AlreadyExists => {}
            Err(error) => return Err(error),
        }
    }
    Err(io::Error::from(ErrorKind::AlreadyExists))
}

/// Whether a file may be made beside another: one is made, and removed. What the system said of it.
pub(crate) fn tried_beside(rt: &HostRuntime, path: &str, mode: u32) -> io::Result<Metadata> {
    let (file, name) = file_beside(rt, path, mode)?;
    let metadata = file.metadata();
    drop(file);
    fs::remove_file(rt, name.as_str())?;
    metadata
}

/// Whether two files are the same one.
pub(crate) fn is_same(one: &Metadata, other: &Metadata) -> bool {
    one.dev() == other.dev() && one.ino() == other.ino()
}

/// Whether a path names this file itself, by no link.
pub(crate) fn is_at(rt: &HostRuntime, path: &str, file: &Metadata) -> bool {
    match fs::symlink_metadata(rt, path) {
        Ok(found) => is_same(&found, file),
        Err(_) => false,
    }
}
