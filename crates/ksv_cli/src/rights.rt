//! Who may do what with a file: its owner, its group and its mode.

use std::fs::{File, Metadata, Permissions};
use std::io;
use std::os::unix::fs::{MetadataExt, PermissionsExt, fchown};

/// The bits of a mode that say who may do what, and as whom.
const MODE: u32 = 0o7777;

/// The bits by which a program runs as its owner and as its group.
const RUNS_AS: u32 = 0o6000;

/// A file's owner, group and mode.
#[derive(Clone, Copy)]
pub(crate) struct Rights {
    owner: u32,
    group: u32,
    mode: u32,
}

impl Rights {
    /// Those of a file.
    pub(crate) fn of(metadata: &Metadata) -> Rights {
        Rights {
            owner: metadata.uid(),
            group: metadata.gid(),
            mode: metadata.mode() & MODE,
        }
    }

    /// What these and others have in common; None where the owner or the group isn't the same.
    pub(crate) fn shared(self, other: Rights) -> Option<Rights> {
        if self.owner == other.owner && self.group == other.group {
            Some(Rights {
                mode: self.mode & other.mode,
                ..self
            })
        } else {
            None
        }
    }

    /// The mode that gives nobody a right that he hadn't, in a file that got this owner and group. Without the group nobody is known to be in
    /// it, so that its right and that of others is what both had. Without either, no program runs as another.
    fn mode_for(self, given: Rights) -> u32 {
        let is_group = given.group == self.group;
        let both = (self.mode >> 3) & self.mode & 0o7;
        let mode = if is_group {
            self.mode
        } else {
            (self.mode & !0o77) | (both << 3) | both
        };
        if is_group && given.owner == self.owner {
            mode
        } else {
            mode & !RUNS_AS
        }
    }

    /// Gives them to an open file, as far as the system allows it: the group and the owner, each for itself, and then what is left of the mode. A
    /// mode that is refused leaves that of the file, which is private.
    pub(crate) fn give(self, file: &File) -> io::Result<()> {
        let _ = fchown(file, None, Some(self.group));
        let _ = fchown(file, Some(self.owner), None);
        let mode = self.mode_for(Rights::of(&file.metadata()?));
        let _ = file.set_permissions(Permissions::from_mode(mode));
        Ok(())
    }
}
