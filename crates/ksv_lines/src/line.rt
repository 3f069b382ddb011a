//! The line that is being read.
ghost use Rattle.std.specs.Prelude.{◌≡◌, ◌≤◌, ◌++◌, List, ℕ, [], ◌∷◌, length, take};
ghost use Rattle.ksv_lines.specs.Lines.{line_room};

use arrayvec::ArrayVec;
use std::marker::Model;

/// One byte more than a line may have.
const LINE_ROOM: usize = 4097;

/// The beginning of a line, up to the byte that makes it too long. So a line that is too long is known by its
/// length, and the rest of it is dropped.
#[derive(Drop)]
pub struct LineBuffer {
    front: ArrayVec<u8, LINE_ROOM>,
}

impl Model for LineBuffer {
    ghost Value = { List ℕ };

    ghost view = { λ line. line.front.items };
}

impl LineBuffer {
    /// An empty line.
    pub fn new() -> LineBuffer
        ensures { result ≡ [] }
    {
        LineBuffer {
            front: ArrayVec::new(),
        }
    }

    /// Adds a byte, or drops it if the line is too long already.
    pub fn push(&mut self, byte: u8)
        ensures { self.new ≡ take line_room (self.old ++ byte ∷ []) }
    {
        if self.front.len() < LINE_ROOM {
            self.front.push(byte);
        }
    }

    /// Drops what was gathered.
    pub fn clear(&mut self)
        ensures { self.new ≡ [] }
    {
        self.front.clear();
    }

    /// What was gathered.
    pub fn as_slice(&self) -> &[u8]
        ensures value { result.now ≡ self.now }
        ensures short { length result.now ≤ line_room }
    {
        self.front.as_slice()
    }
}
