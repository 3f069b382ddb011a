//! Laws of the texts of paths, each a contract of a function that does nothing.

ghost use Rattle.ksv_paths.specs.Laws.{PathsAreRead};
ghost use Rattle.ksv_paths.specs.PathTexts.{TextsAreWritten};

/// A text that names a path is the text of that path: no path is named by two texts.
pub fn texts_are_written()
    ensures { TextsAreWritten }
{}

/// The text of a path whose names are those of members, read, gives the path again: what a fault names can be asked.
pub fn paths_are_read()
    ensures { PathsAreRead }
{}
