//! Laws of what is written.
ghost use Rattle.ksv_questions.specs.Writing.{BitsAreWritten, IntegersAreReadBack};

/// The bytes that are written for an integer are read as that integer.
pub fn integers_are_read_back()
    ensures { IntegersAreReadBack }
{}

/// The bits that are written for an integer are read as that integer, and all other bits of the file are as they were.
pub fn bits_are_written()
    ensures { BitsAreWritten }
{}
