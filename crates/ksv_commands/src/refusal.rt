//! Why a line is refused.

/// Why a line is refused before the command itself is tried.
#[derive(Clone, Copy)]
pub enum LineRefusal {
    /// C1: the first word is no command.
    UnknownCommand,
    /// C2: too many words for the command, or too few.
    WrongArguments,
    /// C3: not a decimal number of 1 to 20 digits below 2^64. Only an integer may begin with `-`, and is then at least -2^63.
    BadNumber,
    /// C4: not an even number of hexadecimal digits.
    BadHex,
    /// C5: not a path.
    BadPath,
    /// C6: the line has more than 4,096 bytes.
    LineTooLong,
    /// C9: more bytes than one line shows.
    TooLarge,
}
