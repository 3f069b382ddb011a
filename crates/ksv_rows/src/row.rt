//! The parts of a row.

use std::alloc::AllocError;

/// A row, as it is answered.
#[derive(Clone, Copy)]
pub(crate) struct Row<'a> {
    /// The lines of its description, each with its end.
    pub(crate) text: &'a [u8],
    /// What is done with it.
    pub(crate) kind: &'a str,
    /// The lines of its questions, each with its end.
    pub(crate) questions: &'a str,
}

/// That a kind is known, after the answers were added.
pub(crate) fn known(added: Result<(), AllocError>) -> Result<bool, AllocError> {
    added?;
    Ok(true)
}

/// A description, what is done with it, and questions with their replies.
#[derive(Clone, Copy)]
pub(crate) struct Parts<'a> {
    /// The lines of the description, with the heading in front.
    pub(crate) described: &'a str,
    /// What comes after `--`.
    pub(crate) kind: &'a str,
    /// The lines below: questions and replies.
    exchange: &'a str,
}

/// The parts of a row without its `==`, if it has a line `-- KIND`.
pub(crate) fn parts_of(text: &str) -> Option<Parts<'_>> {
    let (described, below) = text.split_once("\n-- ")?;
    let (kind, exchange) = below.split_once('\n')?;
    Some(Parts {
        described,
        kind,
        exchange,
    })
}

impl<'a> Parts<'a> {
    /// How many lines there are above the line `-- KIND`, the heading among them.
    pub(crate) fn lines_above(self) -> usize {
        self.described.split('\n').count()
    }

    /// How many lines of the exchange there are up to the first that begins with `>` but not with `> `.
    pub(crate) fn misspelt_reply(self) -> Option<usize> {
        let mut count = 0usize;
        for line in self.exchange.lines() {
            count = count.saturating_add(1);
            if line.starts_with('>') && !line.starts_with("> ") {
                return Some(count);
            }
        }
        None
    }

    /// Adds the questions and the expected replies, each with a line end.
    pub(crate) fn add_lines(
        self,
        questions: &mut String,
        replies: &mut String,
    ) -> Result<(), AllocError> {
        for line in self.exchange.lines() {
            match line.strip_prefix("> ") {
                Some(reply) => add_line(replies, reply)?,
                None => add_line(questions, line)?,
            }
        }
        Ok(())
    }
}

/// Adds a line with its end.
fn add_line(lines: &mut String, line: &str) -> Result<(), AllocError> {
    lines.push_str(line)?;
    lines.push('\n')
}
