//! The parts of flow nodes.

ghost use Rattle.std.specs.Prelude.{◌≡◌, ◌∷◌, ℕ, true, false, List, All, IfOk, OnOk, if◌then◌else◌};
ghost use Rattle.ksv_yaml_scan.specs.Lines.{Line as LineOf, HasNumber};
ghost use Rattle.ksv_yaml_scan.specs.Plain.{starts_plain as starts_plain_of, run};
ghost use Rattle.ksv_yaml_scan.specs.Quoted.{quote_of};
ghost use Rattle.ksv_yaml_scan.specs.Tokens.{Bad, quoted_cut, plain_part, cut as cut_of, tokens_of};
ghost use Rattle.ksv_yaml_scan.specs.Views.{line_view, lines_view, cut_view, LineAdds, PartsAre};

use crate::fault::{LineFault, ScanError, ScanFault};
use crate::line::Line;
use crate::plain::{Ending, plain_run, starts_plain};
use crate::quoted::{Quote, read_quote};
use crate::white::{is_white, next, skip};
use std::alloc::{AllocError, Global};

/// A part of a flow node, and the number of its line.
#[derive(Drop)]
pub struct Token {
    /// The line's number, counted from 1.
    pub line: usize,
    /// The part.
    pub part: Part,
}

/// A part of a flow node.
#[derive(Debug, Drop)]
pub enum Part {
    /// `[`
    Open,
    /// `]`
    Close,
    /// `{`
    OpenMap,
    /// `}`
    CloseMap,
    /// `,`
    Comma,
    /// A scalar that no colon follows on its line.
    Scalar { quoted: bool, text: Vec<u8> },
    /// A scalar, and the colon after it.
    Key { quoted: bool, text: Vec<u8> },
}

/// The parts that are on lines.
#[derive(Drop)]
pub struct FlowParts {
    /// The parts, in order, up to the fault if there is one.
    pub tokens: Vec<Token>,
    /// What is wrong after them; None if all the lines are parts, white space and comments.
    pub fault: Option<LineFault>,
}

/// What is at the front of a line's content.
#[derive(Drop)]
enum Cut<'a> {
    /// Nothing more, or a comment.
    Over,
    /// No part of a flow node.
    Bad(ScanFault),
    /// White space, and what comes after it.
    White(&'a [u8]),
    /// A part, and what comes after it.
    Part(Part, &'a [u8]),
}

/// The parts of flow nodes on a first line and on the lines after it.
pub fn flow_parts(alloc: Global, first: Line, lines: &[Line]) -> Result<FlowParts, AllocError>
    ensures parts { IfOk result (λ p. let ls = line_view first.entry ∷ lines_view lines.now in PartsAre ls (tokens_of ls) p.tokens.items p.fault) }
    ensures numbered { IfOk result (λ p. All (λ t. HasNumber (line_view first.entry ∷ lines_view lines.now) t.line) p.tokens.items) }
{
    let mut tokens = Vec::new(alloc);
    let fault = push_line(alloc, &mut tokens, first)?;
    if fault.is_some() {
        return Ok(FlowParts { tokens, fault });
    }
    for line in lines {
        let fault = push_line(alloc, &mut tokens, *line)?;
        if fault.is_some() {
            return Ok(FlowParts { tokens, fault });
        }
    }
    Ok(FlowParts {
        tokens,
        fault: None,
    })
}

/// Adds the parts on a line, up to a fault if there is one.
fn push_line(
    alloc: Global,
    tokens: &mut Vec<Token>,
    line: Line,
) -> Result<Option<LineFault>, AllocError>
    ensures parts { IfOk result (λ f. LineAdds (line_view line.entry) tokens.old.items tokens.new.items f) }
    ensures numbered { OnOk result ((ls : List LineOf) → HasNumber ls line.entry.number → All (λ t. HasNumber ls t.line) tokens.old.items → All (λ t. HasNumber ls t.line) tokens.new.items) }
{
    let mut rest = line.content;
    let mut white = true;
    'parts: loop {
        match cut_part(alloc, rest, white)? {
            Cut::Over => return Ok(None),
            Cut::Bad(fault) => {
                return Ok(Some(LineFault {
                    line: line.number,
                    fault,
                }));
            }
            Cut::White(behind) => {
                rest = behind;
                white = true;
            }
            Cut::Part(part, behind) => {
                tokens.push(Token {
                    line: line.number,
                    part,
                })?;
                rest = behind;
                white = false;
            }
        }
    }
}

/// What is at the front; `white` means that white space or the line's start is before it.
fn cut_part(alloc: Global, content: &[u8], white: bool) -> Result<Cut<'_>, AllocError>
    ensures { IfOk result (λ k. (n : ℕ) → cut_of n white content.now ≡ cut_view n k) }
{
    let Some((byte, rest)) = next(content) else {
        return Ok(Cut::Over);
    };
    if is_white(byte) {
        return Ok(Cut::White(rest));
    }
    match byte {
        b'#' => Ok(if white {
            Cut::Over
        } else {
            Cut::Bad(ScanFault::LeftOut)
        }),
        b'[' => Ok(Cut::Part(Part::Open, rest)),
        b']' => Ok(Cut::Part(Part::Close, rest)),
        b'{' => Ok(Cut::Part(Part::OpenMap, rest)),
        b'}' => Ok(Cut::Part(Part::CloseMap, rest)),
        b',' => Ok(Cut::Part(Part::Comma, rest)),
        b'\'' | b'"' => cut_quoted(alloc, content),
        _ => cut_plain(alloc, content),
    }
}

/// The quoted scalar at the front, with the colon if one follows it.
fn cut_quoted(alloc: Global, content: &[u8]) -> Result<Cut<'_>, AllocError>
    ensures { IfOk result (λ k. (n : ℕ) → quoted_cut n (quote_of content.now) ≡ cut_view n k) }
{
    let Quote { text, rest } = match read_quote(alloc, content) {
        Ok(quote) => quote,
        Err(ScanError::Fault(fault)) => return Ok(Cut::Bad(fault)),
        Err(ScanError::NoMemory) => return Err(AllocError),
    };
    if let Some((byte, behind)) = next(skip(rest)) {
        if byte == b':' {
            return Ok(Cut::Part(Part::Key { quoted: true, text }, behind));
        }
        return Ok(Cut::Part(Part::Scalar { quoted: true, text }, rest));
    }
    Ok(Cut::Part(Part::Scalar { quoted: true, text }, &rest[rest.len()..]))
}

/// The plain scalar at the front, with the colon if one follows it.
fn cut_plain(alloc: Global, content: &[u8]) -> Result<Cut<'_>, AllocError>
    ensures { IfOk result (λ k. (n : ℕ) → (if starts_plain_of content.now then plain_part n (run true false content.now) else Bad) ≡ cut_view n k) }
{
    if !starts_plain(content) {
        return Ok(Cut::Bad(ScanFault::LeftOut));
    }
    let run = plain_run(content, true, false);
    let text = Vec::from_slice(alloc, run.text)?;
    let (_, end) = content.split_at(content.len());
    match run.ending {
        Ending::Colon(rest) => Ok(Cut::Part(
            Part::Key {
                quoted: false,
                text,
            },
            rest,
        )),
        Ending::Bracket(rest) => Ok(Cut::Part(
            Part::Scalar {
                quoted: false,
                text,
            },
            rest,
        )),
        Ending::Comment | Ending::End => Ok(Cut::Part(
            Part::Scalar {
                quoted: false,
                text,
            },
            end,
        )),
    }
}
