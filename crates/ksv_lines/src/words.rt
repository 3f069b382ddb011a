//! The words of a line.
ghost use Rattle.std.specs.Prelude.{◌≡◌, ◌≤◌, ◌<◌, [], ◌∷◌, length, MatchOption, IfSome, position, not, true};
ghost use Rattle.ksv_lines.specs.Lines.{BeginsWord, is_blank, is_word_start, without_carriage_return, words_of};

/// The place of the first byte that is neither a space nor a tab.
fn filled_place(text: &[u8]) -> Option<usize>
    ensures { result ≡ position (λ c. not (is_blank c)) text.now }
{
    text.iter()
        .position(|byte| !(*byte == b' ' || *byte == b'\t'))
}

/// The place of the first space or tab.
fn blank_place(text: &[u8]) -> Option<usize>
    ensures { result ≡ position is_blank text.now }
{
    text.iter().position(|byte| *byte == b' ' || *byte == b'\t')
}

/// The text after the spaces and tabs in front; None if nothing is left.
fn skip_blanks(text: &[u8]) -> Option<&[u8]>
    ensures { MatchOption result (words_of text.now ≡ []) (λ rest. BeginsWord text.now rest.now) }
{
    let start = filled_place(text)?;
    Some(&text[start..])
}

/// The word at the front, and what comes after it.
fn cut_word(text: &[u8]) -> (&[u8], &[u8])
    requires { is_word_start text.now ≡ true }
    ensures word { words_of text.now ≡ result.0.now ∷ words_of result.1.now }
    ensures filled { 0 < length result.0.now }
    ensures within { (length result.0.now ≤ length text.now) × (length result.1.now ≤ length text.now) }
{
    match blank_place(text) {
        Some(len) => (&text[..len], &text[len..]),
        None => (text, &[]),
    }
}

/// The first word, and what comes after it; None if there is no word.
pub fn next_word(text: &[u8]) -> Option<(&[u8], &[u8])>
    ensures words { MatchOption result (words_of text.now ≡ []) (λ found. words_of text.now ≡ found.0.now ∷ words_of found.1.now) }
    ensures filled { IfSome result (λ found. 0 < length found.0.now) }
    ensures within { IfSome result (λ found. (length found.0.now ≤ length text.now) × (length found.1.now ≤ length text.now)) }
{
    let rest = skip_blanks(text)?;
    Some(cut_word(rest))
}

/// The line without the one carriage return that it may end with.
pub fn line_text(line: &[u8]) -> &[u8]
    ensures text { result.now ≡ without_carriage_return line.now }
    ensures within { length result.now ≤ length line.now }
{
    if !line.is_empty() && line[line.len() - 1] == b'\r' {
        &line[..line.len() - 1]
    } else {
        line
    }
}
