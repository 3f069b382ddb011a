//! White space and comments.

ghost use Rattle.std.specs.Prelude.{◌≡◌, ◌≤◌, [], ◌∷◌, length, MatchOption};
ghost use Rattle.ksv_yaml_scan.specs.Lines.{is_white as is_white_byte, skip as behind_white, shown as shown_of, is_clear as is_clear_of, white_or_end};

/// The first byte, and those after it.
pub(crate) fn next(bytes: &[u8]) -> Option<(u8, &[u8])>
    ensures { MatchOption result (bytes.now ≡ []) (λ x. bytes.now ≡ x.0 ∷ x.1.now) }
{
    match bytes {
        [] => None,
        [first, rest @ ..] => Some((*first, rest)),
    }
}

/// Whether white space or the line's end is here.
pub(crate) fn is_white_or_end(content: &[u8]) -> bool
    ensures { result ≡ white_or_end content.now }
{
    match next(content) {
        None => true,
        Some((byte, _)) => is_white(byte),
    }
}

/// Whether the byte is white space: a space or a tab.
pub(crate) fn is_white(byte: u8) -> bool
    ensures { result ≡ is_white_byte byte }
{
    byte == b' ' || byte == b'\t'
}

/// What comes after the white space at the front.
pub(crate) fn skip(content: &[u8]) -> &[u8]
    ensures value { result.now ≡ behind_white content.now }
    ensures shorter { length result.now ≤ length content.now }
{
    for (i, byte) in content.iter().enumerate() {
        if !is_white(*byte) {
            return &content[i..];
        }
    }
    &content[content.len()..]
}

/// What comes after the white space at the front; a comment counts as nothing.
pub(crate) fn shown(content: &[u8]) -> &[u8]
    ensures value { result.now ≡ shown_of content.now }
    ensures shorter { length result.now ≤ length content.now }
{
    let rest = skip(content);
    if let Some((byte, behind)) = next(rest) {
        if byte == b'#' {
            return &behind[behind.len()..];
        }
    }
    rest
}

/// Whether nothing is here but white space, perhaps with a comment after it.
pub(crate) fn is_clear(content: &[u8]) -> bool
    ensures { result ≡ is_clear_of content.now }
{
    match next(content) {
        None => true,
        Some((byte, rest)) => is_white(byte) && shown(rest).is_empty(),
    }
}
