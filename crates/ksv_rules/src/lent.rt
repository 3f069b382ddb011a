//! Bytes that are lent in two slices: how many they are, the first of them, and whether they are certain ones.

ghost use Rattle.std.specs.Prelude.{◌≡◌, ◌<◌, length, take};
ghost use Rattle.std.specs.Str.{bytes_eq};
ghost use Rattle.ksv_expr_value.specs.Bytes.{content};

use ksv_expr_value::Parts;

/// How many bytes there are.
pub(crate) fn len_of(parts: Parts) -> usize
    requires { length (content parts) < 4294967296 }
    ensures { result ≡ length (content parts.entry) }
{
    parts.front.len() + parts.back.len()
}

/// The first bytes, as many as a count.
pub(crate) fn cut(parts: Parts, count: usize) -> Parts
    ensures { content result ≡ take count (content parts.entry) }
{
    let front = parts.front.len();
    if count <= front {
        return Parts {
            front: &parts.front[..count],
            back: &[],
        };
    }
    let rest = (count - front).min(parts.back.len());
    Parts {
        front: parts.front,
        back: &parts.back[..rest],
    }
}

/// Whether they are these bytes.
pub(crate) fn are(parts: Parts, bytes: &[u8]) -> bool
    ensures { result ≡ bytes_eq (content parts.entry) bytes.now }
{
    parts.equals(Parts {
        front: bytes,
        back: &[],
    })
}
