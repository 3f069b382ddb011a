//! Bytes that are lent in two slices.
ghost use Rattle.std.specs.Prelude.{◌≡◌, ◌+◌, ◌<◌, ◌≤◌, ◌++◌, length, IfOk, slice_get, option_copied};
ghost use Rattle.std.specs.Str.{bytes_eq};
ghost use Rattle.ksv_expr_value.specs.Bytes.{content};

/// Bytes, cut in two.
#[derive(Clone, Copy)]
pub struct Parts<'a> {
    /// The first of them.
    pub front: &'a [u8],
    /// Those after it.
    pub back: &'a [u8],
}

impl<'a> Parts<'a> {
    /// The first byte, if there is one.
    pub fn first(self) -> Option<u8>
        ensures { result ≡ slice_get (content self.entry) 0 }
    {
        match self.front.first() {
            Some(byte) => Some(*byte),
            None => self.back.first().copied(),
        }
    }

    /// Whether the two are the same bytes, however they are cut.
    #[tactic(auto, using(crate::proofs::Halves::turned))]
    pub fn equals(self, other: Parts) -> bool
        ensures { result ≡ bytes_eq (content self.entry) (content other.entry) }
    {
        if self.front.len() <= other.front.len() {
            halves_equal(self.front, self.back, other.front, other.back)
        } else {
            halves_equal(other.front, other.back, self.front, self.back)
        }
    }
}

#[tactic(auto, using(crate::proofs::Halves::halves))]
fn halves_equal(front: &[u8], back: &[u8], other_front: &[u8], other_back: &[u8]) -> bool
    requires { length front.now ≤ length other_front.now }
    ensures { result ≡ bytes_eq (front.now ++ back.now) (other_front.now ++ other_back.now) }
{
    let (same, rest) = other_front.split_at(front.len());
    if front != same {
        return false;
    }
    is_joined(back, rest, other_back)
}

#[tactic(auto, using(crate::proofs::Halves::split, crate::proofs::Halves::short))]
fn is_joined(whole: &[u8], front: &[u8], back: &[u8]) -> bool
    ensures { result ≡ bytes_eq whole.now (front.now ++ back.now) }
{
    if whole.len() < front.len() {
        return false;
    }
    let (same, rest) = whole.split_at(front.len());
    if same != front {
        return false;
    }
    rest == back
}
