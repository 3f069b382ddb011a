//! Bytes that are a text.

ghost use Rattle.std.specs.Prelude.{◌≡◌, option_map};
ghost use Rattle.ksv_desc.specs.Description.{as_text};

/// The text that these bytes are, where they are UTF-8.
#[tactic(auto, unfolding(crate::specs::Description::as_text))]
pub fn as_text(bytes: &[u8]) -> Option<&str>
    ensures { option_map (λ text. text.now) result ≡ as_text bytes.now }
{
    match str::from_utf8(bytes) {
        Ok(text) => Some(text),
        Err(_) => None,
    }
}
