//! Whether a word is a text, and which texts name a device.
ghost use Rattle.std.specs.Prelude.{◌≡◌, bytes_eq};
ghost use Rattle.std.specs.List.{list_all};
ghost use Rattle.pos_service.specs.Names.{is_device_name, is_device_name_byte};

/// Returns whether a word is this text. It is inlined, and the text's bytes are known there, so each costs one compare.
#[inline(always)]
pub fn is(word: &[u8], text: &str) -> bool
    ensures { result ≡ bytes_eq word.now text.now }
{
    let text = text.as_bytes();
    if word.len() != text.len() {
        return false;
    }
    for place in 0..text.len() {
        if word[place] != text[place] {
            return false;
        }
    }
    true
}

/// The most bytes of a device's name.
const MOST_BYTES: usize = 16;

/// Whether each byte is an ASCII letter, a digit or a hyphen.
fn are_name_bytes(bytes: &[u8]) -> bool
    ensures { result ≡ list_all is_device_name_byte bytes.now }
{
    bytes
        .iter()
        .all(|byte| byte.is_ascii_alphanumeric() || *byte == b'-')
}

/// Returns whether a text names a device: 1 to 16 ASCII letters, digits or hyphens.
pub fn is_device_name(text: &[u8]) -> bool
    ensures { result ≡ is_device_name text.now }
{
    1 <= text.len() && text.len() <= MOST_BYTES && are_name_bytes(text)
}
