//! Fields read from the front of bytes: each with the bytes after it.
ghost use Rattle.std.specs.Prelude.{◌≡◌};
ghost use Rattle.std.specs.Option.{option_map};
ghost use Rattle.std.specs.Int.{w16, w32};
ghost use Rattle.pos_dir.specs.Fields.{byte_at, part_at, number_at, name_at, text_at};

use crate::names::is_name;

/// Reads one byte.
pub(crate) fn read_byte(bytes: &[u8]) -> Option<(u8, &[u8])>
    ensures { option_map (λ x. (x.0, x.1.now)) result ≡ byte_at bytes.now }
{
    match bytes {
        [] => None,
        [byte, rest @ ..] => Some((*byte, rest)),
    }
}

/// Reads so many bytes.
pub(crate) fn read_part(bytes: &[u8], size: usize) -> Option<(&[u8], &[u8])>
    ensures { option_map (λ x. (x.0.now, x.1.now)) result ≡ part_at size bytes.now }
{
    if bytes.len() < size {
        return None;
    }
    Some(bytes.split_at(size))
}

/// Reads a big-endian number of two bytes.
pub(crate) fn read_u16(bytes: &[u8]) -> Option<(u16, &[u8])>
    ensures { option_map (λ x. (x.0, x.1.now)) result ≡ number_at w16 bytes.now }
{
    if bytes.len() < 2 {
        return None;
    }
    let (front, rest) = bytes.split_at(2);
    let number = u16::from_be_bytes([front[0], front[1]]);
    Some((number, rest))
}

/// Reads a big-endian number of four bytes.
pub(crate) fn read_u32(bytes: &[u8]) -> Option<(u32, &[u8])>
    ensures { option_map (λ x. (x.0, x.1.now)) result ≡ number_at w32 bytes.now }
{
    if bytes.len() < 4 {
        return None;
    }
    let (front, rest) = bytes.split_at(4);
    let number = u32::from_be_bytes([front[0], front[1], front[2], front[3]]);
    Some((number, rest))
}

/// Reads a good name after its length.
#[tactic(auto, unfolding(crate::specs::Fields::name_at))]
pub(crate) fn read_name(bytes: &[u8]) -> Option<(&[u8], &[u8])>
    ensures { option_map (λ x. (x.0.now, x.1.now)) result ≡ name_at bytes.now }
{
    let (size, rest) = read_byte(bytes)?;
    let (name, rest) = read_part(rest, size as usize)?;
    if !is_name(name) {
        return None;
    }
    Some((name, rest))
}

/// Reads bytes after their number.
#[tactic(auto, unfolding(crate::specs::Fields::text_at))]
pub(crate) fn read_text(bytes: &[u8]) -> Option<(&[u8], &[u8])>
    ensures { option_map (λ x. (x.0.now, x.1.now)) result ≡ text_at bytes.now }
{
    let (size, rest) = read_u32(bytes)?;
    read_part(rest, size as usize)
}
