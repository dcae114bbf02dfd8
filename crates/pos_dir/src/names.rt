//! Which names files may have.
ghost use Rattle.std.specs.Prelude.{◌≡◌};
ghost use Rattle.std.specs.List.{list_all};
ghost use Rattle.pos_dir.specs.Files.{is_name, is_name_byte};

/// The most bytes of a name.
const NAME_LIMIT: usize = 10;

/// Returns whether a file may have the name: 1 to 10 bytes of 0x20 to 0x7F (UnifiedPOS 1.16, Hard Totals).
pub fn is_name(name: &[u8]) -> bool
    ensures { result ≡ is_name name.now }
{
    if name.is_empty() {
        return false;
    }
    if name.len() > NAME_LIMIT {
        return false;
    }
    are_name_bytes(name)
}

/// Whether a name may have each of the bytes.
fn are_name_bytes(bytes: &[u8]) -> bool
    ensures { result ≡ list_all is_name_byte bytes.now }
{
    bytes.iter().all(|byte| is_name_byte(*byte))
}

/// Whether a name may have a byte.
fn is_name_byte(byte: u8) -> bool
    ensures { result ≡ is_name_byte byte }
{
    byte >= 0x20 && byte <= 0x7f
}
