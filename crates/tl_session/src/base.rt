ghost use Rattle.std.specs.Prelude.{◌≡◌, IfOk};
ghost use Rattle.tl_session.specs.Written.{base_of, plain_byte};

use std::alloc::Global;
use tl_text::NoMemory;

/// The base of a source's name.
pub fn base_bytes(alloc: Global, name: &[u8]) -> Result<Vec<u8>, NoMemory>
    ensures { IfOk result (λ base. base.items ≡ base_of name.now) }
{
    let mut base = Vec::new(alloc);
    let mut is_cut = false;
    for byte in name {
        if *byte == b'/' {
            base.clear();
            is_cut = false;
        } else if *byte == b'.' {
            is_cut = true;
        } else if !is_cut {
            base.push(letter_or_underscore(*byte))?;
        }
    }
    Ok(base)
}

/// A letter or digit as it is, and any other byte as `_`.
fn letter_or_underscore(byte: u8) -> u8
    ensures { result ≡ plain_byte byte }
{
    if byte.is_ascii_alphanumeric() {
        byte
    } else {
        b'_'
    }
}
