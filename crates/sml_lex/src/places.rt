ghost use Rattle.std.specs.Prelude.{◌≡◌, ◌+◌, ◌<◌, ◌≤◌, ◌^◌, length};
ghost use Rattle.sml_lex.specs.Places.{moved, next_place};

use tl_text::Place;

fn next_place(place: Place, byte: u8) -> Place
    requires line { place.line + 1 < 2 ^ 32 }
    requires col { place.col + 1 < 2 ^ 32 }
    requires byte { place.byte + 1 < 2 ^ 32 }
    ensures value { result ≡ next_place place byte }
    ensures line { result.line ≤ place.line + 1 }
    ensures col { result.col ≤ place.col + 1 }
    ensures byte { result.byte ≡ place.byte + 1 }
{
    if byte == b'\n' {
        Place {
            source: place.source,
            line: place.line + 1,
            col: 1,
            byte: place.byte + 1,
        }
    } else {
        Place {
            source: place.source,
            line: place.line,
            col: place.col + 1,
            byte: place.byte + 1,
        }
    }
}

/// The place behind these bytes, which begin at the other place.
pub fn behind(place: Place, bytes: &[u8]) -> Place
    requires line { place.line + length bytes.now < 2 ^ 32 }
    requires col { place.col + length bytes.now < 2 ^ 32 }
    requires byte { place.byte + length bytes.now < 2 ^ 32 }
    ensures value { result ≡ moved place bytes.now }
    ensures line { result.line ≤ place.line + length bytes.now }
    ensures col { result.col ≤ place.col + length bytes.now }
    ensures byte { result.byte ≡ place.byte + length bytes.now }
{
    let mut at = place;
    for byte in bytes {
        at = next_place(at, *byte);
    }
    at
}
