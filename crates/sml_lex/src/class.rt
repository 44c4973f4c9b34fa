ghost use Rattle.std.specs.Prelude.{◌≡◌, ◌==◌, ◌≤◌, true, length};
ghost use Rattle.std.specs.List.{prefix_len};
ghost use Rattle.sml_lex.specs.Bytes.{is_white, is_control, is_digit, is_hex, is_letter, is_name_byte, is_symbol, digit_value, has, first_is, all_are};

/// The bytes of which a run is made.
#[derive(Clone, Copy, Debug)]
pub enum Class {
    White,
    Digit,
    Hex,
    Letter,
    Name,
    Symbol,
}

/// Space, tab, line feed, vertical tab, form feed and carriage return.
pub fn is_white(byte: u8) -> bool
    ensures { result ≡ is_white byte }
{
    byte == b' ' || (9 <= byte && byte <= 13)
}

pub fn is_control(byte: u8) -> bool
    ensures { result ≡ is_control byte }
{
    byte < 32 || byte == 127
}

pub fn is_digit(byte: u8) -> bool
    ensures { result ≡ is_digit byte }
{
    b'0' <= byte && byte <= b'9'
}

pub fn is_hex(byte: u8) -> bool
    ensures { result ≡ is_hex byte }
{
    is_digit(byte) || (b'A' <= byte && byte <= b'F') || (b'a' <= byte && byte <= b'f')
}

pub fn is_letter(byte: u8) -> bool
    ensures { result ≡ is_letter byte }
{
    (b'A' <= byte && byte <= b'Z') || (b'a' <= byte && byte <= b'z')
}

/// A byte with which an identifier that begins with a letter goes on.
pub fn is_name_byte(byte: u8) -> bool
    ensures { result ≡ is_name_byte byte }
{
    is_letter(byte) || is_digit(byte) || byte == b'\'' || byte == b'_'
}

/// One of the twenty symbols (the Definition, section 2.4).
pub fn is_symbol(byte: u8) -> bool
    ensures { result ≡ is_symbol byte }
{
    matches!(
        byte,
        b'!' | b'%'
            | b'&'
            | b'$'
            | b'#'
            | b'+'
            | b'-'
            | b'/'
            | b':'
            | b'<'
            | b'='
            | b'>'
            | b'?'
            | b'@'
            | b'\\'
            | b'~'
            | b'`'
            | b'^'
            | b'|'
            | b'*'
    )
}

/// The value of a hexadecimal digit.
pub fn digit_value(byte: u8) -> u8
    requires { is_hex byte ≡ true }
    ensures value { result ≡ digit_value byte }
    ensures small { result ≤ 15 }
{
    if byte <= b'9' {
        byte - b'0'
    } else if b'a' <= byte {
        byte - b'a' + 10
    } else {
        byte - b'A' + 10
    }
}

impl Class {
    /// Whether the byte is of this class.
    pub fn has(self, byte: u8) -> bool
        ensures { result ≡ has self byte }
    {
        match self {
            Class::White => is_white(byte),
            Class::Digit => is_digit(byte),
            Class::Hex => is_hex(byte),
            Class::Letter => is_letter(byte),
            Class::Name => is_name_byte(byte),
            Class::Symbol => is_symbol(byte),
        }
    }

    /// How many bytes of this class stand at the front.
    pub fn run(self, bytes: &[u8]) -> usize
        ensures value { result ≡ prefix_len (has self) bytes.now }
        ensures within { result ≤ length bytes.now }
    {
        for (i, byte) in bytes.iter().enumerate() {
            if !self.has(*byte) {
                return i;
            }
        }
        bytes.len()
    }

    /// Whether all bytes are of this class.
    pub fn has_all(self, bytes: &[u8]) -> bool
        ensures { result ≡ all_are (has self) bytes.now }
    {
        for byte in bytes {
            if !self.has(*byte) {
                return false;
            }
        }
        true
    }

    /// Whether the first byte is of this class.
    pub fn begins(self, bytes: &[u8]) -> bool
        ensures { result ≡ first_is (has self) bytes.now }
    {
        match bytes.first() {
            Some(byte) => self.has(*byte),
            None => false,
        }
    }
}

/// Whether the first byte is this one.
pub fn begins_with(byte: u8, bytes: &[u8]) -> bool
    ensures { result ≡ first_is (λ c. c == byte) bytes.now }
{
    match bytes.first() {
        Some(first) => *first == byte,
        None => false,
    }
}
