ghost use Rattle.std.specs.Prelude.{◌≡◌, ◌<◌, ◌^◌};
ghost use Rattle.env_scope.specs.Numbers.{number_of as the_number};

// A number for the name. Names that differ mostly have different ones.
pub fn number_of(name: &[u8]) -> u32
    ensures { result ≡ the_number name.now }
{
    let mut number = 0u32;
    for byte in name {
        number = ((u64::from(number) * 131 + u64::from(*byte) + 1) % 4_294_967_291) as u32;
    }
    number
}
