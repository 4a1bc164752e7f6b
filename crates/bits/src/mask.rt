// The low bits of a number.
ghost use Rattle.std.specs.Prelude.{◌≡◌, ◌%◌, ◌^◌};

// The `width` low bits of `value`.
pub fn low_bits(value: u64, width: u32) -> u64
    ensures { result ≡ value % 2 ^ width }
{
    if 64 <= width {
        return value;
    }
    value & ((1 << width) - 1)
}
