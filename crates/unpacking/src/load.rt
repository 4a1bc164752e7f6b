// Bytes loaded as words, the most significant first.
ghost use Rattle.std.specs.Prelude.{◌+◌, ◌≤◌, length};
ghost use Rattle.unpacking.specs.Reading.{Loaded};

// Four bytes, as a number. It is a `u32`, for which one load can be made.
pub fn load_word(src: &[u8], at: usize) -> u32
    requires { at + 4 ≤ length src.now }
    ensures { Loaded src.now at 4 result }
{
    u32::from_be_bytes([src[at], src[at + 1], src[at + 2], src[at + 3]])
}

// Eight bytes, as a number. The compiler makes one load of the two.
pub fn load_long(src: &[u8], at: usize) -> u64
    requires { at + 8 ≤ length src.now }
    ensures { Loaded src.now at 8 result }
{
    ((load_word(src, at) as u64) << 32) | (load_word(src, at + 4) as u64)
}
