// Bytes and values, as a line has them.
ghost use Rattle.std.specs.Prelude.{◌≡◌, take};

use std::fmt;

// A blank and two hexadecimal digits for each byte.
#[derive(Clone, Copy, PartialEq)]
pub struct Bytes<'a>(pub &'a [u8]);

impl fmt::Display for Bytes<'_> {
    fn fmt<W: fmt::Write>(&self, f: &mut fmt::Formatter<W>) -> fmt::Result {
        for byte in self.0 {
            write!(f, " {byte:02X}")?;
        }
        Ok(())
    }
}

// A blank and the number, for each value.
#[derive(Clone, Copy, PartialEq)]
pub struct Values<'a>(pub &'a [u16]);

impl fmt::Display for Values<'_> {
    fn fmt<W: fmt::Write>(&self, f: &mut fmt::Formatter<W>) -> fmt::Result {
        for value in self.0 {
            write!(f, " {value}")?;
        }
        Ok(())
    }
}

// The first of a list's elements, so many or all.
pub fn front<T>(list: &[T], count: usize) -> &[T]
    ensures { result.now ≡ take count list.now }
{
    &list[..count.min(list.len())]
}
