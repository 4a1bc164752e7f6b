// The lines as they are gathered. What is put stands behind what was put before.
ghost use Rattle.std.specs.Prelude.{◌≡◌, ◌+◌, ◌≤◌, ◌++◌, length};
ghost use Rattle.arrayvec.specs.ArrayVec.{array_vec_len};
ghost use Rattle.report.specs.Lines.{labelled};

use arrayvec::ArrayVec;
use itoa::Buffer;

// Room for the longest report.
pub type Lines = ArrayVec<u8, 640>;

// A text.
pub fn put(lines: &mut Lines, text: &[u8])
    requires { array_vec_len lines.old + length text.now ≤ 640 }
    ensures { lines.new.items ≡ lines.old.items ++ text.now }
{
    lines.try_extend_from_slice(text).unwrap();
}

// A text and a number behind it, in decimal.
pub fn put_labelled(lines: &mut Lines, text: &[u8], number: u64)
    requires { array_vec_len lines.old + length text.now + 20 ≤ 640 }
    ensures text { lines.new.items ≡ lines.old.items ++ labelled text.now number }
    ensures room { array_vec_len lines.new ≤ array_vec_len lines.old + length text.now + 20 }
{
    put(lines, text);
    put(lines, Buffer::new().format(number).as_bytes());
}
