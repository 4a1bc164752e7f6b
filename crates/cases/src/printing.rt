// The line of a case.
ghost use Rattle.std.specs.Prelude.{◌≡◌, cond, codes};

use std::fmt::Display;
use std::io;

// What it should be and what came out.
pub fn case<N: Display + Drop, T: Display + PartialEq + Drop>(
    rt: &impl Print,
    name: N,
    should: T,
    came: T,
) -> io::Result<()> {
    let same = is_same(&came, &should);
    line(rt, name, should, came, same)
}

// The same, where something else is compared than is printed.
pub fn line<N: Display + Drop, S: Display + Drop, T: Display + Drop>(
    rt: &impl Print,
    name: N,
    should: S,
    came: T,
    same: bool,
) -> io::Result<()> {
    println!(rt;
        "{name}: should be{should}, came out{came}: {}",
        verdict(same)
    )
}

// Whether what came out is what it should be.
pub fn is_same<T: PartialEq>(came: &T, should: &T) -> bool
    ensures { result ≡ T.eq came.now should.now }
{
    came == should
}

// The word at a line's end.
pub fn verdict(same: bool) -> &'static str
    ensures { result.now ≡ cond same (codes "ok") (codes "WRONG") }
{
    if same { "ok" } else { "WRONG" }
}
