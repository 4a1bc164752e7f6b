// Are a device's flags and values within their widths?
ghost use Rattle.std.specs.Prelude.{◌≡◌, ◌&&◌, ◌*◌, ◌≤◌, drop};
ghost use Rattle.tables.specs.Lists.{or_all};
ghost use Rattle.widths.specs.Widths.{flags_fit, values_fit, unused_zero};

use registers::Registers;

// Each flag and each value is within its width.
pub fn registers_fit(registers: Registers) -> bool
    ensures { result ≡ (flags_fit registers && values_fit registers) }
{
    flags_fit(registers) && values_fit(registers)
}

// A fault flag is 0 or 1.
fn flags_fit(registers: Registers) -> bool
    ensures { result ≡ flags_fit registers }
{
    registers.overtemperature < 2 && registers.openled < 2
}

// Each value is within the part's width. The limit is a power of two, so that one test of the bits of all values is enough.
fn values_fit(registers: Registers) -> bool
    ensures { result ≡ values_fit registers }
{
    bits_from(registers, 0) < parts::value_limit(registers.part) && is_unused_zero(registers)
}

// What the part does not use is 0.
fn is_unused_zero(registers: Registers) -> bool
    ensures { result ≡ unused_zero registers }
{
    let banks = parts::constants_of(registers.part).banks as usize;
    let calibration = registers.calibration;
    bits_from(registers, 8 * banks) < 1 && tables::bytes_below(&calibration[banks..], 1)
}

// The bits of all values past the first ones, and of those of the slice that is coming in past twice as many.
fn bits_from(registers: Registers, first: usize) -> u16
    requires { first ≤ 24 }
    ensures { result
        ≡ or_all (drop (2 * first) registers.slice)
        (or_all (drop first registers.active1)
        (or_all (drop first registers.active0) (or_all (drop first registers.waiting1) (or_all (drop first registers.waiting0) 0)))) }
{
    // Copies of their own: with each list read where it stands in the record, a judgement takes a quarter longer.
    let waiting0 = registers.waiting0;
    let waiting1 = registers.waiting1;
    let active0 = registers.active0;
    let active1 = registers.active1;
    let slice = registers.slice;
    let bits = tables::or_all(&waiting0[first..], 0);
    let bits = tables::or_all(&waiting1[first..], bits);
    let bits = tables::or_all(&active0[first..], bits);
    let bits = tables::or_all(&active1[first..], bits);
    tables::or_all(&slice[2 * first..], bits)
}
