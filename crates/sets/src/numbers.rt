// The set, but for its lists.
#[derive(Clone, Copy)]
pub struct SetNumbers {
    pub part: u16,
    pub devices: usize,
    pub configuration: u8,
    pub global: u8,
}

// The set: its numbers, calibration bytes and individual values, of any length. C gives them one by one.
#[derive(Clone, Copy)]
pub struct GivenSet<'a> {
    pub numbers: SetNumbers,
    pub calibration: &'a [u8],
    pub individual: &'a [u16],
}
