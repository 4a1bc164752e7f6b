// What a frame holds.
#[derive(Clone, Copy)]
pub enum Read {
    // the byte of a global or of a configuration frame
    Byte(u8),
    // so many calibration bytes stand in the lent list
    Bytes(usize),
    // so many individual values stand in the lent list
    Values(usize),
}
