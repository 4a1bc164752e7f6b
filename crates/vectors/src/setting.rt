// What a frame sets.
use cases::front;
use frame_reader::Read;
use frames::{Tail, Told};
use tables::Refusal;

#[derive(Clone, Copy, PartialEq)]
pub enum Setting<'a> {
    // of a global or a configuration frame
    Byte(u8),
    // of a calibration frame
    Bytes(&'a [u8]),
    // of an individual frame
    Values(&'a [u16]),
}

impl Setting<'_> {
    // The writer's answer.
    pub fn write(self, told: Told, tail: Tail, out: &mut [u8]) -> Result<usize, Refusal> {
        match self {
            Setting::Byte(byte) => frame_writer::write(told, tail, byte, b"", &[0], out),
            Setting::Bytes(bytes) => frame_writer::write(told, tail, 0, bytes, &[0], out),
            Setting::Values(values) => frame_writer::write(told, tail, 0, b"", values, out),
        }
    }

    // The frame is read, and gives what it was written from.
    pub fn is_read_back(self, told: Told, tail: Tail, frame: &[u8]) -> bool {
        let mut bytes = [0; 3];
        let mut values = [0; 24];
        let answer = frame_reader::read(told, tail, frame, &mut bytes, &mut values);
        match self {
            Setting::Byte(byte) => {
                let Ok(Read::Byte(found)) = answer else {
                    return false;
                };
                found == byte
            }
            Setting::Bytes(list) => {
                let Ok(Read::Bytes(n)) = answer else {
                    return false;
                };
                front(&bytes, n) == list
            }
            Setting::Values(list) => {
                let Ok(Read::Values(n)) = answer else {
                    return false;
                };
                front(&values, n) == list
            }
        }
    }
}
