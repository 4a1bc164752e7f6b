// What a comparison answers.

// The number of the first device that differs (0 where none does), the place in that device's slice, the group (1 configuration,
// 2 calibration, 3 active global, 4 active individual), and the refusal's number, or 0. A struct of numbers, for C.
#[repr(C)]
#[derive(Clone, Copy)]
pub struct Compared {
    pub device: usize,
    pub place: u16,
    pub group: u8,
    pub refusal: u8,
}
