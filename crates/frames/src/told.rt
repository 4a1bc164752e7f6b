// What a frame is told by. Any numbers may stand in what is told: they are judged.
use parts::Command;

// What a writer and a reader are told of a frame, beside its tail.
#[derive(Clone, Copy)]
pub struct Told {
    pub part: u16,
    pub devices: usize,
    pub command: Command,
    // not looked at for a configuration frame
    pub configuration: u8,
}

// The bits behind the slices: the low `length` bits of `number`.
#[derive(Clone, Copy)]
pub struct Tail {
    pub number: u64,
    pub length: u32,
}
