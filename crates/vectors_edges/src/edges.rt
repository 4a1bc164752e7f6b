// A frame on the wire, and the name of its edge.

// The states of a frame of 13 bytes at most, and zeros behind them. A frame that is refused has only zeros.
pub fn states_of(frame: &[u8], edge: u8) -> [u8; 104] {
    let mut states = [0; 104];
    let _ = serial::frame_states(frame, bits_of(frame), edge, &mut states);
    states
}

pub fn bits_of(frame: &[u8]) -> usize {
    frame.len().min(13) * 8
}

pub fn edge_name(edge: u8) -> &'static str {
    match edge {
        serial::EARLY => "early",
        serial::EXACT => "exact",
        _ => "late",
    }
}
