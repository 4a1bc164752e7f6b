// The values of a device's outputs in both phases: lists of 24 places, of which a part uses one for each of its outputs.
use crate::lists::Values;
use std::fmt;

#[derive(Clone, Copy, PartialEq)]
pub struct Phases {
    pub mux0: [u16; 24],
    pub mux1: [u16; 24],
}

impl fmt::Display for Phases {
    fn fmt<W: fmt::Write>(&self, f: &mut fmt::Formatter<W>) -> fmt::Result {
        write!(f, " MUX0{}, MUX1{}", Values(&self.mux0), Values(&self.mux1))
    }
}

// So many values from `first` on, each `step` more than the last, modulo 65,536. The places behind them hold 0.
pub fn spaced(first: u16, step: u16, outputs: usize) -> [u16; 24] {
    let mut list = [0; 24];
    let mut value = first;
    for place in list.iter_mut().take(outputs) {
        *place = value;
        value = value.wrapping_add(step);
    }
    list
}
