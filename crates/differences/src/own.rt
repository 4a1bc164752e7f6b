// One device against its own part of a set. Of what it holds, the bytes of its part's banks and the values of its outputs are looked at.
ghost use Rattle.std.specs.Prelude.{◌≡◌, ◌<◌, ◌≤◌, ◌%◌, eqb, length, slice_index};
ghost use Rattle.registers.specs.Held.{bank_bytes};
ghost use Rattle.model.specs.Set.{own_of};
ghost use Rattle.differences.specs.Groups.{differs_at, differs_by, in_turns, active_values, groups, compared, same, in_groups};

use crate::compared::Compared;
use device::Device;

// The first group and place at which the device of a number differs from what is its own, or all 0: configuration, calibration bytes,
// global byte and individual values. They are given one by one, since docs/TRACE.md names this function and its contract stays; the record is
// lent, so that it is not moved. The answer is C's struct and no Option, since the theorems of the comparison speak of in_groups.
pub fn device_differs(
    device: &Device,
    number: usize,
    configuration: u8,
    calibration: &[u8],
    global: u8,
    individual: &[u16],
) -> Compared
    ensures { result ≡ in_groups number 1 (groups (own_of configuration calibration.now global individual.now) device.now) same }
{
    if configuration != device.registers.configuration {
        return differs(number, 1, 0);
    }
    let byte = bank_difference(calibration, device);
    if byte < calibration.len() {
        return differs(number, 2, byte);
    }
    if global != device.registers.active {
        return differs(number, 3, 0);
    }
    let value = active_difference(individual, configuration, device);
    if value < individual.len() {
        return differs(number, 4, value);
    }
    differs(0, 0, 0)
}

fn differs(device: usize, group: u8, place: usize) -> Compared
    requires { place ≤ 48 }
    ensures { result ≡ compared 0 device group place }
{
    Compared {
        device,
        place: place as u16,
        group,
        refusal: 0,
    }
}

// The first place at which bytes differ from those of a device's banks, or where the first of the two lists ends.
fn bank_difference(calibration: &[u8], device: &Device) -> usize
    ensures { (result ≡ differs_at calibration.now (bank_bytes device.now.registers)) × (result ≤ 48) }
{
    let banks = parts::constants_of(device.registers.part).banks as usize;
    first_difference(calibration, &device.registers.calibration[..banks])
}

// The first place at which values differ from a device's active ones, or where the first of the two lists ends.
fn active_difference(values: &[u16], configuration: u8, device: &Device) -> usize
    ensures { (result ≡ differs_at values.now (active_values configuration device.now)) × (result ≤ 48) }
{
    let outputs = parts::outputs_of(device.registers.part);
    if configuration % 2 == 0 {
        return first_difference(values, &device.registers.active0[..outputs]);
    }
    let in_use = values.len().min(2 * outputs);
    turns_difference(
        &values[..in_use],
        &device.registers.active0,
        &device.registers.active1,
    )
}

// The first place at which two lists differ, or where the first of them ends: a place and no Option, as the definition `differs_at` has it.
fn first_difference<T: PartialEq>(given: &[T], held: &[T]) -> usize
    ensures value { result ≡ differs_by T.eq given.now held.now }
    ensures within { result ≤ length held.now }
{
    let differing = given.iter().zip(held).position(|(x, y)| x != y);
    differing.unwrap_or(given.len().min(held.len()))
}

// The same of values and those of a multiplexed device: each output's MUX0 value and then its MUX1 value. Where they are the values of whole
// banks and all are the same, a quick pass says so.
fn turns_difference(values: &[u16], mux0: &[u16; 24], mux1: &[u16; 24]) -> usize
    requires { length values.now ≤ 48 }
    ensures { (result ≡ differs_at values.now (in_turns mux0.now mux1.now)) × (result ≤ 48) }
{
    if values.len() % 16 == 0 && turns_same(values, mux0, mux1) {
        return values.len();
    }
    for (place, value) in values.iter().enumerate() {
        if *value != held_at(mux0, mux1, place) {
            return place;
        }
    }
    values.len()
}

// What a multiplexed device holds at a place.
fn held_at(mux0: &[u16; 24], mux1: &[u16; 24], place: usize) -> u16
    requires { place < 48 }
    ensures { result ≡ slice_index (in_turns mux0.now mux1.now) place }
{
    let output = place / 2;
    if place % 2 == 0 {
        mux0[output]
    } else {
        mux1[output]
    }
}

// The values of whole banks are all the same.
fn turns_same(values: &[u16], mux0: &[u16; 24], mux1: &[u16; 24]) -> bool
    requires { (length values.now ≤ 48) × (length values.now % 16 ≡ 0) }
    ensures { result ≡ eqb (differs_at values.now (in_turns mux0.now mux1.now)) (length values.now) }
{
    // By number: sixteen of the values go to eight of either other list.
    for bank in 0..values.len() / 16 {
        let from = 8 * bank;
        let to = from + 8;
        if !bank_same(
            &values[from + from..to + to],
            &mux0[from..to],
            &mux1[from..to],
        ) {
            return false;
        }
    }
    true
}

// The values of one bank, eight outputs, are all the same. No early end, so that the loop is vectorised.
fn bank_same(values: &[u16], mux0: &[u16], mux1: &[u16]) -> bool
    requires { (length values.now ≡ 16) × (length mux0.now ≡ 8) × (length mux1.now ≡ 8) }
    ensures { result ≡ eqb (differs_at values.now (in_turns mux0.now mux1.now)) 16 }
{
    let mut same = true;
    // By number: two of the values go to one of either other list.
    for output in 0..8 {
        let even = output + output;
        let odd = even + 1;
        if values[even] != mux0[output] {
            same = false;
        }
        if values[odd] != mux1[output] {
            same = false;
        }
    }
    same
}
