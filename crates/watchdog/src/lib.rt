#![tactic(auto)]

// Devices of the model that keep their own clock and watch their lines, as lists. Definitions and laws only, for any part's row: specs/ says
// what a clock does to a device and when its watchdog expires, proofs/ what a chain holds and returns whether or not one expires.
