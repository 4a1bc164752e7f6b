#![tactic(auto)]

// Records and the model are one: stepping a record that fits is stepping the model's device. Definitions and laws only. From here the
// claims about a restore are claims about what the calls leave in the lent records and the lent room.
