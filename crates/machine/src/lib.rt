// Machines in a chain, for any step: definitions and laws only. The chain of records and the chain of the model's devices are both instances.
#![tactic(auto)]
