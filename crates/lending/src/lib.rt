// How a function meets its contract that is lent records and buffers by C: proofs, and no code.
#![tactic(auto)]
