// What is claimed of every history of the monitor's calls: definitions and proofs, and no code.
#![tactic(auto)]
