// The demands, as theorems over what the public functions answer. The statements stand in specs/, their proofs in
// proofs/: no code.
#![tactic(auto)]
