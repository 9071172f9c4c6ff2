// The demands on the definitions of `model`, in specs/, and their proofs. There is no code.
#![tactic(auto)]
