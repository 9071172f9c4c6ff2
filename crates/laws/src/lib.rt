// The laws that tie bytes, records and trees of `model` to each other, in proofs/. There is no code.
#![tactic(auto)]
