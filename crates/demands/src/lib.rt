// The firm's demands as theorems: this crate has no code. specs/ has what the theorems speak of, proofs/ the theorems.
#![tactic(auto)]
