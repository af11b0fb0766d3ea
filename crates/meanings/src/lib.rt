// No code: what each refusal of a tree text says of the text.
#![tactic(auto)]
