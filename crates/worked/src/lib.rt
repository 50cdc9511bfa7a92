// The worked examples of the scope paper as one proved statement about the definitions. There is no code
// here: specs/Rows.antt reads like the list in the paper, proofs/All.antt proves it.
#![tactic(auto)]
