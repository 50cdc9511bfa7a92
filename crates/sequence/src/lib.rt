// Demand 3: one claim about any list of calls to the devices, over the definitions that each call's
// promise equals. The statement is specs/Sequence.antt, its proof proofs/Demand3.antt. There is no
// code here.
#![tactic(auto)]
