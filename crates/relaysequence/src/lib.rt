// Packets and finishes in any order on one relay device: one claim about any list of calls, over the
// definitions that each call's promise equals. The statement is specs/Sequence.antt, its proof
// proofs/Kept.antt. There is no code here.
#![tactic(auto)]
