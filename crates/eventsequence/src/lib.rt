// New events, polls and scans in any order on one table: one claim about any list of calls, over the
// definitions that each call's promise equals. The statement is specs/Sequence.antt, its proof
// proofs/Kept.antt; specs/Fresh.antt says where a site begins. There is no code here.
#![tactic(auto)]
