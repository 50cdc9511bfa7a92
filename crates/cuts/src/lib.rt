// Bytes as they arrive: however a recording is cut into runs, listening to them and closing gives what
// judging it at once gives; and so in any order of feeding and closing.
//
// The crate holds the statements and their proofs; the calls are in `listening`, `feeding`, `closing`
// and `exchange`.
#![tactic(auto)]
