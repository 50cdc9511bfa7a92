// A whole capture, exchange after exchange: every byte of it belongs to exactly one exchange or to what
// is skipped, whatever the bytes are. The statement is specs/Walk.antt, its proof proofs/Walked.antt.
// There is no code here; the calls are in `captures`, `exchange`, `feeding` and `closing`.
#![tactic(auto)]
