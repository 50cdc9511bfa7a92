// What reading and writing amount to, said once more without either: the rule book of what may stand on
// the eBUS wire, and demand 2 as one claim over it and the frames. The statements are in specs/, the
// theorems in proofs/, and so are those of a longer run, which no function needs. There is no code here.
#![tactic(auto)]
