// What the outlook's answers mean of the calls that may follow. The claims are in specs/, their proofs in proofs/; there is nothing here to
// run.
#![tactic(auto)]
