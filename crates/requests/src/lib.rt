// What the requests of document 02 claim of the plain book: old months in tenths of a percent (W6), larger charges (W8), days filled in
// another order (W9), messages as the calls that they mean (W11); and that our own call, outlook, changes nothing. For the desk, too: a
// quantum's cell is the one that it leaves in a month of its own. The claims are in specs/, their proofs in proofs/; there is nothing here to
// run.
#![tactic(auto)]
