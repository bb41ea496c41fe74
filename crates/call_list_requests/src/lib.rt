// What the requests of document 02 claim of lists of calls that run again, by what `call_list::run` promises: old months with p in tenths of a
// percent (W6), lists with no charge past the old limit (W8), whole quanta in another order (W9). The claims are in specs/, their proofs in
// proofs/; there is nothing here to run.
#![tactic(auto)]
