// The session that document 01 prints, run by the plain book: the definitions give what the paper prints. There is nothing here to run.
#![tactic(auto)]
