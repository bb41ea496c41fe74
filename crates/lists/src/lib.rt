// Lists and counts, of general use: choosing by a test, filtering, counting, adding up, and what holds of a whole list, with their laws.
// Nothing of the papers is here, and nothing to run.
#![tactic(auto)]
