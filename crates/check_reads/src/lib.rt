// How many words of the table one check reads: theory alone.

#![tactic(auto)]
