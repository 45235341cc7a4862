// The samples of document 01 that are marked P: the list and the theorem about it stand in specs/.

#![tactic(auto)]
