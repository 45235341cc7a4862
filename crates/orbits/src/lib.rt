// Theory only: permutations of the numbers below N and their orbits. All of it stands in specs/.

#![tactic(auto)]
