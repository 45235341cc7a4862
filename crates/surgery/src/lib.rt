// Theory only so far: how the number of faces changes when a rotation system is edited. All of it stands in specs/.

#![tactic(auto)]
