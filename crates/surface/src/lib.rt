// Connected parts of a mesh, their Euler numbers, orientability. No code: the crates `surface_..` have it.

#![tactic(auto)]
