// Over and under: the letters of ribbons, which ribbons alternate, and plain weaves. No code: the crates `weave_..` have it.
#![tactic(auto)]
