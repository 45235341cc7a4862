// The piece of a float path that one step gives, its places and its form.
#![tactic(auto)]

pub mod exact;
pub mod piece;
pub mod place;
