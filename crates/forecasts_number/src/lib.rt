// A forecast alone: compared with what ask gives now, and as the number that C gets and hands back.
#![tactic(auto)]

pub mod compare;
pub mod number;
