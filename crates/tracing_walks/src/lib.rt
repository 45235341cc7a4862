// Walking a good table: the step, the corners that a walk meets, and the listed walks counted.
#![tactic(auto)]

pub mod corner;
pub mod count;
pub mod step;
pub mod walk;
