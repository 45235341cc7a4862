// How two corners meet and how the two sides of an edge lie, with the face count: by one trace of the faces.
#![tactic(auto)]

pub mod meeting;
