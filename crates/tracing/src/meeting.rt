// How two corners meet, and how the two sides of an edge lie.

// Two corners: on different faces, on one face with equal types, or with different types.
#[derive(Clone, Copy)]
pub enum Meeting {
    Apart,
    SameType,
    OtherType,
}

// The two sides of an edge: on different faces, on one walk that passes by both darts, or by the same dart twice.
#[derive(Clone, Copy)]
pub enum Sides {
    TwoFaces,
    BothDarts,
    SameDart,
}
