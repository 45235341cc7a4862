// How two corners meet and how the two sides of an edge lie, with the face count: by one trace of the faces.
ghost use Rattle.std.specs.Prelude.{◌≡◌, ◌/◌, ◌%◌, ◌<◌, eqb, length};
ghost use Rattle.table.specs.Layout.{darts, lone_at};
ghost use Rattle.table.specs.Rotation.{rotation};
ghost use Rattle.tracing.specs.Listing.{face_count};
ghost use Rattle.tracing.specs.Corner.{meeting_by, meeting_of};
ghost use Rattle.tracing.specs.Sides.{sides_of};
ghost use Rattle.tracing.specs.declared.meeting.Meeting.TheVariants.{SameType};
ghost use Rattle.tracing.proofs.laws.Sides.{sides_met};
ghost use Rattle.tracing_meets.specs.laws.Read.{Corners, LiveEdge, TagRead};

use table::layout::{DARTS, EDGE, LONE, NOTHING};
use tracing::meeting::{Meeting, Sides};
use tracing_tags::tags::tag_faces;
use tracing_walks::step::corner;

// The face count, and how two corners meet.
#[derive(Clone, Copy)]
pub struct Met {
    pub faces: u32,
    pub meeting: Meeting,
}

// The face count, and how the two sides of an edge lie.
#[derive(Clone, Copy)]
pub struct Sided {
    pub faces: u32,
    pub sides: Sides,
}

// The tag of corner c: an isolated vertex is on its own face, with type 0.
fn tag_of(tags: &[u16], c: u16) -> u32
    requires { (length tags.now ≡ darts) × (c < lone_at → c < darts) }
    ensures { TagRead tags.now c result }
{
    if LONE <= c {
        return 2 * (c as u32);
    }
    tags[c as usize] as u32
}

// How two corners meet, by their tags.
fn meeting_by(x: u32, y: u32) -> Meeting
    ensures { result ≡ meeting_by (eqb (x / 2) (y / 2)) (eqb (x % 2) (y % 2)) }
{
    if x == y {
        return Meeting::SameType;
    }
    if x / 2 == y / 2 {
        return Meeting::OtherType;
    }
    Meeting::Apart
}

// Are the corners a and b on one face, and do their types agree.
pub fn meet(t: &[u16], a: u16, b: u16) -> Met
    requires { Corners t.now a b }
    ensures { (result.faces ≡ face_count (rotation t.now)) × (result.meeting ≡ meeting_of (rotation t.now) a b) }
{
    let mut tags = [NOTHING; DARTS];
    let faces = tag_faces(t, &mut tags);
    let x = tag_of(&tags, a);
    let y = tag_of(&tags, b);
    Met {
        faces,
        meeting: meeting_by(x, y),
    }
}

// Within one face: the walk passes by both darts if the sides' types agree.
fn within_a_face(odd: u16) -> Sides
    ensures { result ≡ sides_met SameType odd }
{
    if odd == 0 {
        return Sides::BothDarts;
    }
    Sides::SameDart
}

// How the sides of an edge lie: by how the corners of their steps meet, the second step being of type odd.
fn sides_by(meeting: Meeting, odd: u16) -> Sides
    requires { odd < 2 }
    ensures { result ≡ sides_met meeting odd }
{
    match meeting {
        Meeting::Apart => Sides::TwoFaces,
        Meeting::SameType => within_a_face(odd),
        Meeting::OtherType => within_a_face(1 - odd),
    }
}

// How the two sides of the live edge e lie: the steps (2e, 0) and (2e+1, the parity of its turns).
pub fn sides_of(t: &[u16], e: usize) -> Sided
    requires { LiveEdge t.now e }
    ensures { (result.faces ≡ face_count (rotation t.now)) × (result.sides ≡ sides_of (rotation t.now) e) }
{
    let mut tags = [NOTHING; DARTS];
    let faces = tag_faces(t, &mut tags);
    let odd = t[EDGE + e] % 2;
    let c = corner(t, 4 * (e as u16) + 2 + odd);
    let x = tag_of(&tags, 2 * (e as u16));
    let y = tag_of(&tags, c as u16);
    Sided {
        faces,
        sides: sides_by(meeting_by(x, y), odd),
    }
}
