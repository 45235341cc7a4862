// The rule that an insertion falls under: by how its corners meet.
ghost use Rattle.std.specs.Prelude.{◌≡◌, ◌%◌, ◌<◌};
ghost use Rattle.table.specs.Rotation.{rotation};
ghost use Rattle.tracing.specs.Listing.{face_count};
ghost use Rattle.tracing.specs.Corner.{meeting_of};
ghost use Rattle.tracing.specs.declared.meeting.Meeting.TheVariants.{SameType};
ghost use Rattle.surgery.specs.Change.{insertion};
ghost use Rattle.edits.specs.Rules.{rule_for};
ghost use Rattle.tracing_meets.specs.laws.Read.{Corners};

use crate::ruling::Ruling;
use edits::rule::Rule;
use tracing::meeting::Meeting;
use tracing_meets::meeting::meet;

// Within one face: it is split if the types and the turns add to an even number.
fn within_a_face(odd: u16) -> Rule
    ensures { result ≡ rule_for (insertion SameType odd) }
{
    if odd == 0 {
        return Rule::B1;
    }
    Rule::B2
}

// The rule of an insertion by how its corners meet, and whether its turns are odd.
fn insertion_rule(meeting: Meeting, odd: u16) -> Rule
    requires { odd < 2 }
    ensures { result ≡ rule_for (insertion meeting odd) }
{
    match meeting {
        Meeting::Apart => Rule::A,
        Meeting::SameType => within_a_face(odd),
        Meeting::OtherType => within_a_face(1 - odd),
    }
}

// An insertion into corners c1 and c2: w is the edge's word, odd exactly if its turns are.
pub fn insert_rule(t: &[u16], c1: u16, c2: u16, w: u16) -> Ruling
    requires { Corners t.now c1 c2 }
    ensures { (result.faces ≡ face_count (rotation t.now)) × (result.rule ≡ rule_for (insertion (meeting_of (rotation t.now) c1 c2) (w % 2))) }
{
    let met = meet(t, c1, c2);
    let meeting = met.meeting;
    Ruling {
        faces: met.faces,
        rule: insertion_rule(meeting, w % 2),
    }
}
