// The rule that a deletion falls under: by how the edge's sides lie.
ghost use Rattle.std.specs.Prelude.{◌≡◌};
ghost use Rattle.table.specs.Rotation.{rotation};
ghost use Rattle.tracing.specs.Listing.{face_count};
ghost use Rattle.tracing.specs.Sides.{sides_of};
ghost use Rattle.surgery.specs.Change.{deletion};
ghost use Rattle.edits.specs.Rules.{rule_for};
ghost use Rattle.tracing_meets.specs.laws.Read.{LiveEdge};

use crate::ruling::Ruling;
use edits::rule::Rule;
use tracing::meeting::Sides;
use tracing_meets::meeting::sides_of;

// The rule of a deletion by how the sides lie.
fn deletion_rule(sides: Sides) -> Rule
    ensures { result ≡ rule_for (deletion sides) }
{
    match sides {
        Sides::TwoFaces => Rule::A,
        Sides::BothDarts => Rule::B1,
        Sides::SameDart => Rule::B2,
    }
}

// The deletion of the live edge e.
pub fn delete_rule(t: &[u16], e: usize) -> Ruling
    requires { LiveEdge t.now e }
    ensures { (result.faces ≡ face_count (rotation t.now)) × (result.rule ≡ rule_for (deletion (sides_of (rotation t.now) e))) }
{
    let sided = sides_of(t, e);
    let sides = sided.sides;
    Ruling {
        faces: sided.faces,
        rule: deletion_rule(sides),
    }
}
