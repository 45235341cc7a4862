// The rule that a turn falls under: E by an even amount, else by how the edge's sides lie.
ghost use Rattle.std.specs.Prelude.{◌≡◌, ◌+◌, ◌%◌};
ghost use Rattle.table.specs.Layout.{edge_word};
ghost use Rattle.table.specs.Rotation.{rotation};
ghost use Rattle.tracing.specs.Listing.{face_count};
ghost use Rattle.tracing.specs.Sides.{sides_of};
ghost use Rattle.surgery.specs.Change.{turning};
ghost use Rattle.edits.specs.Rules.{rule_for, turn_rule};
ghost use Rattle.tracing_meets.specs.laws.Read.{LiveEdge};

use crate::ruling::Ruling;
use edits::rule::Rule;
use table::layout::EDGE;
use tracing::meeting::Sides;
use tracing_meets::meeting::sides_of;
use tracing_walks::count::face_count;

// The rule of an odd turn by how the sides lie.
fn turning_rule(sides: Sides) -> Rule
    ensures { result ≡ rule_for (turning sides) }
{
    match sides {
        Sides::TwoFaces => Rule::A,
        Sides::BothDarts => Rule::B2,
        Sides::SameDart => Rule::B1,
    }
}

// A turn of the live edge e, whose word becomes w: an even amount leaves the word's parity, and the faces.
pub fn turn_rule(t: &[u16], e: usize, w: u16) -> Ruling
    requires { LiveEdge t.now e }
    ensures { (result.faces ≡ face_count (rotation t.now))
        × (result.rule ≡ turn_rule ((edge_word t.now e + w) % 2) (turning (sides_of (rotation t.now) e))) }
{
    if t[EDGE + e] % 2 == w % 2 {
        return Ruling {
            faces: face_count(t),
            rule: Rule::E,
        };
    }
    let sided = sides_of(t, e);
    let sides = sided.sides;
    Ruling {
        faces: sided.faces,
        rule: turning_rule(sides),
    }
}
