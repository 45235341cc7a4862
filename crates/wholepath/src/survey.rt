// What the walk of a ribbon shows before its whole path is written.
ghost use Rattle.std.specs.Prelude.{◌≤◌, ◌≡◌};
ghost use Rattle.table.specs.Rotation.{rotation};
ghost use Rattle.tracing.specs.Walk.{walk};
ghost use Rattle.floatpath_pieces.specs.laws.Places.{Lent};
ghost use Rattle.wholepath.specs.laws.Survey.{survey_of, survey_with, most_before};

use floatpath::range::is_far_step;
use tracing_walks::walk::walk;
use weave_letters::letter::edge_word;
use wholepath_pieces::piece::spots;

// The number of pieces, Close not counted; is a point or a lift out of range.
#[derive(Clone, Copy)]
pub struct Survey {
    pub pieces: usize,
    pub far: bool,
}

// With one step more, of n pieces.
fn with_step(v: Survey, n: u16, far: bool) -> Survey
    requires { v.pieces ≤ most_before }
    ensures { result ≡ survey_with v n far }
{
    let pieces = v.pieces + n as usize;
    if far {
        return Survey { pieces, far: true };
    }
    Survey { pieces, far: v.far }
}

// The survey of the walk from step s. All of it is needed: a short slice comes before what is far.
pub fn survey_from(t: &[u16], points: &[i32], lifts: &[i32], s: u16) -> Survey
    requires { Lent t.now points.now lifts.now s }
    ensures { result ≡ survey_of t.now points.now lifts.now (walk (rotation t.now) s) }
{
    let mut seen = Survey {
        pieces: 0,
        far: false,
    };
    for at in walk(t, s) {
        let n = spots(edge_word(t, at));
        let far = is_far_step(t, points, lifts, at);
        seen = with_step(seen, n, far);
    }
    seen
}
