// What the walk of a ribbon shows before its path is written.
ghost use Rattle.std.specs.Prelude.{◌<◌, ◌≡◌, ◌||◌};
ghost use Rattle.table.specs.Rotation.{rotation};
ghost use Rattle.tracing_walks.specs.laws.Stands.{Stands};
ghost use Rattle.tracing.specs.Walk.{walk};
ghost use Rattle.floatpath_pieces.specs.Path.{many_turns};
ghost use Rattle.floatpath_pieces.specs.laws.Places.{Lent};
ghost use Rattle.floatpath.specs.laws.Survey.{survey_of, survey_with};
ghost use Rattle.tracing.specs.Step.{steps};

use crate::range::is_far_step;
use tracing_walks::walk::walk;
use weave_letters::letter::{crossings, edge_word};

// The number of steps; has an edge more than one turn; is a point or a lift out of range.
#[derive(Clone, Copy)]
pub struct Survey {
    pub steps: usize,
    pub many: bool,
    pub far: bool,
}

// Does one of the two hold.
fn either(a: bool, b: bool) -> bool
    ensures { result ≡ (a || b) }
{
    if a {
        return true;
    }
    b
}

// With one step more.
fn with_step(v: Survey, many: bool, far: bool) -> Survey
    requires { v.steps < steps }
    ensures { result ≡ survey_with v many far }
{
    let a = either(v.many, many);
    let b = either(v.far, far);
    Survey {
        steps: v.steps + 1,
        many: a,
        far: b,
    }
}

// Has the edge of step s more than one turn.
fn has_many_turns(t: &[u16], s: u16) -> bool
    requires { Stands t.now s }
    ensures { result ≡ many_turns t.now s }
{
    1 < crossings(edge_word(t, s))
}

// The survey of the walk from step s. All of it is needed: a short slice and many turns come before what is far.
pub fn survey_from(t: &[u16], points: &[i32], lifts: &[i32], s: u16) -> Survey
    requires { Lent t.now points.now lifts.now s }
    ensures { result ≡ survey_of t.now points.now lifts.now (walk (rotation t.now) s) }
{
    let mut seen = Survey {
        steps: 0,
        many: false,
        far: false,
    };
    for at in walk(t, s) {
        let many = has_many_turns(t, at);
        let far = is_far_step(t, points, lifts, at);
        seen = with_step(seen, many, far);
    }
    seen
}
