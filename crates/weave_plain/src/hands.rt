// The hands of a ribbon's edges: a ribbon alternates exactly if they do not include both.
ghost use Rattle.std.specs.Prelude.{◌≡◌};
ghost use Rattle.table.specs.Rotation.{rotation};
ghost use Rattle.tracing.specs.Walk.{walk};
ghost use Rattle.tracing_walks.specs.laws.Stands.{Stands};
ghost use Rattle.weave.specs.Letters.{alternates};
ghost use Rattle.weave_plain.specs.laws.Hands.{hands_with, hands_among};

use table::layout::UNTURNED;
use tracing_walks::walk::walk;
use weave_letters::letter::edge_word;

// Is there an edge of positive turns, and is there one of negative turns.
#[derive(Clone, Copy)]
pub struct Hands {
    pub positive: bool,
    pub negative: bool,
}

// These hands, and that of an edge of word w.
fn with_edge(h: Hands, w: u16) -> Hands
    ensures { result ≡ hands_with h w }
{
    if UNTURNED < w {
        return Hands {
            positive: true,
            negative: h.negative,
        };
    }
    if w < UNTURNED {
        return Hands {
            positive: h.positive,
            negative: true,
        };
    }
    h
}

// The hands along the walk from step s.
fn hands_along(t: &[u16], s: u16) -> Hands
    requires { Stands t.now s }
    ensures { result ≡ hands_among t.now (walk (rotation t.now) s) }
{
    let mut seen = Hands {
        positive: false,
        negative: false,
    };
    for at in walk(t, s) {
        let w = edge_word(t, at);
        seen = with_edge(seen, w);
    }
    seen
}

// Does the ribbon through step s alternate.
pub fn is_alternating(t: &[u16], s: u16) -> bool
    requires { Stands t.now s }
    ensures { result ≡ alternates t.now s }
{
    let seen = hands_along(t, s);
    if seen.positive {
        return !seen.negative;
    }
    true
}
