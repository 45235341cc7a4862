// The steps of a walk, in its order: from a start up to the one that leads back to it.
ghost use Rattle.std.specs.Prelude.{◌≡◌};
ghost use Rattle.table.specs.Rotation.{rotation};
ghost use Rattle.tracing.specs.Walk.{walk as walk_of};
ghost use Rattle.tracing_walks.specs.laws.Stands.{Stands};
ghost use Rattle.tracing_walks.specs.laws.Onward.{OnWalk, OnWay, to_come};

use crate::step::step;

// What is left of the walk from step `first`: all of it, or the steps after `last`.
#[derive(Drop)]
pub struct Steps<'a> {
    table: &'a [u16],
    first: u16,
    last: Option<u16>,
    ghost begin: { OnWalk table.now first first },
    ghost on_way: { OnWay table.now first last },
}

impl<'a> Iterator for Steps<'a> {
    ghost use Rattle.std.specs.Iterator.{YieldsFirst, item_count};
    ghost use Rattle.tracing_walks.specs.laws.Steps.{steps_left};

    type Item = u16;

    ghost next_gives = { YieldsFirst steps_left };

    ghost remaining = { item_count steps_left };

    fn next(&mut self) -> Option<u16> {
        let at = match self.last {
            None => self.first,
            Some(before) => {
                let at = step(self.table, before);
                if at == self.first {
                    return None;
                }
                at
            }
        };
        self.last = Some(at);
        Some(at)
    }
}

// The walk from step s.
pub fn walk(t: &[u16], s: u16) -> Steps<'_>
    requires { Stands t.now s }
    ensures { to_come result.table.now result.first result.last ≡ walk_of (rotation t.now) s }
{
    Steps {
        table: t,
        first: s,
        last: None,
    }
}
