// The check of a whole table, with its reads counted.
ghost use Rattle.std.specs.Prelude.{◌≡◌, ◌≤◌};
ghost use Rattle.table.specs.Check.{check_of};
ghost use Rattle.check_reads.specs.Reads.{check_reads};

use check_table::whole::check_with;
use table::answer::Refusal;

// What the check answers, and how many words it read.
#[derive(Clone, Copy)]
pub struct Checked {
    pub answer: Result<u32, Refusal>,
    pub reads: usize,
}

// The check, with its reads counted: on any slice, of any length and content, they are at most 100,000.
pub fn counted_check(t: &[u16]) -> Checked
    ensures { (result.answer ≡ check_of t.now) × (result.reads ≡ check_reads t.now) × (result.reads ≤ 100000) }
{
    let mut reads: usize = 0;
    let answer = check_with(t, &mut reads);
    Checked { answer, reads }
}
