// The check of a whole table, without a count of the words that it reads and with one.
ghost use Rattle.std.specs.Prelude.{◌≡◌};
ghost use Rattle.table.specs.Check.{good?, check_of};
ghost use Rattle.table.specs.Reading.{Adds};
ghost use Rattle.check_reads.specs.Reads.{check_reads};

use crate::dart::live_darts;
use crate::length::lengths_fit;
use crate::vertex::all_led_darts;
use table::answer::Refusal;
use table::layout::WORDS;
use table::read::{Counter, Uncounted};

// Is t a good table. Keeps no array, and reads each word a few times at most.
pub fn is_good(t: &[u16]) -> bool
    ensures { result ≡ good? t.now }
{
    is_good_with(t, &mut Uncounted)
}

// The check, as a call: 0 for a good table, and torn for every other slice.
pub fn check(t: &[u16]) -> Result<u32, Refusal>
    ensures { result ≡ check_of t.now }
{
    check_with(t, &mut Uncounted)
}

// Is t a good table, each word that is read counted.
fn is_good_with<C: Counter>(t: &[u16], reads: &mut C) -> bool
    ensures { (result ≡ good? t.now) × Adds C.shows reads.old reads.new (check_reads t.now) }
{
    match t.as_array() {
        Some(t) => keeps_rules(t, reads),
        None => false,
    }
}

// Does a table of the right size keep all rules, each word that is read counted.
fn keeps_rules<C: Counter>(t: &[u16; WORDS], reads: &mut C) -> bool
    ensures { (result ≡ good? t.now) × Adds C.shows reads.old reads.new (check_reads t.now) }
{
    if !lengths_fit(t, reads) {
        return false;
    }
    let Some(live) = live_darts(t, reads) else {
        return false;
    };
    let Some(led) = all_led_darts(t, reads) else {
        return false;
    };
    if led != live {
        return false;
    }
    true
}

// The check, as a call, each word that is read counted.
pub fn check_with<C: Counter>(t: &[u16], reads: &mut C) -> Result<u32, Refusal>
    ensures { (result ≡ check_of t.now) × Adds C.shows reads.old reads.new (check_reads t.now) }
{
    if is_good_with(t, reads) {
        return Ok(0);
    }
    Err(Refusal::Torn)
}
