// The calls on alternation: each names its refusal in document 01's order.
ghost use Rattle.std.specs.Prelude.{◌≡◌};
ghost use Rattle.weave.specs.Calls.{alternates_of, plain_of};

use crate::hands::is_alternating;
use crate::plain::is_plain;
use check_table::whole::is_good;
use table::answer::Refusal;
use weave_letters::named::named_step;

// 1 if the ribbon through the step alternates, and 0 if not.
pub fn alternates(t: &[u16], dart: u16, kind: u16) -> Result<u32, Refusal>
    ensures { result ≡ alternates_of t.now dart kind }
{
    let s = named_step(t, dart, kind)?;
    Ok(is_alternating(t, s) as u32)
}

// 1 if the weave is plain, and 0 if not.
pub fn plain(t: &[u16]) -> Result<u32, Refusal>
    ensures { result ≡ plain_of t.now }
{
    if !is_good(t) {
        return Err(Refusal::Torn);
    }
    Ok(is_plain(t) as u32)
}
