// Turns as edge words.
ghost use Rattle.std.specs.Prelude.{◌≡◌};
ghost use Rattle.edits.specs.Turns.{turned_word};

use table::layout::{MOST_TURNS, UNTURNED};

// The word of no turns, and the turns that there can be, with a sign.
const NONE: i32 = UNTURNED as i32;

const MOST: i32 = MOST_TURNS as i32;

const LEAST: i32 = -MOST;

// The word of an edge of word w once it is turned by an amount, or 0 if its turns would pass 99 either way: 0 and not None, as the definition that the
// contract names has it.
pub fn turned_word(w: u16, amount: i16) -> u16
    ensures { result ≡ turned_word w amount }
{
    let turns = (w as i32) - NONE + (amount as i32);
    if turns < LEAST {
        return 0;
    }
    if MOST < turns {
        return 0;
    }
    (turns + NONE) as u16
}
