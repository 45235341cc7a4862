// The one function by which the check reads a word, and what keeps count of the words that it reads: a number, or nothing.
ghost use Rattle.std.specs.Prelude.{◌≡◌, ℕ, ◌<◌, length, get_or};
ghost use Rattle.table.specs.Reading.{Adds};

// What keeps count.
pub trait Counter {
    // Does it show that so many words were read.
    ghost shows: { Self → ℕ → Type 0 };

    // A word more is read.
    fn count(&mut self)
        ensures { Adds shows self.old self.new 1 };
}

// No count is kept.
#[derive(Clone, Copy)]
pub struct Uncounted;

impl Counter for Uncounted {
    ghost shows = { λ s n. Unit {0} };

    fn count(&mut self) {}
}

impl Counter for usize {
    ghost shows = { λ s n. s ≡ n };

    fn count(&mut self) {
        *self = self.wrapping_add(1);
    }
}

// The word at index i. Table and count are two parameters, and not a struct: the table is lent as `&`, so no contract has to say that it stays.
pub fn read<C: Counter>(t: &[u16], i: usize, reads: &mut C) -> u16
    requires { i < length t.now }
    ensures { (result ≡ get_or t.now i 0) × Adds C.shows reads.old reads.new 1 }
{
    reads.count();
    t[i]
}
