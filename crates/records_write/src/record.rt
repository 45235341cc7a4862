// A job record, document 01, "The job program": a two-byte mark and 16-bit words, high byte first.
ghost use Rattle.std.specs.Prelude.{◌+◌, ◌≤◌, ◌≡◌, ◌++◌, length};
ghost use Rattle.std.proofs.lemmas.List.Edits.{sets};
ghost use Rattle.records.specs.declared.records.Mark.TheVariants.{IL, TW};
ghost use Rattle.records_write.specs.Encoding.{bytes_of, insertion_words, record_by};

use records::records::{MARK_IL, MARK_TW};

// Stores a word from index `at` on, its high byte first.
fn write_word(out: &mut [u8], at: usize, w: u16)
    requires { at + 2 ≤ length out.old }
    ensures { out.new ≡ sets out.old at (bytes_of w) }
{
    let [high, low] = w.to_be_bytes();
    out[at] = high;
    out[at + 1] = low;
}

// Stores two words, one after the other: a mark and what it is of, or two corners.
pub fn write_words(out: &mut [u8], at: usize, first: u16, second: u16)
    requires { at + 4 ≤ length out.old }
    ensures { out.new ≡ sets out.old at (bytes_of first ++ bytes_of second) }
{
    write_word(out, at, first);
    write_word(out, at + 2, second);
}

// Writes the record of a turn.
pub fn write_turn(out: &mut [u8], at: usize, edge: u16, amount: i16)
    requires { at + 6 ≤ length out.old }
    ensures { out.new ≡ sets out.old at (record_by TW edge 0 0 amount 0) }
{
    write_words(out, at, MARK_TW, edge);
    write_word(out, at + 4, amount.cast_unsigned());
}

// What a record may say besides its mark: a name, two corners, turns and the length of a strip.
#[derive(Clone, Copy)]
pub struct Words {
    pub name: u16,
    pub first: u16,
    pub second: u16,
    pub turns: i16,
    pub strip: u16,
}

// Writes a mark and the words of an insertion, without its length.
pub fn write_ends(out: &mut [u8], at: usize, mark: u16, w: Words)
    requires { at + 10 ≤ length out.old }
    ensures { out.new ≡ sets out.old at (bytes_of mark ++ insertion_words w.name w.first w.second w.turns) }
{
    write_words(out, at, mark, w.name);
    write_words(out, at + 4, w.first, w.second);
    write_word(out, at + 8, w.turns.cast_unsigned());
}

// Writes the record of an insertion with its length.
pub fn write_long(out: &mut [u8], at: usize, w: Words)
    requires { at + 12 ≤ length out.old }
    ensures { out.new ≡ sets out.old at (record_by IL w.name w.first w.second w.turns w.strip) }
{
    write_ends(out, at, MARK_IL, w);
    write_word(out, at + 10, w.strip);
}
