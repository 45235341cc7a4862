// A record by its mark, as a host in C has it: a mark and the arguments that it may have. Each kind of record tests its own room, so that a mark is told apart once.
ghost use Rattle.std.specs.Prelude.{◌≡◌, length, ◌++◌};
ghost use Rattle.records.specs.Records.{mark_of};
ghost use Rattle.records.specs.declared.records.Mark.TheVariants.{IE, IL, TW};
ghost use Rattle.records_write.specs.Encoding.{bytes_of, record_by};
ghost use Rattle.records_write.specs.Call.{record_answer, record_out, marked_answer, marked_out};

use crate::record::{Words, write_ends, write_long, write_turn, write_words};
use records::records::{
    LONG_BYTES, MARK_AV, MARK_DE, MARK_IE, MARK_RV, Mark, NAME_BYTES, PLAIN_BYTES, TURN_BYTES,
    mark_of,
};
use table::answer::Refusal;

// The record of a mark that has one argument, to the front of `out`, and its number of bytes.
fn encode_name(mark: u16, name: u16, out: &mut [u8]) -> Result<u32, Refusal>
    ensures { (result ≡ record_answer (bytes_of mark ++ bytes_of name) (length out.old))
        × (out.new ≡ record_out (bytes_of mark ++ bytes_of name) out.old) }
{
    if out.len() < NAME_BYTES {
        return Err(Refusal::ShortSlice);
    }
    write_words(out, 0, mark, name);
    Ok(NAME_BYTES as u32)
}

// That of a turn.
fn encode_turn(edge: u16, amount: i16, out: &mut [u8]) -> Result<u32, Refusal>
    ensures { (result ≡ record_answer (record_by TW edge 0 0 amount 0) (length out.old))
        × (out.new ≡ record_out (record_by TW edge 0 0 amount 0) out.old) }
{
    if out.len() < TURN_BYTES {
        return Err(Refusal::ShortSlice);
    }
    write_turn(out, 0, edge, amount);
    Ok(TURN_BYTES as u32)
}

// That of an insertion, without its length.
fn encode_plain(w: Words, out: &mut [u8]) -> Result<u32, Refusal>
    ensures { (result ≡ record_answer (record_by IE w.name w.first w.second w.turns 0) (length out.old))
        × (out.new ≡ record_out (record_by IE w.name w.first w.second w.turns 0) out.old) }
{
    if out.len() < PLAIN_BYTES {
        return Err(Refusal::ShortSlice);
    }
    write_ends(out, 0, MARK_IE, w);
    Ok(PLAIN_BYTES as u32)
}

// That of an insertion with its length.
fn encode_long(w: Words, out: &mut [u8]) -> Result<u32, Refusal>
    ensures { (result ≡ record_answer (record_by IL w.name w.first w.second w.turns w.strip) (length out.old))
        × (out.new ≡ record_out (record_by IL w.name w.first w.second w.turns w.strip) out.old) }
{
    if out.len() < LONG_BYTES {
        return Err(Refusal::ShortSlice);
    }
    write_long(out, 0, w);
    Ok(LONG_BYTES as u32)
}

// Writes the record of a mark that there is to the front of `out`, and answers its number of bytes.
fn encode(m: Mark, w: Words, out: &mut [u8]) -> Result<u32, Refusal>
    ensures { (result ≡ record_answer (record_by m w.name w.first w.second w.turns w.strip) (length out.old))
        × (out.new ≡ record_out (record_by m w.name w.first w.second w.turns w.strip) out.old) }
{
    match m {
        Mark::AV => encode_name(MARK_AV, w.name, out),
        Mark::RV => encode_name(MARK_RV, w.name, out),
        Mark::IE => encode_plain(w, out),
        Mark::IL => encode_long(w, out),
        Mark::DE => encode_name(MARK_DE, w.name, out),
        Mark::TW => encode_turn(w.name, w.turns, out),
    }
}

// Writes the record of a mark to the front of `out`, and answers its number of bytes.
pub fn job_record(
    mark: u16,
    name: u16,
    first: u16,
    second: u16,
    turns: i16,
    strip: u16,
    out: &mut [u8],
) -> Result<u32, Refusal>
    ensures { (result ≡ marked_answer (mark_of mark) name first second turns strip (length out.old))
        × (out.new ≡ marked_out (mark_of mark) name first second turns strip out.old) }
{
    let words = Words {
        name,
        first,
        second,
        turns,
        strip,
    };
    match mark_of(mark) {
        Some(m) => encode(m, words, out),
        None => Err(Refusal::BadMark),
    }
}
