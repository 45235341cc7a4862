// Job records, document 01, "The job program": an edit as a two-byte mark and 16-bit words, high byte first.
ghost use Rattle.std.specs.Prelude.{◌≡◌, ◌+◌, ◌≤◌, ◌<◌, length};
ghost use Rattle.records.specs.Records.{word, mark_of, size_of, insertion_of, edit_of, known_record, first_record};
ghost use Rattle.records.specs.Reading.{reads_on};

use edits::edit::Edit;

// The length of an edge whose record says none.
const PLAIN_LENGTH: u16 = 16;

// The words of the marks: the codes of their two letters.
pub const MARK_AV: u16 = 0x4156;

pub const MARK_RV: u16 = 0x5256;

pub const MARK_IE: u16 = 0x4945;

pub const MARK_IL: u16 = 0x494C;

pub const MARK_DE: u16 = 0x4445;

pub const MARK_TW: u16 = 0x5457;

// The marks, by document 01's names, and document 02's.
#[derive(Clone, Copy)]
pub enum Mark {
    AV,
    RV,
    IE,
    IL,
    DE,
    TW,
}

// Why no whole record follows.
#[derive(Clone, Copy)]
pub enum Stop {
    // nothing follows
    End,
    // refusal 10
    BadMark,
    // refusal 11
    CutRecord,
}

// A whole record: its edit, and its number of bytes.
#[derive(Clone, Copy)]
pub struct Record {
    pub edit: Edit,
    pub size: usize,
}

// The 16-bit word at byte i, high byte first.
fn word(s: &[u8], i: usize) -> u16
    requires { i + 1 < length s.now }
    ensures { result ≡ word s.now i }
{
    u16::from_be_bytes([s[i], s[i + 1]])
}

// The mark that a word is. An Option and not TryFrom: an error would say nothing, and each caller has its own word for it.
pub fn mark_of(w: u16) -> Option<Mark>
    ensures { result ≡ mark_of w }
{
    match w {
        MARK_AV => Some(Mark::AV),
        MARK_RV => Some(Mark::RV),
        MARK_IE => Some(Mark::IE),
        MARK_IL => Some(Mark::IL),
        MARK_DE => Some(Mark::DE),
        MARK_TW => Some(Mark::TW),
        _ => None,
    }
}

// The number of bytes of a record, its mark included: with a name alone, of a turn, of an insertion without its length and with it.
pub const NAME_BYTES: usize = 4;

pub const TURN_BYTES: usize = 6;

pub const PLAIN_BYTES: usize = 10;

pub const LONG_BYTES: usize = 12;

// The number of bytes of a record by its mark.
fn size_of(m: Mark) -> usize
    ensures { result ≡ size_of m }
{
    match m {
        Mark::AV => NAME_BYTES,
        Mark::RV => NAME_BYTES,
        Mark::IE => PLAIN_BYTES,
        Mark::IL => LONG_BYTES,
        Mark::DE => NAME_BYTES,
        Mark::TW => TURN_BYTES,
    }
}

// The insertion that the words of a record say, with a length.
fn insertion(s: &[u8], n: u16) -> Edit
    requires { 10 ≤ length s.now }
    ensures { result ≡ insertion_of s.now n }
{
    Edit::InsertEdge {
        edge: word(s, 2),
        first: word(s, 4),
        second: word(s, 6),
        turns: word(s, 8).cast_signed(),
        length: n,
    }
}

// The edit of a record with that mark.
fn edit_of(s: &[u8], m: Mark) -> Edit
    requires { size_of m ≤ length s.now }
    ensures { result ≡ edit_of m s.now }
{
    match m {
        Mark::AV => Edit::AddVertex(word(s, 2)),
        Mark::RV => Edit::RemoveVertex(word(s, 2)),
        Mark::IE => insertion(s, PLAIN_LENGTH),
        Mark::IL => insertion(s, word(s, 10)),
        Mark::DE => Edit::DeleteEdge(word(s, 2)),
        Mark::TW => Edit::TurnEdge {
            edge: word(s, 2),
            amount: word(s, 4).cast_signed(),
        },
    }
}

// The record with that mark, or that it is cut.
#[tactic(auto, unfolding(crate::specs::Records::known_record))]
fn known_record(s: &[u8], m: Mark) -> Result<Record, Stop>
    ensures { result ≡ known_record m s.now }
{
    let size = size_of(m);
    if size <= s.len() {
        let edit = edit_of(s, m);
        return Ok(Record { edit, size });
    }
    Err(Stop::CutRecord)
}

// The first record of some bytes. A lone byte is a cut record, whatever it is.
#[tactic(auto, unfolding(crate::specs::Records::first_record))]
pub fn first_record(s: &[u8]) -> Result<Record, Stop>
    ensures { result ≡ first_record s.now }
{
    let n = s.len();
    if n == 0 {
        return Err(Stop::End);
    }
    if n == 1 {
        return Err(Stop::CutRecord);
    }
    let mark = mark_of(word(s, 0)).ok_or(Stop::BadMark)?;
    known_record(s, mark)
}

// Whether bytes that come are read. After a bad mark none are; a cut record may be whole with them.
pub fn reads_on(stop: Stop) -> bool
    ensures { result ≡ reads_on stop }
{
    match stop {
        Stop::End => true,
        Stop::BadMark => false,
        Stop::CutRecord => true,
    }
}
