// A refusal, and what C gets of an answer: a number, or the refusal alone.
ghost use Rattle.std.specs.Prelude.{◌≡◌};
ghost use Rattle.table.specs.Answers.{number_of, refusal_code, code_of};

// Document 01, "When a call declines"; document 02 adds the last two.
#[derive(Clone, Copy)]
pub enum Refusal {
    Torn,
    NoSuchName,
    Taken,
    Absent,
    Joined,
    Overturned,
    ShortSlice,
    ManyTurns,
    Far,
    BadMark,
    CutRecord,
    StaleForecast,
    ManyEdges,
}

// A refusal's number in the documents.
pub fn number_of(r: Refusal) -> u64
    ensures { result ≡ number_of r }
{
    match r {
        Refusal::Torn => 1,
        Refusal::NoSuchName => 2,
        Refusal::Taken => 3,
        Refusal::Absent => 4,
        Refusal::Joined => 5,
        Refusal::Overturned => 6,
        Refusal::ShortSlice => 7,
        Refusal::ManyTurns => 8,
        Refusal::Far => 9,
        Refusal::BadMark => 10,
        Refusal::CutRecord => 11,
        Refusal::StaleForecast => 12,
        Refusal::ManyEdges => 13,
    }
}

// A refusal as C gets it: minus its number.
pub fn refusal_code(r: Refusal) -> i64
    ensures { result ≡ refusal_code r }
{
    -(number_of(r) as i64)
}

// The answer as C gets it: the number, or the refusal's code.
pub fn code(a: Result<u32, Refusal>) -> i64
    ensures { result ≡ code_of a }
{
    match a {
        Ok(n) => n as i64,
        Err(r) => refusal_code(r),
    }
}
