// The job program, document 01, "The job program": reads records from standard input, runs them over the empty mesh, and prints the lines.
// The texts and the table are those of proved functions; here are the calls that read and write. Nothing can be said of the bytes that a
// read gives, and nothing of what becomes of those that are written: so the contracts speak of some bytes, as many as came, and of
// the number of those that are handed over.
#![tactic(auto)]

ghost use Rattle.std.specs.Prelude.{◌+◌, ◌≤◌, ◌<◌, ◌^◌, ◌≡◌, true, length, take};
ghost use Rattle.table.specs.Good.{Good};
ghost use Rattle.table.specs.Layout.{words};
ghost use Rattle.table.specs.Empty.{empty_table};
ghost use Rattle.report_lines.specs.Lines.{report};
ghost use Rattle.runs.specs.Run.{run};
ghost use Rattle.records.specs.Records.{longest_record};
ghost use Rattle.records.specs.Reading.{reading};
ghost use Rattle.records.specs.Blocks.{left};
ghost use Rattle.records.specs.Lines.{stop_line};
ghost use Rattle.job.specs.Job.{fine, state_after, after_block, Turn, Read, Ended};

use records::block::run_block;
use records::lines::stop_line;
use records::records::{Stop, reads_on};
use report::report::show;
use std::io;
use std::io::Read;
use std::rt::Runtime;
use streams::{get, put};
use table::empty::empty;
use table::layout::WORDS;

// Where the reading stands.
#[derive(Clone, Copy, PartialEq)]
enum State {
    // nothing says yet that no more is to be read
    More,
    // no more is to be read
    Over,
    // a read or a write failed
    Failed,
}

// How far the reading has come.
#[derive(Clone, Copy)]
struct Progress {
    state: State,
    // the bytes of a cut record that wait for more, at the front of the buffer
    left: usize,
    // the number of the record that comes next
    next: u64,
    // why no whole record follows
    stop: Stop,
    // how many bytes the last read gave
    came: usize,
    // the bytes that came, all together
    read: u64,
    // the bytes that were handed to standard output
    printed: u64,
}

// What was handed to standard output. The bytes count where it failed too, so they stand beside the flag: a Result would hold them in both its variants.
#[derive(Clone, Copy)]
struct Printed {
    fine: bool,
    bytes: usize,
}

// What the program did. The numbers count where something failed too.
#[derive(Clone, Copy)]
struct Job {
    fine: bool,
    // how many bytes the last read gave
    came: usize,
    read: u64,
    printed: u64,
}

// The bytes that are read at once, and those that are written at once.
const BLOCK: usize = 4096;

const LINES: usize = 65536;

// Hands some bytes to standard output. Where that fails, standard error says so.
fn print<R: Runtime>(rt: &R, bytes: &[u8]) -> Printed
    ensures { result.bytes ≡ length bytes.now }
{
    let fine = put(rt, &mut io::writer(rt), "standard output", bytes).is_ok();
    Printed {
        fine,
        bytes: bytes.len(),
    }
}

// Where the reading stands after a read that gave so many bytes: it is over where it gave none, and after a bad mark.
fn state_after(fine: bool, came: usize, stop: Stop) -> State
    ensures { result ≡ state_after fine came stop }
{
    if !fine {
        return State::Failed;
    }
    if came == 0 {
        return State::Over;
    }
    if reads_on(stop) {
        return State::More;
    }
    State::Over
}

// Runs the records of the bytes that were left and of those that came after them, and prints the lines of those that are declined.
fn run_and_print<R: Runtime>(
    rt: &R,
    t: &mut [u16],
    buf: &mut [u8],
    came: usize,
    p: Progress,
) -> Progress
    requires { (length buf.old ≡ 4096) × (p.left + came ≤ 4096) × (p.next ≤ 2 ^ 61) × (p.read ≤ 2 ^ 61) × (p.printed ≤ 2 ^ 63) }
    ensures { (result ≡ after_block t.old p came (take (p.left + came) buf.old) (fine result.state))
        × (t.new ≡ run t.old (reading (take (p.left + came) buf.old)).edits)
        × (take result.left buf.new ≡ left (take (p.left + came) buf.old)) }
{
    let mut out = [0u8; LINES];
    let n = p.left + came;
    let block = run_block(t, buf, n, p.next, &mut out);
    let lines = print(rt, &out[..block.written]);
    Progress {
        state: state_after(lines.fine, came, block.stop),
        left: block.left,
        next: block.next,
        stop: block.stop,
        came,
        read: p.read + came as u64,
        printed: p.printed + lines.bytes as u64,
    }
}

// Reads once and runs the records of what came.
fn read_block<R: Runtime, I: Read>(
    rt: &R,
    input: &mut I,
    t: &mut [u16],
    buf: &mut [u8],
    p: Progress,
) -> Progress
    requires { (length buf.old ≡ 4096) × (p.left < longest_record) × (p.next ≤ 2 ^ 61) × (p.read ≤ 2 ^ 61) × (p.printed ≤ 2 ^ 63) }
    ensures { Turn t.old buf.old p t.new buf.new result }
{
    match get(rt, input, "standard input", &mut buf[p.left..]) {
        Ok(came) => run_and_print(rt, t, buf, came, p),
        Err(_) => Progress {
            state: State::Failed,
            ..p
        },
    }
}

// A proved loop has to end, and nothing says that the input does. So the program reads up to a number of bytes that no input has.
const MOST: u64 = 1 << 60;

// Reads to the end of the input, or to a bad mark.
fn read_job<R: Runtime>(rt: &R, t: &mut [u16]) -> Progress
    requires { Good t.old }
    ensures { Read t.old t.new result }
{
    let mut input = rt.reader();
    let mut buf = [0u8; BLOCK];
    // No read has given nothing yet.
    let mut p = Progress {
        state: State::More,
        left: 0,
        next: 1,
        stop: Stop::End,
        came: 1,
        read: 0,
        printed: 0,
    };
    while p.state == State::More && p.read < MOST {
        p = read_block(rt, &mut input, t, &mut buf, p);
    }
    p
}

// Prints the line of the refusal that ended the reading, if one did.
fn print_stop<R: Runtime>(rt: &R, n: u64, stop: Stop) -> Printed
    ensures { result.bytes ≡ length (stop_line n stop) }
{
    let mut line = [0u8; 64];
    let size = stop_line(&mut line, n, stop);
    print(rt, &line[..size])
}

// Prints the report, a window at a time.
fn print_report<R: Runtime>(rt: &R, t: &[u16]) -> Printed
    requires { Good t.now }
    ensures { (result.fine ≡ true → result.bytes ≡ length (report t.now)) × (result.bytes ≤ length (report t.now)) × (result.bytes < 2 ^ 31) }
{
    let mut out = [0u8; LINES];
    let mut from: usize = 0;
    // The report's size is known once its first window is shown, and a write may fail before its end.
    loop {
        let window = show(t, from, &mut out);
        let part = print(rt, &out[..window.shown]);
        from += part.bytes;
        if !part.fine {
            return Printed {
                fine: false,
                bytes: from,
            };
        }
        if window.size <= from {
            return Printed {
                fine: true,
                bytes: from,
            };
        }
    }
}

// Runs a job over the empty mesh: its records, the line of the refusal that ended them, the report.
fn run_job<R: Runtime>(rt: &R, t: &mut [u16]) -> Job
    requires { length t.old ≡ words }
    ensures { Ended empty_table t.new result }
{
    // The slice has the right size, so nothing is declined.
    let _ = empty(t);
    let p = read_job(rt, t);
    let mut job = Job {
        fine: false,
        came: p.came,
        read: p.read,
        printed: p.printed,
    };
    if p.state == State::Failed {
        return job;
    }
    let line = print_stop(rt, p.next, p.stop);
    job.printed += line.bytes as u64;
    if !line.fine {
        return job;
    }
    let lines = print_report(rt, t);
    job.printed += lines.bytes as u64;
    job.fine = lines.fine;
    job
}

fn main(rt: HostRuntime) {
    let mut t = [0u16; WORDS];
    run_job(&rt, &mut t);
}
