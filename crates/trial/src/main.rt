// The trial program, document 02, request f: `trial START EDGES` writes a trial job to standard output. What goes to standard output and what goes
// to standard error is made by functions that are proved, from the bytes of the arguments; here are the calls that read those and write
// these. Nothing can be said of the bytes that an argument has, and nothing of what becomes of those that are written: so the contracts speak of
// some bytes, and of the number of those that are handed over.
#![tactic(auto)]

ghost use Rattle.std.specs.Prelude.{◌≤◌, ◌≡◌, length};
ghost use Rattle.table.specs.Layout.{edges as edgesMost};
ghost use Rattle.trial_jobs.specs.Trial.{trial_size, trial_bytes};
ghost use Rattle.trial.specs.Program.{outcome, output_of, message, Laid};

use arguments::number::number_in;
use std::env::FillError;
use std::io;
use std::rt::Runtime;
use streams::put;
use table::layout::EDGES;
use text::window::bytes;
use trial_make::call::trial_job;

// The trial job that the arguments ask for.
#[derive(Clone, Copy)]
struct Order {
    start: u32,
    edges: u32,
}

// What is wrong with the arguments.
#[derive(Clone, Copy)]
enum Misuse {
    // there are not two
    Usage,
    // START is not a number from 0 to START_MOST
    BadStart,
    // EDGES is not a number from 0 to EDGES_MOST
    BadEdges,
}

// How many bytes there are for standard output, and for standard error.
#[derive(Clone, Copy)]
struct Sizes {
    output: usize,
    message: usize,
}

// A 32-bit number, and as many edges as a table has.
const START_MOST: u32 = u32::MAX;

const EDGES_MOST: u32 = EDGES as u32;

// The program's own name, START and EDGES.
const ARGUMENTS: usize = 3;

// Reads the arguments: how many there are, the program's own name among them, and the bytes of the two after it.
#[tactic(auto, unfolding(crate::specs::Program::outcome))]
fn read_arguments(count: usize, first: &[u8], second: &[u8]) -> Result<Order, Misuse>
    ensures { result ≡ outcome count first.now second.now }
{
    if count != ARGUMENTS {
        return Err(Misuse::Usage);
    }
    let start = number_in(first, START_MOST).ok_or(Misuse::BadStart)?;
    let edges = number_in(second, EDGES_MOST).ok_or(Misuse::BadEdges)?;
    Ok(Order { start, edges })
}

// Writes the trial job to the front of `out`. The number of its bytes.
fn write_job(order: Order, out: &mut [u8]) -> usize
    requires { (order.edges ≤ edgesMost) × (trial_size edgesMost ≤ length out.old) }
    ensures { Laid (trial_bytes order.start order.edges) out.old result out.new }
{
    match trial_job(order.start, order.edges, out) {
        Ok(size) => size as usize,
        // never: the edges are so few, and there is room
        Err(_) => 0,
    }
}

// Writes the line that says what is wrong to the front of `line`. The number of its bytes.
fn write_message(misuse: Misuse, line: &mut [u8]) -> usize
    requires { 64 ≤ length line.old }
    ensures { Laid (message (Err misuse)) line.old result line.new }
{
    match misuse {
        Misuse::Usage => bytes(line, 0, 0, b"usage: trial START EDGES\n"),
        Misuse::BadStart => bytes(
            line,
            0,
            0,
            b"trial: START is not a number from 0 to 4294967295\n",
        ),
        Misuse::BadEdges => bytes(line, 0, 0, b"trial: EDGES is not a number from 0 to 1024\n"),
    }
}

// Makes what the arguments ask for: the job at the front of `out`, or a line at the front of `line`.
fn make(count: usize, first: &[u8], second: &[u8], out: &mut [u8], line: &mut [u8]) -> Sizes
    requires { (trial_size edgesMost ≤ length out.old) × (64 ≤ length line.old) }
    ensures { Laid (output_of (outcome count first.now second.now)) out.old result.output out.new
        × Laid (message (outcome count first.now second.now)) line.old result.message line.new }
{
    match read_arguments(count, first, second) {
        Ok(order) => Sizes {
            output: write_job(order, out),
            message: 0,
        },
        Err(misuse) => Sizes {
            output: 0,
            message: write_message(misuse, line),
        },
    }
}

// Hands some bytes to standard output, and answers how many. Where that fails, standard error says so.
fn print<R: Runtime>(rt: &R, output: &[u8]) -> usize
    ensures { result ≡ length output.now }
{
    let _told = put(rt, &mut io::writer(rt), "standard output", output);
    output.len()
}

// Hands a line to standard error. Where that fails, nobody is left to tell.
fn complain<R: Runtime>(rt: &R, message: &[u8]) -> usize
    ensures { result ≡ length message.now }
{
    if let Ok(text) = str::from_utf8(message) {
        let _untold = eprint!(rt; "{text}");
    }
    message.len()
}

// Hands the line to standard error and the job to standard output. One of them is empty, and then nothing is written there.
fn hand_over<R: Runtime>(rt: &R, message: &[u8], output: &[u8]) -> Sizes
    ensures { (result.output ≡ length output.now) × (result.message ≡ length message.now) }
{
    let told = complain(rt, message);
    let printed = print(rt, output);
    Sizes {
        output: printed,
        message: told,
    }
}

// Runs the program on its arguments.
fn run<R: Runtime>(rt: &R, count: usize, first: &[u8], second: &[u8]) -> Sizes
    ensures { (result.output ≡ length (output_of (outcome count first.now second.now)))
        × (result.message ≡ length (message (outcome count first.now second.now))) }
{
    let mut out = [0u8; 65536];
    let mut line = [0u8; 64];
    let made = make(count, first, second, &mut out, &mut line);
    let output = made.output;
    let message = made.message;
    hand_over(rt, &line[..message], &out[..output])
}

// How many arguments there are, the program's own name among them. More than are wanted are one more.
fn argument_count<R: Runtime>(rt: &R) -> usize {
    let mut none = [0u8; 1];
    for i in 0..ARGUMENTS + 1 {
        if let Err(FillError::NotPresent) = rt.arg(i, &mut none) {
            return i;
        }
    }
    ARGUMENTS + 1
}

// Puts an argument at the front of a buffer, and answers its number of bytes: none where there is no such argument, or it is longer than the buffer.
fn argument<R: Runtime>(rt: &R, i: usize, buf: &mut [u8]) -> usize
    ensures { result ≤ length buf.new }
{
    rt.arg(i, buf).unwrap_or(0)
}

fn main(rt: HostRuntime) {
    let mut first = [0u8; 4096];
    let mut second = [0u8; 4096];
    let start = argument(&rt, 1, &mut first);
    let edges = argument(&rt, 2, &mut second);
    let count = argument_count(&rt);
    run(&rt, count, &first[..start], &second[..edges]);
}
