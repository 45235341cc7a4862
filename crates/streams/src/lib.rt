// What the programs do where a standard stream fails: a line on standard error says so, and they go on.
#![tactic(auto)]

ghost use Rattle.std.specs.Prelude.{◌≤◌, length, IfOk, OnOk};
ghost use Rattle.std.specs.Io.KnownBytes.{Appends};

use std::io;
use std::io::{Read, Write};
use std::rt::Runtime;

// Says on standard error what failed, and why, without the system's number for it: `standard output: No space left on device`.
fn tell<R: Runtime>(rt: &R, name: &str, error: &io::Error) {
    let said = match format!(in rt.alloc(); "{error}") {
        Ok(text) => match text.as_str().split_once(" (os error ") {
            Some((why, _)) => eprintln!(rt; "{name}: {why}"),
            None => eprintln!(rt; "{name}: {text}"),
        },
        Err(_) => eprintln!(rt; "{name}: {error}"),
    };
    // Where standard error fails as well, nobody is left to tell.
    let _untold = said;
}

// Writes all of some bytes to a stream. Where that fails, standard error says so.
pub fn put<R: Runtime, W: Write>(rt: &R, to: &mut W, name: &str, bytes: &[u8]) -> io::Result<()>
    ensures { OnOk result (Appends (W.contents to.old) (W.contents to.new) bytes.now) }
{
    to.write_all(bytes)
        .inspect_err(|error| tell(rt, name, error))
}

// Reads some bytes of a stream to the front of a slice: how many, and none at its end. Where that fails, standard error says so.
pub fn get<R: Runtime, I: Read>(
    rt: &R,
    from: &mut I,
    name: &str,
    bytes: &mut [u8],
) -> io::Result<usize>
    ensures { IfOk result (λ n. n ≤ length bytes.new) }
{
    from.read(bytes).inspect_err(|error| tell(rt, name, error))
}
