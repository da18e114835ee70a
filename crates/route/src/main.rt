// Reads a net file from standard input and prints its trees: a header with the totals and the metal, and a line for each edge, or one
// line that says why the file is refused. What is printed is `route_text` of the bytes read (report/specs/Route.antt).
#![tactic(auto)]

ghost use Rattle.std.specs.Prelude.{◌≤◌, length, take};
ghost use Rattle.std.specs.Io.KnownBytes.{Consumes};

use report::{FILE, TEXT};
use std::io::{Read, Write};

// Reads until the buffer is full, the input ends or a read fails, and returns how many bytes it put at the start of the buffer. Input
// that cannot be read is as input that has ended.
fn read_full<R: Read>(input: &mut R, buffer: &mut [u8]) -> usize
    ensures bound { result ≤ length buffer.new }
    ensures bytes { Consumes (R.remaining input.old) (R.remaining input.new) (take result buffer.new) }
{
    let mut done = 0;
    // Kept: a read puts any number of bytes, so `done` jumps and no `for` counts it.
    while done < buffer.len() {
        match input.read(&mut buffer[done..]) {
            Ok(0) => break,
            Ok(n) => done += n,
            Err(_) => break,
        }
    }
    done
}

// Writes a text. Where it cannot be written, standard error says so, and the exit status is 0 even then.
fn print<O: Write, E: Write>(output: &mut O, errors: &mut E, text: &[u8]) {
    if output.write_all(text).is_err() {
        let _ = errors.write_all(b"route: the answer could not be written to standard output\n");
    }
}

fn main(rt: HostRuntime) {
    let mut file = [0u8; FILE];
    let n = read_full(&mut rt.stdin(), &mut file);
    let mut text = [0u8; TEXT];
    let count = report::route(&file[..n], &mut text);
    print(&mut rt.stdout(), &mut rt.stderr(), &text[..count]);
}
