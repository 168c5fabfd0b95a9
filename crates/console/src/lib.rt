// What the programs share: rooms, reading standard input, writing lines.
#![tactic(auto)]

ghost use Rattle.std.specs.Prelude.{◌≡◌, ◌+◌, ◌≤◌, length};
ghost use Rattle.file_sentences.specs.FileSentences.{longest};

use std::env::{Env, FillError};
use std::io;
use std::io::{Cursor, Read, Write};
use text::Text;

// One byte more than the longest valid file, so that a longer input is refused as one.
pub fn room() -> [u8; 5127]
    ensures { longest + 1 ≡ length result }
{
    [0; 5127]
}

// What was read.
#[derive(Clone, Copy)]
pub struct Input {
    pub count: usize,
    pub failed: bool,
}

// Reads standard input until it ends or the room is full, and says how many bytes there are; or that a read failed, which standard error then says too.
pub fn read<R: Read, E: Print>(input: &mut R, err: &E, file: &mut [u8]) -> Input
    ensures { result.count ≤ length file.new }
{
    read_from(input, err, file, b"standard input cannot be read")
}

// The same of an open file. `failure` is what standard error says where a read failed.
pub fn read_from<R: Read, E: Print>(
    source: &mut R,
    err: &E,
    file: &mut [u8],
    failure: &[u8],
) -> Input
    ensures { result.count ≤ length file.new }
{
    let mut n = 0;
    while n < file.len() {
        let more = read_on(source, err, file, n, failure);
        let k = more.count;
        if k == 0 {
            return Input {
                count: n,
                failed: more.failed,
            };
        }
        n += k;
    }
    Input {
        count: n,
        failed: false,
    }
}

// A list of 1,024 numbers of 32 bits.
pub fn numbers32() -> [u32; 1024]
    ensures { 1024 ≡ length result }
{
    [0; 1024]
}

// A list of 1,024 numbers of 64 bits.
pub fn numbers64() -> [u64; 1024]
    ensures { 1024 ≡ length result }
{
    [0; 1024]
}

// Writes a line to standard output, and says whether it could; standard error says where it could not.
pub fn write_line<O: Print, E: Print, const N: usize>(out: &O, err: &E, line: &Text<N>) -> bool {
    match out.write_all(line.as_bytes()) {
        Ok(()) => true,
        Err(why) => {
            fail(err, b"standard output cannot be written", why);
            false
        }
    }
}

// Writes a line to standard error.
pub fn write_error<E: Print, const N: usize>(err: &E, line: &Text<N>) {
    let _ = err.write_all(line.as_bytes());
}

// Writes a line of one number, and says whether it could.
pub fn print_number<O: Print, E: Print>(out: &O, err: &E, x: u32) -> bool {
    write_line(out, err, &lines::number_line(x))
}

// Writes a line of two numbers, and says whether it could.
pub fn print_pair<O: Print, E: Print>(out: &O, err: &E, x: u32, y: u32) -> bool {
    write_line(out, err, &lines::pair_line(x, y))
}

// Writes a line of `refused`, number, place.
pub fn print_refusal<O: Print, E: Print>(out: &O, err: &E, number: u32, place: u32) {
    write_line(out, err, &lines::refused_line(number, place));
}

// Says to standard error what a refusal of a file means.
pub fn explain<E: Print>(err: &E, file: &[u8], number: u32, place: u32) {
    write_error(err, &file_sentences::file_line(file, number, place));
}

// Whether the program has an argument of this number. Number 0 is its own name.
pub fn is_given<R: Env>(rt: &R, i: usize) -> bool {
    let mut word = [0u8; 1];
    match rt.arg(i, &mut word) {
        Ok(_) => true,
        Err(FillError::TooLong) => true,
        Err(FillError::NotPresent) => false,
    }
}

// Puts an argument at the start of a buffer and says how long it is: 0 where it is missing or longer than the buffer.
pub fn argument<R: Env>(rt: &R, i: usize, word: &mut [u8]) -> usize
    ensures { result ≤ length word.new }
{
    match rt.arg(i, word) {
        Ok(n) => n,
        Err(_) => 0,
    }
}

// Writes how a program is called to standard error.
pub fn usage<E: Print>(err: &E, lines: &[u8]) {
    let _ = err.write_all(lines);
}

// Writes a line to standard error: what failed, a colon and the system's reason. That standard error cannot be written is said nowhere.
pub fn fail<E: Print>(err: &E, what: &[u8], why: io::Error) {
    let mut line = Cursor::new([0u8; 256]);
    let _ = write!(line, "{why}");
    let n = (line.position() as usize).min(256);
    let _ = err.write_all(what);
    let _ = err.write_all(b": ");
    let _ = err.write_all(reason(&line.get_ref()[..n]));
    let _ = err.write_all(b"\n");
}

// An error as text without the system's number of it, which stands behind the reason as ` (os error 28)`.
fn reason(text: &[u8]) -> &[u8] {
    match str::from_utf8(text) {
        Ok(all) => match all.rsplit_once(" (os error ") {
            Some((before, _)) => before.as_bytes(),
            None => text,
        },
        Err(_) => text,
    }
}

// Reads once to the places from n on: how many bytes came, none at the end of the input or where the read failed.
fn read_on<R: Read, E: Print>(
    source: &mut R,
    err: &E,
    file: &mut [u8],
    n: usize,
    failure: &[u8],
) -> Input
    requires { n ≤ length file.old }
    ensures { n + result.count ≤ length file.old }
{
    match source.read(&mut file[n..]) {
        Ok(count) => Input {
            count,
            failed: false,
        },
        Err(why) => {
            fail(err, failure, why);
            Input {
                count: 0,
                failed: true,
            }
        }
    }
}
