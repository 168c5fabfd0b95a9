// Brings an old credentials file on standard input forward, or a new one back, and writes the other to standard output; or a line on standard error, and then nothing on standard output.
#![tactic(auto)]

ghost use Rattle.std.specs.Prelude.{◌≡◌, ◌≤◌, length};

use carrying::Carried;
use std::env::Env;

// The longest files have 5,126 and 4,102 bytes.
fn room() -> [u8; 5126]
    ensures { 5126 ≡ length result }
{
    [0; 5126]
}

// How many credentials so many bytes have room for, of `size` bytes each; at most 256.
fn count_in(bytes: usize, size: usize) -> usize
    requires { 1 ≤ size }
    ensures { result ≤ 256 }
{
    if bytes < 6 {
        return 0;
    }
    ((bytes - 6) / size).min(256)
}

fn write_result<O: Print, E: Print>(out: &O, err: &E, list: &[u8]) {
    if let Err(why) = out.write_all(list) {
        console::fail(err, b"standard output cannot be written", why);
    }
}

// What stands before a sentence on standard error: `refused`, number, place.
fn start_line<E: Print>(err: &E, number: u32, place: u32) {
    console::write_error(err, &lines::refused_start(number, place));
}

fn explain<E: Print>(err: &E, file: &[u8], number: u32, place: u32) {
    console::write_error(err, &carry_sentences::carry_line(file, number, place));
}

// The sentences of a new file's 1, 2 and 8 are so of an old one too.
fn refuse_old<E: Print>(err: &E, old: &[u8], number: u32, place: u32) {
    start_line(err, number, place);
    if (number == 1) | (number == 2) | (number == 8) {
        console::explain(err, old, number, place);
        return;
    }
    explain(err, old, number, place);
}

fn refuse_new<E: Print>(err: &E, file: &[u8], number: u32, place: u32) {
    start_line(err, number, place);
    if (number <= 8) | (number == 17) {
        console::explain(err, file, number, place);
        return;
    }
    explain(err, file, number, place);
}

fn forward_into<O: Print, E: Print>(out: &O, err: &E, list: &mut [u8], old: &[u8]) {
    match carrying::forward(old, list) {
        Carried::Credentials(_) => write_result(out, err, list),
        Carried::Refused { number, place } => refuse_old(err, old, number, place),
    }
}

fn back_into<O: Print, E: Print>(out: &O, err: &E, list: &mut [u8], file: &[u8]) {
    match carrying::back(file, list) {
        Carried::Credentials(_) => write_result(out, err, list),
        Carried::Refused { number, place } => refuse_new(err, file, number, place),
    }
}

fn bring_forward<O: Print, E: Print>(out: &O, err: &E, old: &[u8]) {
    let mut list = room();
    let n = 6 + 20 * count_in(old.len(), 16);
    forward_into(out, err, &mut list[..n], old);
}

fn bring_back<O: Print, E: Print>(out: &O, err: &E, file: &[u8]) {
    let mut list = room();
    let n = 6 + 16 * count_in(file.len(), 20);
    back_into(out, err, &mut list[..n], file);
}

// Whether the one argument is this word.
fn asked_for<R: Env>(rt: &R, word: &[u8]) -> bool {
    if !console::is_given(rt, 1) | console::is_given(rt, 2) {
        return false;
    }
    let mut argument = [0u8; 128];
    let n = console::argument(rt, 1, &mut argument);
    &argument[..n] == word
}

fn main(rt: HostRuntime) {
    let out = rt.stdout();
    let err = rt.stderr();
    let onward = asked_for(&rt, b"forward");
    if !onward & !asked_for(&rt, b"back") {
        console::usage(
            &err,
            b"usage: rtt-carry forward < OLD > FILE\n       rtt-carry back < FILE > OLD\nFILE is a credentials file. OLD is one of version 1: it has no serials, and its periods do not cover their `to`.\n",
        );
        return;
    }
    let mut buffer = console::room();
    let input = console::read(&mut rt.stdin(), &err, &mut buffer);
    if input.failed {
        return;
    }
    let n = input.count;
    if onward {
        bring_forward(&out, &err, &buffer[..n]);
        return;
    }
    bring_back(&out, &err, &buffer[..n]);
}
