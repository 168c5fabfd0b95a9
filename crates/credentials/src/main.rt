// Reads a credentials file on standard input and prints each credential on a line: position, #serial, head, body, from..to; or `refused`, number,
// place, with what that means on standard error, after the credentials before the one at fault.
#![tactic(auto)]

use file::Found;
use walker::Entry;

fn print_credential<O: Print, E: Print>(
    out: &O,
    err: &E,
    position: u32,
    c: file::Credential,
) -> bool {
    console::write_line(out, err, &notation::credential_line(position, c))
}

// Writes the credential at a position to standard error, if it can be read.
fn list_credential<E: Print>(err: &E, file: &[u8], position: u32) {
    match reader::read_credential(file, position as usize) {
        Found::Credential(c) => {
            console::write_error(err, &notation::credential_line(position, c));
        }
        Found::End => {}
    }
}

// A file has at most 256 credentials.
fn list_before<E: Print>(err: &E, file: &[u8], place: u32) {
    for i in 0..place.min(256) {
        list_credential(err, file, i);
    }
}

fn print_refused<O: Print, E: Print>(out: &O, err: &E, file: &[u8], number: u32, place: u32) {
    console::print_refusal(out, err, number, place);
    list_before(err, file, place);
    console::explain(err, file, number, place);
}

// Prints what stands at a position of a file that was not refused, and says whether there may be more.
fn print_entry<O: Print, E: Print>(out: &O, err: &E, file: &[u8], position: u32) -> bool {
    match reader::read_credential(file, position as usize) {
        Found::Credential(c) => print_credential(out, err, position, c),
        Found::End => false,
    }
}

fn print_credentials<O: Print, E: Print>(out: &O, err: &E, file: &[u8]) {
    for i in 0..256 {
        if !print_entry(out, err, file, i) {
            return;
        }
    }
}

// The walker judges the file, once; after that its credentials are read.
fn print_file<O: Print, E: Print>(out: &O, err: &E, file: &[u8]) {
    match walker::entry_at(file, 0) {
        Entry::Credential(_) => print_credentials(out, err, file),
        Entry::End => {}
        Entry::Refused { number, place } => print_refused(out, err, file, number, place),
    }
}

fn main(rt: HostRuntime) {
    let out = rt.stdout();
    let err = rt.stderr();
    if console::is_given(&rt, 1) {
        console::usage(
            &err,
            b"usage: rtt-credentials < FILE\nFILE is a credentials file. Prints each credential: position, #serial, head, body, from..to.\n",
        );
        return;
    }
    let mut buffer = console::room();
    let input = console::read(&mut rt.stdin(), &err, &mut buffer);
    if input.failed {
        return;
    }
    let n = input.count;
    print_file(&out, &err, &buffer[..n]);
}
