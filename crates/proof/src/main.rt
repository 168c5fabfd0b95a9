// Takes ISSUER NAME SET MINUTE and a credentials file on standard input, and prints a proof that the role has the set as a member at the
// minute: step count and level, then each step on a line; or `refused`, number, place, with what that means on standard error. The set is
// written as {1,3} or as its number. A fifth argument names a file with a withdrawal list; without it nothing is withdrawn.
#![tactic(auto)]

ghost use Rattle.std.specs.Prelude.{◌≡◌, cond, ◌&&◌, ◌+◌, ◌*◌, ◌≤◌, ltb, length};

use console::Input;
use file::{Entity, Found, RoleName};
use proof_lines::Step;
use querying::Answer;
use std::env::Env;
use std::io::Read;
use std::rt::Files;
use std::{fs, io};

#[derive(Clone, Copy)]
struct Query {
    issuer: u32,
    name: u32,
    set: u32,
    minute: u32,
}

// Prints a step, and says whether it could. Every step of a proof names a credential of the file.
fn print_step<O: Print, E: Print>(out: &O, err: &E, file: &[u8], number: u32, s: Step) -> bool {
    match reader::read_credential(file, s.credential as usize) {
        Found::Credential(c) => {
            console::write_line(out, err, &proof_lines::step_line(number, s, c))
        }
        Found::End => true,
    }
}

fn print_steps<O: Print, E: Print>(
    out: &O,
    err: &E,
    file: &[u8],
    credential: &[u32; 1024],
    first: &[u32; 1024],
    second: &[u32; 1024],
    sets: &[u32; 1024],
    steps: u32,
) {
    for i in 0..(steps as usize).min(1024) {
        let s = Step {
            credential: credential[i],
            first: first[i],
            second: second[i],
            set: sets[i],
        };
        if !print_step(out, err, file, i as u32, s) {
            return;
        }
    }
}

// Says to standard error what a refusal of a query means: 1 to 8 and 17 are the file's, 20 and 21 the withdrawal list's, 10 to 13 the request's; 9 is not
// given here.
fn explain<E: Print>(err: &E, file: &[u8], list: &[u8], q: Query, number: u32, place: u32) {
    if (number < 10) | (number == 17) {
        console::explain(err, file, number, place);
        return;
    }
    if 20 <= number {
        explain_list(err, file, list, number);
        return;
    }
    let line = request_sentences::request_line(file, q.issuer, q.name, q.set, q.minute, number);
    console::write_error(err, &line);
}

fn explain_list<E: Print>(err: &E, file: &[u8], list: &[u8], number: u32) {
    console::write_error(err, &list_sentences::list_line(file, list, number));
}

fn print_proof<O: Print, E: Print>(out: &O, err: &E, file: &[u8], list: &[u8], q: Query) {
    let mut credential = console::numbers32();
    let mut first = console::numbers32();
    let mut second = console::numbers32();
    let mut sets = console::numbers32();
    let answer = querying::query(
        file,
        list,
        role_asked(q.issuer, q.name),
        q.set,
        q.minute,
        &mut credential,
        &mut first,
        &mut second,
        &mut sets,
    );
    match answer {
        Answer::Proof { steps, level } => {
            if console::print_pair(out, err, steps, level) {
                print_steps(out, err, file, &credential, &first, &second, &sets, steps);
            }
        }
        Answer::Refused { number, place } => {
            console::print_refusal(out, err, number, place);
            explain(err, file, list, q, number, place);
        }
    }
}

// An issuer or a name from 32 on is in no file: the largest number is then a role that every file refuses by 11.
fn role_asked(issuer: u32, name: u32) -> u32
    ensures { result ≡ cond (ltb issuer 32 && ltb name 32) (issuer * 32 + name) 4294967295 }
{
    if 32 <= issuer {
        return 4294967295;
    }
    if 32 <= name {
        return 4294967295;
    }
    file::role_number(Entity(issuer as u8), RoleName(name as u8))
}

// An argument that is missing or longer than the buffer is empty here, and so no number and no set.
fn argument<R: Env>(rt: &R, i: usize) -> Option<u32> {
    let mut word = [0u8; 128];
    let n = console::argument(rt, i, &mut word);
    text::parse(&word[..n])
}

fn set_argument<R: Env>(rt: &R, i: usize) -> Option<u32> {
    let mut word = [0u8; 128];
    let n = console::argument(rt, i, &mut word);
    match sets::parse_set(&word[..n]) {
        Some(set) => Some(set),
        None => text::parse(&word[..n]),
    }
}

// There are four arguments or five.
fn asked<R: Env>(rt: &R) -> Option<Query> {
    if !console::is_given(rt, 4) | console::is_given(rt, 6) {
        return None;
    }
    let issuer = argument(rt, 1)?;
    let name = argument(rt, 2)?;
    let set = set_argument(rt, 3)?;
    let minute = argument(rt, 4)?;
    Some(Query {
        issuer,
        name,
        set,
        minute,
    })
}

fn answer<R: Env + Files, I: Read, O: Print, E: Print>(
    rt: &R,
    standard: &mut I,
    out: &O,
    err: &E,
    q: Query,
) {
    let mut buffer = console::room();
    let input = console::read(standard, err, &mut buffer);
    if input.failed {
        return;
    }
    let n = input.count;
    if !console::is_given(rt, 5) {
        let none = withdrawals::none();
        print_proof(out, err, &buffer[..n], &none, q);
        return;
    }
    let mut list = list_room();
    let given = read_list(rt, err, &mut list);
    if given.failed {
        return;
    }
    let k = given.count;
    print_proof(out, err, &buffer[..n], &list[..k], q);
}

// One byte more than the longest list, so that a longer one is refused as such.
fn list_room() -> [u8; 2051]
    ensures { 2051 ≡ length result }
{
    [0; 2051]
}

// Opens the file that the fifth argument names. A name of more than 4,096 bytes counts as an empty one; one that is no UTF-8 is refused.
fn open_list<R: Env + Files>(rt: &R) -> io::Result<R::File> {
    let mut path = [0u8; 4096];
    let n = console::argument(rt, 5, &mut path);
    match str::from_utf8(&path[..n]) {
        Ok(name) => fs::open(rt, name),
        Err(_) => Err(io::Error::from(io::ErrorKind::InvalidFilename)),
    }
}

// Reads the file that the fifth argument names.
fn read_list<R: Env + Files, E: Print>(rt: &R, err: &E, list: &mut [u8]) -> Input
    ensures { result.count ≤ length list.new }
{
    match open_list(rt) {
        Ok(mut file) => {
            console::read_from(&mut file, err, list, b"the withdrawal list cannot be read")
        }
        Err(why) => {
            console::fail(err, b"the withdrawal list cannot be opened", why);
            Input {
                count: 0,
                failed: true,
            }
        }
    }
}

fn main(rt: HostRuntime) {
    let out = rt.stdout();
    let err = rt.stderr();
    match asked(&rt) {
        Some(q) => answer(&rt, &mut rt.stdin(), &out, &err, q),
        None => console::usage(
            &err,
            b"usage: rtt-proof ISSUER NAME SET MINUTE [WITHDRAWALS] < FILE\nNumbers are decimal, up to 4294967295. SET is a set of entities, as '{1,3}', or its number, which has bit e for entity e.\nFILE is a credentials file, WITHDRAWALS a file with a withdrawal list; without it nothing is withdrawn. Prints a proof that the set holds the role at the minute.\n",
        ),
    }
}
