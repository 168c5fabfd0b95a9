// Walking a file's credentials: thin functions over a struct that holds the caller's bytes and a place.
#![tactic(auto)]

ghost use Rattle.std.specs.Prelude.{◌≡◌};
ghost use Rattle.file.specs.Reading.{read};
ghost use Rattle.file.specs.Values.{found_in};
ghost use Rattle.walker.specs.Walking.{opened, walker_of, place_after, next_of, found_at, credential_of, refusal_in, says_entry};

// The credential at place `at` of the file. A refused walker carries the refusal's number and place, and is at its end.
#[derive(Clone, Copy)]
pub struct Walker<'a> {
    file: &'a [u8],
    at: usize,
    number: u32,
    place: u32,
}

// What stands at a place of a file.
#[derive(Clone, Copy)]
pub enum Entry {
    Credential(file::Credential),
    End,
    Refused { number: u32, place: u32 },
}

// A walker at the first credential of a file that passes 1 to 8 and 17, or a refused one.
pub fn walk<'a>(file: &'a [u8]) -> Walker<'a>
    ensures { result ≡ walker_of file.entry }
{
    let s = open(file);
    Walker {
        file,
        at: 0,
        number: s.number,
        place: s.place,
    }
}

// The walker at the next place; at the end, the same walker.
pub fn next<'a>(w: Walker<'a>) -> Walker<'a>
    ensures { result ≡ next_of w.entry }
{
    let at = place_after(w.file, w.at, w.number);
    Walker {
        file: w.file,
        at,
        number: w.number,
        place: w.place,
    }
}

// The credential at the walker's place, or the end.
pub fn credential<'a>(w: Walker<'a>) -> file::Found
    ensures { result ≡ credential_of w.entry }
{
    found_at(w.file, w.at, w.number)
}

// The refusal that the walker carries; number and place are 0 where it is not refused.
pub fn refusal<'a>(w: Walker<'a>) -> file::Refusal
    ensures { result ≡ refusal_in w.entry }
{
    file::Refusal {
        number: w.number,
        place: w.place,
    }
}

// The credential at a place of a file, for callers that hold no walker.
pub fn entry_at(file: &[u8], at: usize) -> Entry
    ensures { says_entry result ≡ read file.now (found_in file.now at) }
{
    let s = open(file);
    if s.number != 0 {
        return Entry::Refused {
            number: s.number,
            place: s.place,
        };
    }
    match nth(file, at) {
        file::Found::Credential(c) => Entry::Credential(c),
        file::Found::End => Entry::End,
    }
}

// Refusals 1 to 8 and 17.
fn open(file: &[u8]) -> file::Refusal
    ensures { result ≡ opened file.now }
{
    let mut policy = policy::room();
    let mut ends = survey::no_ends();
    let summary = survey::survey_file(&mut policy, &mut ends, file);
    file::Refusal {
        number: summary.number,
        place: summary.place,
    }
}

fn found_at(file: &[u8], at: usize, number: u32) -> file::Found
    ensures { result ≡ found_at file.now at number }
{
    if number != 0 {
        return file::Found::End;
    }
    reader::read_credential(file, at)
}

fn place_after(file: &[u8], at: usize, number: u32) -> usize
    ensures { result ≡ place_after file.now at number }
{
    match found_at(file, at, number) {
        file::Found::Credential(_) => at + 1,
        file::Found::End => at,
    }
}

// The credential at a place of a file that passes 1 to 8 and 17, by a walker there.
fn nth(file: &[u8], at: usize) -> file::Found
    ensures { result ≡ found_in file.now at }
{
    credential(Walker {
        file,
        at,
        number: 0,
        place: 0,
    })
}
