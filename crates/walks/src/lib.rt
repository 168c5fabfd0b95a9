// A walk through a whole file, from the first credential to the end.
#![tactic(auto)]

ghost use Rattle.std.specs.Prelude.{◌≡◌};
ghost use Rattle.walks.specs.Walks.{stands, counted_as, count_in};

// How many credentials a file has; or the refusal's number and place, and no credentials.
#[derive(Clone, Copy)]
pub struct Counted {
    pub number: u32,
    pub place: u32,
    pub credentials: u32,
}

// Counts a file's credentials by walking them.
pub fn count(file: &[u8]) -> Counted
    ensures { result ≡ count_in file.now }
{
    let mut w = walker::walk(file);
    let mut n: u32 = 0;
    while is_credential(walker::credential(w)) {
        w = walker::next(w);
        n += 1;
    }
    answer(walker::refusal(w), n)
}

fn is_credential(found: file::Found) -> bool
    ensures { result ≡ stands found }
{
    match found {
        file::Found::Credential(_) => true,
        file::Found::End => false,
    }
}

fn answer(refusal: file::Refusal, n: u32) -> Counted
    ensures { result ≡ counted_as refusal n }
{
    Counted {
        number: refusal.number,
        place: refusal.place,
        credentials: n,
    }
}
