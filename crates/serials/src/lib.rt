// Of the serials of a file's credentials, refusal 17, and the position of one.
#![tactic(auto)]

ghost use Rattle.std.specs.Prelude.{◌≡◌, ◌+◌, ◌≤◌, eqb, length};
ghost use Rattle.meaning.specs.Lists.{any, below};
ghost use Rattle.file.specs.Format.{statement_at, serial_of};
ghost use Rattle.file.specs.Reading.{taken as reading_taken};
ghost use Rattle.serials.specs.Serials.{Greatest, FirstWith};

// Whether the serial of credential i is zero or that of an earlier one. `greatest` is the greatest of the earlier serials: a serial above it is new without a search.
pub fn taken(file: &[u8], i: usize, greatest: u32) -> bool
    requires fact_1 { statement_at i + 12 ≤ length file.now }
    requires fact_2 { Greatest file.now i greatest }
    ensures { result ≡ reading_taken file.now i }
{
    let x = file::serial_at(file, i);
    if greatest < x {
        return false;
    }
    if x == 0 {
        return true;
    }
    earlier(file, i, x)
}

// The greatest serial up to that of credential i, where `greatest` is the greatest before it.
pub fn greatest_with(file: &[u8], i: usize, greatest: u32) -> u32
    requires fact_1 { statement_at i + 12 ≤ length file.now }
    requires fact_2 { Greatest file.now i greatest }
    ensures { Greatest file.now (i + 1) result }
{
    let x = file::serial_at(file, i);
    if x < greatest {
        return greatest;
    }
    x
}

// The first of n positions whose credential has the serial x, or n.
pub fn position_of(file: &[u8], n: usize, x: u32) -> usize
    requires { statement_at n ≤ length file.now }
    ensures { FirstWith file.now n x result }
{
    let mut i = 0;
    while i < n {
        if file::serial_at(file, i) == x {
            return i;
        }
        i += 1;
    }
    n
}

// Whether one of the first n credentials has the serial x.
fn earlier(file: &[u8], n: usize, x: u32) -> bool
    requires { statement_at n ≤ length file.now }
    ensures { result ≡ any (λ j. eqb (serial_of file.now j) x) (below n) }
{
    let mut j = 0;
    while j < n {
        if file::serial_at(file, j) == x {
            return true;
        }
        j += 1;
    }
    false
}
