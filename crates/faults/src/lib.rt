// Of one credential of a file, refusals 4 to 7.
#![tactic(auto)]

ghost use Rattle.std.specs.Prelude.{◌≡◌, ◌<◌, ◌||◌, not, eqb, ltb, length};
ghost use Rattle.file.specs.Format.{byte, E, R, N};
ghost use Rattle.file.specs.Reading.{in_range, zeros, credential_rows};
ghost use Rattle.file.specs.Values.{used_by, first_number, Headed, Stated};

// The number of the first of refusals 4 to 7 that credential i has, or 0.
pub fn fault(file: &[u8], h: file::Head, i: usize) -> u32
    requires { (Headed file.now h) × (i < N file.now) }
    ensures { result ≡ first_number (credential_rows file.now i) }
{
    if 5 < file[6 + 12 * i] {
        return 4;
    }
    let e = h.entities;
    let r = h.names;
    if !in_range(file, i, e, r) {
        return 5;
    }
    if !zeroed(file, i) {
        return 6;
    }
    let v = file::dates_at(file, h, i);
    if v.to < v.from {
        return 7;
    }
    if v.to == 4294967295 {
        return 7;
    }
    0
}

fn used_by(kind: u8) -> file::Used
    ensures { result ≡ used_by kind }
{
    match kind {
        1 => file::Used {
            s: true,
            c: false,
            t: false,
        },
        2 => file::Used {
            s: true,
            c: false,
            t: true,
        },
        3..=5 => file::Used {
            s: true,
            c: true,
            t: true,
        },
        _ => file::Used {
            s: false,
            c: false,
            t: false,
        },
    }
}

fn below(file: &[u8], p: usize, limit: u32) -> bool
    requires { p < length file.now }
    ensures { result ≡ ltb (byte file.now p) limit }
{
    widths::wide8(file[p]) < limit
}

// A byte that is used is below the limit; one that is not used is not read.
fn below_if_used(file: &[u8], p: usize, limit: u32, used: bool) -> bool
    requires { p < length file.now }
    ensures { result ≡ (not used || ltb (byte file.now p) limit) }
{
    if used {
        return below(file, p, limit);
    }
    true
}

// A byte that is not used is zero; one that is used is not read.
fn zero_if_unused(file: &[u8], p: usize, used: bool) -> bool
    requires { p < length file.now }
    ensures { result ≡ (used || eqb (byte file.now p) 0) }
{
    if used {
        return true;
    }
    file[p] == 0
}

// The entities and names that the kind uses are below e and r: A, r and b always, s, c and t where it uses them.
fn in_range(file: &[u8], i: usize, e: u32, r: u32) -> bool
    requires fact_1 { Stated file.now i }
    requires fact_2 { (e ≡ E file.now) × (r ≡ R file.now) }
    ensures { result ≡ in_range file.now i }
{
    let at = 6 + 12 * i;
    let u = used_by(file[at]);
    let entities = below(file, at + 1, e)
        & below(file, at + 3, e)
        & below_if_used(file, at + 5, e, u.c);
    let names = below(file, at + 2, r)
        & below_if_used(file, at + 4, r, u.s)
        & below_if_used(file, at + 6, r, u.t);
    entities & names
}

// The bytes that the kind does not use are zero, and byte 7 always is.
fn zeroed(file: &[u8], i: usize) -> bool
    requires { Stated file.now i }
    ensures { result ≡ zeros file.now i }
{
    let at = 6 + 12 * i;
    let u = used_by(file[at]);
    zero_if_unused(file, at + 4, u.s)
        & zero_if_unused(file, at + 5, u.c)
        & zero_if_unused(file, at + 6, u.t)
        & (file[at + 7] == 0)
}
