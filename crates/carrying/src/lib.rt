// Old files brought forward and back (document 02, Three).
#![tactic(auto)]

ghost use Rattle.std.specs.Prelude.{◌≡◌, ◌+◌, ◌*◌, ◌≤◌, length, take};
ghost use Rattle.file.specs.Refusals.{done, refused};
ghost use Rattle.file.specs.Format.{N, length_for};
ghost use Rattle.old_file.specs.OldFormat.{old_length};
ghost use Rattle.blocks.specs.Blocks.{written};
ghost use Rattle.carrying.specs.Carrying.{forward_of, back_of, going_forward, forward_left, going_back, back_left, says_carried};
ghost use Rattle.carrying.specs.Judging.{OldSized, OldHeaded, Judges, FirstOut};

// The count of the credentials that were carried, or a refusal.
#[derive(Clone, Copy)]
pub enum Carried {
    Credentials(u32),
    Refused { number: u32, place: u32 },
}

// Number and place of a file's refusal; where there is none, 0 and 0 and the count of its credentials.
#[derive(Clone, Copy)]
pub struct Judgement {
    pub number: u32,
    pub place: u32,
    pub credentials: usize,
}

// Writes the new file of an old one: position plus one as serial, `to` lowered by one. The old file is judged by its own reading, which it passes exactly when its new bytes pass theirs.
pub fn forward(old: &[u8], file: &mut [u8]) -> Carried
    ensures fact_1 { says_carried result ≡ going_forward old.now file.old }
    ensures fact_2 { file.new ≡ forward_left old.now file.old }
{
    let h = old_head(old);
    if h.number != 0 {
        return refusal(h.number, 0);
    }
    let n = h.credentials;
    let size = 6 + 20 * n;
    let new = new_bytes(old, n);
    let j = judge(&new[..size]);
    if j.number != 0 {
        return refusal(j.number, j.place);
    }
    if file.len() != size {
        return refusal(18, 0);
    }
    blocks::copy(file, 0, &new[..size]);
    counted(n)
}

// Writes the old file of a new one whose serials are position plus one: no serials, `to` raised by one.
pub fn back(file: &[u8], old: &mut [u8]) -> Carried
    ensures fact_1 { says_carried result ≡ going_back file.now old.old }
    ensures fact_2 { old.new ≡ back_left file.now old.old }
{
    let j = judge(file);
    if j.number != 0 {
        return refusal(j.number, j.place);
    }
    let n = j.credentials;
    let size = 6 + 16 * n;
    let p = first_out_of_place(file, n);
    if old.len() != size {
        return refusal(18, 0);
    }
    if p < n {
        return refusal(19, p as u32);
    }
    write_old(old, file, n);
    counted(n)
}

// Refusals 1 to 3 of an old file. The tests of 1 and 2 are those of the new head.
fn old_head(old: &[u8]) -> Judgement
    ensures { OldHeaded old.now result }
{
    let h = file::read_head(old);
    if h.number == 1 {
        return found(h.number, 0);
    }
    if h.number == 2 {
        return found(h.number, 0);
    }
    let low = widths::wide8(old[4]);
    let high = widths::wide8(old[5]);
    let n = (low + 256 * high) as usize;
    if old.len() != 6 + 16 * n {
        return found(3, 0);
    }
    found(0, n)
}

// Refusals 1 to 8 and 17 of a file.
fn judge(file: &[u8]) -> Judgement
    ensures { Judges file.now result }
{
    let mut policy = policy::room();
    let mut ends = survey::no_ends();
    let s = survey::survey_file(&mut policy, &mut ends, file);
    Judgement {
        number: s.number,
        place: s.place,
        credentials: s.credentials,
    }
}

// The bytes of the new file, and some more after them.
fn new_bytes(old: &[u8], n: usize) -> [u8; 5126]
    requires { OldSized old.now n }
    ensures { (length result ≡ 5126) × (take (6 + 20 * n) result ≡ forward_of old.now) }
{
    let mut new = room();
    write_new(&mut new, old, n);
    new
}

fn room() -> [u8; 5126]
    ensures { length result ≡ 5126 }
{
    [0; 5126]
}

fn write_new(dst: &mut [u8], old: &[u8], n: usize)
    requires fact_1 { OldSized old.now n }
    requires fact_2 { 6 + 20 * n ≤ length dst.old }
    ensures { dst.new ≡ written dst.old 0 (forward_of old.now) }
{
    blocks::copy(dst, 0, &old[..6]);
    blocks::put_statements(dst, old, n);
    blocks::put_periods(dst, 6 + 12 * n, old, 6 + 8 * n, n, 4294967295);
}

fn write_old(dst: &mut [u8], file: &[u8], n: usize)
    requires { (n ≡ N file.now) × (n ≤ 256) × (length file.now ≡ length_for n) × (length dst.old ≡ old_length n) }
    ensures { dst.new ≡ back_of file.now }
{
    blocks::copy(dst, 0, &file[..6]);
    blocks::copy_statements(dst, file, n);
    blocks::put_periods(dst, 6 + 8 * n, file, 6 + 12 * n, n, 1);
}

// The first of n credentials whose serial is not its position plus one, or n.
fn first_out_of_place(file: &[u8], n: usize) -> usize
    requires { (n ≤ 256) × (6 + 12 * n ≤ length file.now) }
    ensures { FirstOut file.now n result }
{
    for i in 0..n {
        if file::serial_at(file, i) as usize != i + 1 {
            return i;
        }
    }
    n
}

fn found(number: u32, credentials: usize) -> Judgement
    ensures { result ≡ record { number = number; place = 0; credentials = credentials } }
{
    Judgement {
        number,
        place: 0,
        credentials,
    }
}

fn refusal(number: u32, place: u32) -> Carried
    ensures { says_carried result ≡ refused number place }
{
    Carried::Refused { number, place }
}

fn counted(n: usize) -> Carried
    requires { n ≤ 256 }
    ensures { says_carried result ≡ done n }
{
    Carried::Credentials(n as u32)
}
