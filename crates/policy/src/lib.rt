// A file that passes 1 to 7 and 17, decoded once: for each credential two numbers, its statement and its period.
#![tactic(auto)]

ghost use Rattle.std.specs.Prelude.{◌≡◌, ◌+◌, ◌*◌, ◌<◌, ◌≤◌, length, set};
ghost use Rattle.meaning.specs.Credentials.{◌·◌, covers};
ghost use Rattle.file.specs.Format.{N, byte, statement_at, field};
ghost use Rattle.file.specs.Values.{Headed};
ghost use Rattle.serials.specs.Serials.{Greatest};
ghost use Rattle.policy.specs.Policy.{credential_of, statement_in, period_in, PeriodPut, Decodes};
ghost use Rattle.policy.specs.Steps.{body_at, word_in, period_number, stored, OneDecoded, AllDecoded};

use file::{Entity, Head, Period, Refusal, RoleName};

// Number and place of the refusal, or 0, 0 and the sizes of a file that passes 1 to 7 and 17.
#[derive(Clone, Copy)]
pub struct Sizes {
    pub number: u32,
    pub place: u32,
    pub entities: u32,
    pub names: u32,
    pub credentials: usize,
}

// A statement's kind and head, and what the kind makes its body of: kind 0 the set, every other the first role, kinds from 2 on also the second role or the name.
// What the kind does not use is not read.
#[derive(Clone, Copy)]
pub struct Statement {
    pub kind: u32,
    pub head: u32,
    pub set: u32,
    pub first: u32,
    pub second: u32,
}

// Room for a policy.
pub fn room() -> [u64; 512]
    ensures { length result ≡ 512 }
{
    [0; 512]
}

// Refusals 1 to 7 and 17; where there is none, the policy then has the file's credentials.
pub fn decode(policy: &mut [u64; 512], file: &[u8]) -> Sizes
    ensures { Decodes file.now policy.new result }
{
    let h = file::read_head(file);
    if h.number != 0 {
        return refused(h.number, 0);
    }
    let j = decode_all(policy, file, h);
    if j.number != 0 {
        return refused(j.number, j.place);
    }
    Sizes {
        number: 0,
        place: 0,
        entities: h.entities,
        names: h.names,
        credentials: h.credentials,
    }
}

// The statement at position i.
pub fn statement_at(policy: &[u64; 512], i: usize) -> Statement
    requires { i < 256 }
    ensures { result ≡ statement_in policy.now i }
{
    let w = widths::whole(policy[2 * i]);
    let body = w % 4294967296;
    Statement {
        kind: (w / 4398046511104) as u32,
        head: (w / 4294967296 % 1024) as u32,
        set: body as u32,
        first: (body / 1024) as u32,
        second: (body % 1024) as u32,
    }
}

// The period at position i.
pub fn period_at(policy: &[u64; 512], i: usize) -> Period
    requires { i < 256 }
    ensures { result ≡ period_in policy.now i }
{
    let v = widths::whole(policy[2 * i + 1]);
    Period {
        from: (v / 4294967296) as u32,
        until: (v % 4294967296) as u32,
    }
}

// Puts a period at position i.
pub fn put_period(policy: &mut [u64; 512], i: usize, v: Period)
    requires { i < 256 }
    ensures { PeriodPut policy.old policy.new i v }
{
    let period = period_word(v);
    put_number(policy, i, period);
}

// Whether the credential at position i is valid at the minute.
pub fn valid_at(policy: &[u64; 512], i: usize, minute: u32) -> bool
    requires { i < 256 }
    ensures { result ≡ covers (credential_of policy.now i).period minute }
{
    let v = period_at(policy, i);
    (v.from <= minute) & (minute < v.until)
}

// A refusal, and no sizes.
fn refused(number: u32, place: u32) -> Sizes
    ensures { result ≡ record { number = number; place = place; entities = 0; names = 0; credentials = 0 } }
{
    Sizes {
        number,
        place,
        entities: 0,
        names: 0,
        credentials: 0,
    }
}

// The role of two bytes as a number.
fn role_at(file: &[u8], p: usize) -> u64
    requires { p + 2 ≤ length file.now }
    ensures { (result ≡ byte file.now p · byte file.now (p + 1)) × (result < 8448) }
{
    file::role_number(Entity(file[p]), RoleName(file[p + 1])) as u64
}

// The body of b, s, c, t as a number. Bytes that the kind does not use are zero.
fn body_at(file: &[u8], kind: u64, p: usize) -> u64
    requires { (p + 4 ≤ length file.now) × (byte file.now p < 32) }
    ensures { (result ≡ body_at file.now kind p) × (result < 4294967296) }
{
    if kind == 0 {
        return 1u64 << widths::wide8(file[p]);
    }
    role_at(file, p) * 1024 + role_at(file, p + 2)
}

// The statement of credential i as a number.
fn word_at(file: &[u8], i: usize) -> u64
    requires { (statement_at i + 8 ≤ length file.now) × (field file.now i 3 < 32) }
    ensures { result ≡ word_in file.now i }
{
    let at = 6 + 12 * i;
    let kind = widths::wide8(file[at]) as u64;
    let head = role_at(file, at + 1);
    let body = body_at(file, kind, at + 3);
    kind * 4398046511104 + head * 4294967296 + body
}

// A period as a number.
fn period_word(v: Period) -> u64
    ensures { (result ≡ period_number v.from v.until) × (v.until < 4294967296) }
{
    v.from as u64 * 4294967296 + v.until as u64
}

// Puts the numbers of credential i into the list, lent as a slice, whose length is known.
fn put(policy: &mut [u64], i: usize, statement: u64, period: u64)
    requires { (length policy.old ≡ 512) × (i < 256) }
    ensures { policy.new ≡ stored policy.old i statement period }
{
    policy[2 * i] = statement;
    policy[2 * i + 1] = period;
}

// Puts the number of a period at position i.
fn put_number(policy: &mut [u64], i: usize, period: u64)
    requires { (length policy.old ≡ 512) × (i < 256) }
    ensures { policy.new ≡ set policy.old (2 * i + 1) period }
{
    policy[2 * i + 1] = period;
}

// Stores credential i and returns 0, or returns the number of the first of refusals 4 to 7 and 17 that it has. `greatest` is the greatest serial before it.
fn decode_one(policy: &mut [u64; 512], file: &[u8], h: Head, i: usize, greatest: u32) -> u32
    requires fact_1 { (Headed file.now h) × (i < N file.now) }
    requires fact_2 { Greatest file.now i greatest }
    ensures { OneDecoded file.now i policy.old policy.new result }
{
    let fault = faults::fault(file, h, i);
    if fault != 0 {
        return fault;
    }
    if serials::taken(file, i, greatest) {
        return 17;
    }
    let statement = word_at(file, i);
    let period = period_word(file::read_period(file, h, i));
    put(policy, i, statement, period);
    0
}

// Stores all credentials, in file order, up to the first that is refused.
fn decode_all(policy: &mut [u64; 512], file: &[u8], h: Head) -> Refusal
    requires { Headed file.now h }
    ensures { AllDecoded file.now policy.new result }
{
    let n = h.credentials;
    let mut greatest = 0;
    let mut i = 0;
    while i < n {
        let number = decode_one(policy, file, h, i, greatest);
        if number != 0 {
            return Refusal {
                number,
                place: i as u32,
            };
        }
        greatest = serials::greatest_with(file, i, greatest);
        i += 1;
    }
    Refusal {
        number: 0,
        place: 0,
    }
}
