// The credentials file: its credentials as types, its sizes with refusals 1 to 3, and of one credential its serial and its period.
#![tactic(auto)]

ghost use Rattle.std.specs.Prelude.{◌≡◌, ◌+◌, ◌*◌, ◌<◌, ◌≤◌, min, length, ◌&&◌};
ghost use Rattle.meaning.specs.Credentials.{◌·◌};
ghost use Rattle.file.specs.Format.{two, four, N, statement_at, serial_of};
ghost use Rattle.file.specs.Reading.{between, credential_rows};
ghost use Rattle.file.specs.Values.{head_in, no_sizes, first_number, Headed, dates_in, period_in};

// An entity's number; never a role name's.
#[derive(Clone, Copy)]
pub struct Entity(pub u8);

// A role name's number; never an entity's.
#[derive(Clone, Copy)]
pub struct RoleName(pub u8);

#[derive(Clone, Copy)]
pub struct Role {
    pub issuer: Entity,
    pub name: RoleName,
}

// What stands right of the arrow. A set has bit e for entity e.
#[derive(Clone, Copy)]
pub enum Body {
    Set(u32),
    Inclusion(Role),
    Linked(Role, RoleName),
    Intersection(Role, Role),
    Union(Role, Role),
    Disjoint(Role, Role),
}

// A credential with its serial and its period, which may be empty.
#[derive(Clone, Copy)]
pub struct Credential {
    pub serial: u32,
    pub head: Role,
    pub body: Body,
    pub period: Period,
}

// What stands at a position.
#[derive(Clone, Copy)]
pub enum Found {
    Credential(Credential),
    End,
}

// The minutes from `from` up to, not including, `until`.
#[derive(Clone, Copy)]
pub struct Period {
    pub from: u32,
    pub until: u32,
}

impl Period {
    // Its minutes before a minute. None are left where that is `from` or earlier.
    pub fn before(self, minute: u32) -> Period
        ensures { result ≡ record { from = self.from; until = min self.until minute } }
    {
        if self.until <= minute {
            return self;
        }
        Period {
            from: self.from,
            until: minute,
        }
    }
}

// The first and the last minute of a period, as the file has them.
#[derive(Clone, Copy)]
pub struct Dates {
    pub from: u32,
    pub to: u32,
}

// The sizes of a file that passes 1 to 3; otherwise the refusal's number and no sizes.
#[derive(Clone, Copy)]
pub struct Head {
    pub number: u32,
    pub entities: u32,
    pub names: u32,
    pub credentials: usize,
}

// Number and place of a refusal; both 0 where there is none.
#[derive(Clone, Copy)]
pub struct Refusal {
    pub number: u32,
    pub place: u32,
}

// Which of s, c and t a kind uses. Every kind uses b.
#[derive(Clone, Copy)]
pub struct Used {
    pub s: bool,
    pub c: bool,
    pub t: bool,
}

// Refusals 1 to 3, and the sizes.
pub fn read_head(file: &[u8]) -> Head
    ensures { result ≡ head_in file.now }
{
    if file.len() < 6 {
        return no_sizes(1);
    }
    let entities = two_at(file, 0);
    let names = two_at(file, 2);
    let credentials = two_at(file, 4);
    if !sizes_fit(entities, names, credentials) {
        return no_sizes(2);
    }
    let n = credentials as usize;
    if file.len() != 6 + 20 * n {
        return no_sizes(3);
    }
    Head {
        number: 0,
        entities,
        names,
        credentials: n,
    }
}

// The serial of credential i.
pub fn serial_at(file: &[u8], i: usize) -> u32
    requires { statement_at i + 12 ≤ length file.now }
    ensures { result ≡ serial_of file.now i }
{
    four_at(file, 14 + 12 * i)
}

// From and to of credential i.
pub fn dates_at(file: &[u8], h: Head, i: usize) -> Dates
    requires { (Headed file.now h) × (i < N file.now) }
    ensures { result ≡ dates_in file.now i }
{
    let n = h.credentials;
    let p = 6 + 12 * n + 8 * i;
    Dates {
        from: four_at(file, p),
        to: four_at(file, p + 4),
    }
}

// The period of credential i, which passes 4 to 7, so that to + 1 has 32 bits.
pub fn read_period(file: &[u8], h: Head, i: usize) -> Period
    requires { (Headed file.now h) × (i < N file.now) × (first_number (credential_rows file.now i) ≡ 0) }
    ensures { result ≡ period_in file.now i }
{
    let v = dates_at(file, h, i);
    Period {
        from: v.from,
        until: v.to + 1,
    }
}

// A role as a number.
pub fn role_number(issuer: Entity, name: RoleName) -> u32
    ensures { (result ≡ issuer.0 · name.0) × (result < 8448) }
{
    widths::wide8(issuer.0) * 32 + widths::wide8(name.0)
}

// Two bytes from p on, and four, lowest first.
pub fn two_at(file: &[u8], p: usize) -> u32
    requires { p + 2 ≤ length file.now }
    ensures { (result ≡ two file.now p) × (result < 65536) }
{
    let low = widths::wide8(file[p]);
    let high = widths::wide8(file[p + 1]);
    low + 256 * high
}

pub fn four_at(file: &[u8], p: usize) -> u32
    requires { p + 4 ≤ length file.now }
    ensures { result ≡ four file.now p }
{
    let low = two_at(file, p);
    let high = two_at(file, p + 2);
    low + 65536 * high
}

// The sizes are within the limits of refusal 2.
fn sizes_fit(entities: u32, names: u32, credentials: u32) -> bool
    ensures { result ≡ (between 1 32 entities && between 1 32 names && between 0 256 credentials) }
{
    ((1 <= entities) & (entities <= 32)) & ((1 <= names) & (names <= 32)) & (credentials <= 256)
}

fn no_sizes(number: u32) -> Head
    ensures { result ≡ no_sizes number }
{
    Head {
        number,
        entities: 0,
        names: 0,
        credentials: 0,
    }
}
