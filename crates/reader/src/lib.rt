// One credential of a file as a value.
#![tactic(auto)]

ghost use Rattle.std.specs.Prelude.{◌≡◌, ◌<◌, ◌≤◌};
ghost use Rattle.std.proofs.Math.Option.{some};
ghost use Rattle.file.specs.Format.{N, role_of, joined_of, body_of, body_in};
ghost use Rattle.file.specs.Reading.{credential_rows};
ghost use Rattle.file.specs.Values.{first_number, Headed, found, found_of, found_in};

use file::{Body, Credential, Entity, Found, Head, Role, RoleName};

// The credential at a position, if the head passes 1 to 3 and the credential 4 to 7.
pub fn read_credential(file: &[u8], i: usize) -> Found
    ensures { result ≡ found_in file.now i }
{
    let h = file::read_head(file);
    let n = h.credentials;
    if h.number != 0 {
        return Found::End;
    }
    if n <= i {
        return Found::End;
    }
    if faults::fault(file, h, i) != 0 {
        return Found::End;
    }
    Found::Credential(value_at(file, h, i))
}

fn role_of(issuer: u8, name: u8) -> Role
    ensures { result ≡ role_of issuer name }
{
    Role {
        issuer: Entity(issuer),
        name: RoleName(name),
    }
}

// The body of a two-role kind.
fn joined(kind: u8, first: Role, second: Role) -> Body
    requires { (3 ≤ kind) × (kind ≤ 5) }
    ensures { joined_of kind first second ≡ some result }
{
    match kind {
        3 => Body::Intersection(first, second),
        4 => Body::Union(first, second),
        5 => Body::Disjoint(first, second),
        _ => Body::Set(0),
    }
}

// The body of a kind from 0 to 5; the last arm is not reached.
fn body_of(kind: u8, b: u8, s: u8, c: u8, t: u8) -> Body
    requires { (kind ≤ 5) × (b < 32) }
    ensures { body_of kind b s c t ≡ some result }
{
    match kind {
        0 => Body::Set(1u32 << b),
        1 => Body::Inclusion(role_of(b, s)),
        2 => Body::Linked(role_of(b, s), RoleName(t)),
        3..=5 => joined(kind, role_of(b, s), role_of(c, t)),
        _ => Body::Set(0),
    }
}

fn value_at(file: &[u8], h: Head, i: usize) -> Credential
    requires { (Headed file.now h) × (i < N file.now) × (first_number (credential_rows file.now i) ≡ 0) }
    ensures { found result ≡ found_of file.now i (body_in file.now i) }
{
    let at = 6 + 12 * i;
    let v = file::read_period(file, h, i);
    Credential {
        serial: file::serial_at(file, i),
        head: role_of(file[at + 1], file[at + 2]),
        body: body_of(
            file[at],
            file[at + 3],
            file[at + 4],
            file[at + 5],
            file[at + 6],
        ),
        period: v,
    }
}
