// Credentials as lines of text, in document 01's notation (UTF-8).
#![tactic(auto)]

ghost use Rattle.std.specs.Prelude.{◌++◌, ◌≡◌, ◌+◌, ◌-◌, ◌≤◌, length};
ghost use Rattle.notation.specs.Notation.{role_text, linked_text, body_text, statement_text, serial_text, period_text, credential_line};

use file::{Body, Credential, Period, Role, RoleName};
use text::Text;

// Position, #serial, head, body, period.
pub fn credential_line(position: u32, c: Credential) -> Text<128>
    ensures { result ≡ credential_line position c }
{
    let mut out = Text::new();
    out.put_field(position, b':');
    out.put_byte(b' ');
    put_serial(&mut out, c.serial);
    put_statement(&mut out, c.head, c.body);
    out.put_bytes(b", ");
    put_period(&mut out, c.period);
    out
}

// #serial, a comma and a space
fn put_serial(out: &mut Text<128>, serial: u32)
    requires { length out.old + 13 ≤ 128 }
    ensures text { out.new ≡ out.old ++ serial_text serial }
    ensures within { length out.new ≤ length out.old + 13 }
{
    out.put_byte(b'#');
    out.put_field(serial, b',');
    out.put_byte(b' ');
}

// A.r
fn put_role(out: &mut Text<128>, role: Role)
    requires { length out.old + 21 ≤ 128 }
    ensures text { out.new ≡ out.old ++ role_text role }
    ensures within { length out.new ≤ length out.old + 21 }
{
    out.put_field(role.issuer.0 as u32, b'.');
    out.put_decimal(role.name.0 as u32);
}

// b.s.t
fn put_linked(out: &mut Text<128>, role: Role, name: RoleName)
    requires { length out.old + 32 ≤ 128 }
    ensures text { out.new ≡ out.old ++ linked_text role name }
    ensures within { length out.new ≤ length out.old + 32 }
{
    put_role(out, role);
    out.put_byte(b'.');
    out.put_decimal(name.0 as u32);
}

// Two roles with a sign between them.
fn put_joined(out: &mut Text<128>, first: Role, sign: [u8; 5], second: Role)
    requires { length out.old + 47 ≤ 128 }
    ensures text { out.new ≡ out.old ++ (role_text first ++ (sign ++ role_text second)) }
    ensures within { length out.new ≤ length out.old + 47 }
{
    put_role(out, first);
    out.put_bytes(&sign);
    put_role(out, second);
}

// What stands right of the arrow. A set of one is written as its entity, the number of zeros below its bit; the signs are ∩, ⊙ and ⊗.
fn put_body(out: &mut Text<128>, body: Body)
    requires { length out.old + 47 ≤ 128 }
    ensures text { out.new ≡ out.old ++ body_text body }
    ensures within { length out.new ≤ length out.old + 47 }
{
    match body {
        Body::Set(x) => out.put_decimal(u32::trailing_zeros(x)),
        Body::Inclusion(b) => put_role(out, b),
        Body::Linked(b, t) => put_linked(out, b, t),
        Body::Intersection(b, c) => put_joined(out, b, [b' ', 0xE2, 0x88, 0xA9, b' '], c),
        Body::Union(b, c) => put_joined(out, b, [b' ', 0xE2, 0x8A, 0x99, b' '], c),
        Body::Disjoint(b, c) => put_joined(out, b, [b' ', 0xE2, 0x8A, 0x97, b' '], c),
    }
}

fn put_statement(out: &mut Text<128>, head: Role, body: Body)
    requires { length out.old + 73 ≤ 128 }
    ensures text { out.new ≡ out.old ++ statement_text head body }
    ensures within { length out.new ≤ length out.old + 73 }
{
    put_role(out, head);
    out.put_bytes(b" \xE2\x86\x90 ");
    put_body(out, body);
}

// from..to, with the last minute of a period that has minutes
fn put_period(out: &mut Text<128>, period: Period)
    requires { length out.old + 23 ≤ 128 }
    ensures text { out.new ≡ out.old ++ period_text period }
    ensures within { length out.new ≤ length out.old + 23 }
{
    let to = period.until.saturating_sub(1);
    out.put_field(period.from, b'.');
    out.put_byte(b'.');
    out.put_field(to, b'\n');
}
