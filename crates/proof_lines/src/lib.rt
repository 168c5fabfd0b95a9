// Proof steps as lines of text.
#![tactic(auto)]

ghost use Rattle.std.specs.Prelude.{◌≡◌, [], ◌∷◌, ◌++◌, ◌+◌, ◌≤◌, length, take};
ghost use Rattle.proof_lines.specs.StepLines.{membership_text, cited_by, from_text, step_line};

use file::{Body, Credential, Role};
use text::Text;

// The four words of a proof step.
#[derive(Clone, Copy)]
pub struct Step {
    pub credential: u32,
    pub first: u32,
    pub second: u32,
    pub set: u32,
}

// Number, what the step shows, by which credential, from which steps. c is the credential that the step names.
pub fn step_line(number: u32, s: Step, c: Credential) -> Text<128>
    ensures { result ≡ step_line number s c }
{
    let mut out = Text::new();
    out.put_field(number, b':');
    out.put_byte(b' ');
    put_membership(&mut out, c.head, s.set);
    out.put_bytes(b"by credential ");
    out.put_decimal(s.credential);
    put_cited(&mut out, cites(c.body), s.first, s.second);
    out
}

// Issuer, name, set.
fn put_membership(out: &mut Text<128>, role: Role, set: u32)
    requires { length out.old + 33 ≤ 128 }
    ensures text { out.new ≡ out.old ++ membership_text role set }
    ensures within { length out.new ≤ length out.old + 33 }
{
    out.put_field(role.issuer.0 as u32, b' ');
    out.put_field(role.name.0 as u32, b' ');
    out.put_field(set, b' ');
}

// How many steps a step of this body cites.
fn cites(body: Body) -> u32
    ensures { result ≡ cited_by body }
{
    match body {
        Body::Set(_) => 0,
        Body::Inclusion(_) => 1,
        Body::Linked(_, _) | Body::Intersection(_, _) | Body::Union(_, _) | Body::Disjoint(_, _) =>
            2,
    }
}

// The first `count` of two cited steps.
fn put_cited(out: &mut Text<128>, count: u32, first: u32, second: u32)
    requires { length out.old + 28 ≤ 128 }
    ensures text { out.new ≡ out.old ++ from_text (take count (first ∷ second ∷ [])) }
{
    if count == 0 {
        out.put_byte(b'\n');
        return;
    }
    out.put_bytes(b" from ");
    if count == 1 {
        out.put_field(first, b'\n');
        return;
    }
    out.put_field(first, b' ');
    out.put_field(second, b'\n');
}
