// Loading the bodies of a policy's credentials, other than sets, into the lists of uses, each in the spans that its credential's period covers.
#![tactic(auto)]

ghost use Rattle.std.specs.Prelude.{◌≡◌, ◌<◌};
ghost use Rattle.policy.specs.Policy.{credential_of, statement_in, Decoded, body_of};
ghost use Rattle.masks.specs.Masks.{Spans};
ghost use Rattle.loading.specs.Lists.{NoUsesIn, UsesLoadedIn, RoomIn, UsesAddedIn};
ghost use Rattle.loading.specs.Steps.{InFormat, first_use, second_use, BodyUses, UseOf};

use policy::Statement;
use rules::{Use, UseLists};

// The uses of all credentials that are valid in some span, each head with its source.
pub fn load_uses(uses: &mut UseLists, policy: &[u64; 512], n: usize, ends: &[u32; 64], count: usize)
    requires decoded { Decoded policy.now n }
    requires spans { Spans ends.now count }
    requires none { NoUsesIn uses.old }
    ensures { UsesLoadedIn policy.now n ends.now count uses.new }
{
    for i in 0..n {
        load_use(uses, policy, ends, count, i);
    }
}

// The uses of the credential at position i.
fn load_use(uses: &mut UseLists, policy: &[u64; 512], ends: &[u32; 64], count: usize, i: usize)
    requires room { RoomIn 2 uses.old }
    requires spans { Spans ends.now count }
    requires format { (i < 256) × InFormat (statement_in policy.now i) }
    ensures { UsesAddedIn 2 (UseOf ends.now count i (credential_of policy.now i)) uses.old uses.new }
{
    let s = policy::statement_at(policy, i);
    if s.kind == 0 {
        return;
    }
    let v = masks::mask_at(policy, ends, count, i);
    if v == 0 {
        return;
    }
    add_uses(uses, s, v, i as u16);
}

// The uses of a statement by its first premise and by its second, in spans v.
fn add_uses(uses: &mut UseLists, s: Statement, v: u64, i: u16)
    requires room { RoomIn 2 uses.old }
    requires format { InFormat s }
    requires some { (i < 256) × (s.kind ≡ 0 → ⊥) × (v ≡ 0 → ⊥) }
    ensures { UsesAddedIn 2 (BodyUses (body_of s) s.head v i) uses.old uses.new }
{
    listing::add_use(uses, first_of(s), v, i);
    if s.kind == 1 {
        return;
    }
    listing::add_use(uses, second_of(s), v, i + 256);
}

// The use by the first premise.
fn first_of(s: Statement) -> Use
    requires format { InFormat s }
    requires some { (s.kind ≡ 0 → ⊥) }
    ensures { result ≡ first_use s }
{
    if s.kind == 1 {
        return Use {
            family: s.first,
            kind: 1,
            other: 0,
            head: s.head,
        };
    }
    Use {
        family: s.first,
        kind: s.kind,
        other: s.second,
        head: s.head,
    }
}

// The use by the second premise.
fn second_of(s: Statement) -> Use
    requires format { InFormat s }
    requires some { (s.kind ≡ 0 → ⊥) × (s.kind ≡ 1 → ⊥) }
    ensures { result ≡ second_use s }
{
    if s.kind == 2 {
        return Use {
            family: 1024 + s.second,
            kind: 2,
            other: s.first,
            head: s.head,
        };
    }
    Use {
        family: s.second,
        kind: s.kind,
        other: s.first,
        head: s.head,
    }
}
