// The spans that a credential's period covers, as the bits of a number.
// The spans begin at the first `count` ends; one end is one span, in which a credential is valid that is valid at that minute.
#![tactic(auto)]

ghost use Rattle.std.specs.Prelude.{◌≡◌, ◌-◌, ◌^◌, ◌<◌};
ghost use Rattle.meaning.specs.Table.{digit};
ghost use Rattle.policy.specs.Policy.{credential_of};
ghost use Rattle.masks.specs.Masks.{Spans, Masked};

// The spans that the period at position i covers.
pub fn mask_at(policy: &[u64; 512], ends: &[u32; 64], count: usize, i: usize) -> u64
    requires fact_1 { Spans ends.now count }
    requires fact_2 { i < 256 }
    ensures { Masked ends.now count (credential_of policy.now i).period result }
{
    if count == 1 {
        return first_span(policy::valid_at(policy, i, ends[0]));
    }
    let t = policy::period_at(policy, i);
    span_mask(ends, count, t.from, t.until)
}

// Span 0, or none.
fn first_span(valid: bool) -> u64
    ensures { result ≡ digit valid }
{
    if valid {
        return 1;
    }
    0
}

// The spans of the first n that a period covers: those that begin at its first end or later, and before its last.
fn span_mask(ends: &[u32; 64], n: usize, from: u32, until: u32) -> u64
    requires { Spans ends.now n }
    ensures { Masked ends.now n (record { from = from; until = until }) result }
{
    let p = survey::first_at(ends, n, from);
    let q = survey::first_at(ends, n, until);
    spans_between(p, q)
}

// The spans from p up to q, without q.
fn spans_between(p: usize, q: usize) -> u64
    requires { (p < 64) × (q < 64) }
    ensures { result ≡ 2 ^ q - 2 ^ p }
{
    if q <= p {
        return 0;
    }
    (1u64 << q) - (1u64 << p)
}
