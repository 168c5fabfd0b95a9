// One step of a proof, by the policy and the steps before it.
#![tactic(auto)]

ghost use Rattle.std.specs.Prelude.{◌≡◌, ◌&&◌, ◌<◌, ◌≤◌, max, eqb, length};
ghost use Rattle.meaning.specs.Credentials.{◌·◌};
ghost use Rattle.meaning.specs.Members.{entity, single};
ghost use Rattle.meaning.specs.Proofs.{follows};
ghost use Rattle.policy.specs.Policy.{credentials_of, body_of};
ghost use Rattle.steps.specs.Steps.{step_of, unkept, shown_of, shown_at, shown_in, Known, Decides, Judges};

use policy::Statement;

// A credential, the first and the second cited step, and the resulting set.
#[derive(Clone, Copy)]
pub struct Step {
    pub credential: u32,
    pub first: u32,
    pub second: u32,
    pub set: u32,
}

// Whether a step keeps the rules; if so, its role and its level.
#[derive(Clone, Copy)]
pub struct Judged {
    pub holds: bool,
    pub role: u32,
    pub level: u32,
}

// The membership that an earlier step shows, and its level.
#[derive(Clone, Copy)]
struct Cited {
    role: u32,
    set: u32,
    level: u32,
}

// Step i, after those before it, by the policy's first n credentials.
pub fn judge_step(
    policy: &[u64; 512],
    n: usize,
    minute: u32,
    i: usize,
    s: Step,
    roles: &[u32; 1024],
    sets: &[u32],
    levels: &[u32; 1024],
) -> Judged
    requires fact_1 { n ≤ 256 }
    requires fact_2 { Known sets.now levels.now i }
    ensures { Judges (credentials_of policy.now n) minute (shown_in roles.now sets.now levels.now i) (step_of s) result }
{
    let at = s.credential as usize;
    if n <= at {
        return broken();
    }
    if !policy::valid_at(policy, at, minute) {
        return broken();
    }
    judge_by(policy::statement_at(policy, at), i, s, roles, sets, levels)
}

fn broken() -> Judged
    ensures { result ≡ unkept }
{
    Judged {
        holds: false,
        role: 0,
        level: 0,
    }
}

// What step j shows.
fn cite(j: usize, roles: &[u32; 1024], sets: &[u32], levels: &[u32; 1024]) -> Cited
    requires { (j < 1024) × (j < length sets.now) }
    ensures { shown_of result ≡ shown_at roles.now sets.now levels.now j }
{
    Cited {
        role: roles[j],
        set: sets[j],
        level: levels[j],
    }
}

fn higher(a: u32, b: u32) -> u32
    ensures { result ≡ max a b }
{
    if a < b { b } else { a }
}

// The set has exactly one entity C, and the role is C.t.
fn linked(set: u32, role: u32, t: u32) -> bool
    requires { t < 1024 }
    ensures { result ≡ (single set && eqb role (entity set · t)) }
{
    (u32::count_ones(set) == 1) & (role == u32::trailing_zeros(set) * 32 + t)
}

// The set is what a body of kind 2 to 5 gives from the cited memberships.
fn joined(b: Statement, p: Cited, q: Cited, set: u32) -> bool
    requires { (1 < b.kind) × (b.second < 1024) }
    ensures { result ≡ follows (body_of b) (shown_of p) (shown_of q) set }
{
    let kind = b.kind;
    let left = p.role == b.first;
    let right = q.role == b.second;
    let x = p.set;
    let y = q.set;
    match kind {
        2 => left & linked(x, q.role, b.second) & (set == y),
        3 => left & right & (x == y) & (set == x),
        4 => left & right & (set == x | y),
        _ => left & right & (x & y == 0) & (set == x | y),
    }
}

// A step of kind 0 cites nothing.
fn by_none(b: Statement, s: Step) -> Judged
    ensures { result ≡ record { holds = eqb s.first 0 && eqb s.second 0 && eqb s.set b.set; role = b.head; level = 1 } }
{
    Judged {
        holds: (s.first == 0) & (s.second == 0) & (s.set == b.set),
        role: b.head,
        level: 1,
    }
}

// A step of kind 1 cites one earlier step.
fn by_one(
    b: Statement,
    i: usize,
    s: Step,
    roles: &[u32; 1024],
    sets: &[u32],
    levels: &[u32; 1024],
) -> Judged
    requires fact_1 { b.kind ≡ 1 }
    requires fact_2 { Known sets.now levels.now i }
    ensures { Decides b (shown_in roles.now sets.now levels.now i) (step_of s) result }
{
    let j = s.first as usize;
    if i <= j {
        return broken();
    }
    let p = cite(j, roles, sets, levels);
    Judged {
        holds: (s.second == 0) & ((p.role == b.first) & (s.set == p.set)),
        role: b.head,
        level: 1 + p.level,
    }
}

// A step of kind 2 to 5 cites two, which may be the same.
fn by_two(
    b: Statement,
    i: usize,
    s: Step,
    roles: &[u32; 1024],
    sets: &[u32],
    levels: &[u32; 1024],
) -> Judged
    requires fact_1 { (1 < b.kind) × (b.second < 1024) }
    requires fact_2 { Known sets.now levels.now i }
    ensures { Decides b (shown_in roles.now sets.now levels.now i) (step_of s) result }
{
    let j = s.first as usize;
    let k = s.second as usize;
    if i <= j {
        return broken();
    }
    if i <= k {
        return broken();
    }
    let p = cite(j, roles, sets, levels);
    let q = cite(k, roles, sets, levels);
    Judged {
        holds: joined(b, p, q, s.set),
        role: b.head,
        level: 1 + higher(p.level, q.level),
    }
}

// A step by its statement, whose credential is valid.
fn judge_by(
    b: Statement,
    i: usize,
    s: Step,
    roles: &[u32; 1024],
    sets: &[u32],
    levels: &[u32; 1024],
) -> Judged
    requires fact_1 { b.second < 1024 }
    requires fact_2 { Known sets.now levels.now i }
    ensures { Decides b (shown_in roles.now sets.now levels.now i) (step_of s) result }
{
    let kind = b.kind;
    match kind {
        0 => by_none(b, s),
        1 => by_one(b, i, s, roles, sets, levels),
        _ => by_two(b, i, s, roles, sets, levels),
    }
}
