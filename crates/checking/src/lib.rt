// Checking a proof that somebody brings: its level, or a refusal.
#![tactic(auto)]

ghost use Rattle.std.specs.Prelude.{◌≡◌, ◌<◌, ◌≤◌, length};
ghost use Rattle.policy.specs.Policy.{credentials_of};
ghost use Rattle.asking.specs.Asking.{request, step_lists, step_in};
ghost use Rattle.steps.specs.Steps.{step_of};
ghost use Rattle.withdrawals.specs.Source.{◌without◌};
ghost use Rattle.checking.specs.Checking.{checking, says_checked};
ghost use Rattle.checking.specs.Walks.{Walkable, Walked, concluded_by};

use steps::Step;

// The level of a proof that follows the rules, or a refusal.
#[derive(Clone, Copy)]
pub enum Checked {
    Level(u32),
    Refused { number: u32, place: u32 },
}

// How many steps keep the rules before the first that does not; where all do, what the last one shows.
#[derive(Clone, Copy)]
struct Kept {
    count: usize,
    role: u32,
    set: u32,
    level: u32,
}

// Checks the first `steps` steps as a proof of the membership at the minute.
pub fn check(
    file: &[u8],
    withdrawals: &[u8],
    role: u32,
    set: u32,
    minute: u32,
    credential: &[u32],
    first: &[u32],
    second: &[u32],
    sets: &[u32],
    steps: usize,
) -> Checked
    ensures { says_checked result ≡ checking (file.now without withdrawals.now) (request role set minute) (step_lists credential.now first.now second.now sets.now) steps }
{
    let mut policy = policy::room();
    let j = asking::judge(
        &mut policy,
        file,
        withdrawals,
        role,
        set,
        minute,
        credential.len(),
        first.len(),
        second.len(),
        sets.len(),
    );
    if j.number != 0 {
        return Checked::Refused {
            number: j.number,
            place: j.place,
        };
    }
    if !((1 <= steps) & (steps <= credential.len())) {
        return Checked::Refused {
            number: 14,
            place: 0,
        };
    }
    let k = walk(
        &policy,
        j.credentials,
        minute,
        &credential[..steps],
        &first[..steps],
        &second[..steps],
        &sets[..steps],
        steps,
    );
    conclude(k, role, set, steps)
}

// Step i of the lists.
fn step_at(credential: &[u32], first: &[u32], second: &[u32], sets: &[u32], i: usize) -> Step
    requires { (i < length credential.now) × (i < length first.now) × (i < length second.now) × (i < length sets.now) }
    ensures { step_of result ≡ step_in (step_lists credential.now first.now second.now sets.now) i }
{
    Step {
        credential: credential[i],
        first: first[i],
        second: second[i],
        set: sets[i],
    }
}

// The steps one after the other, up to the first that breaks the rules.
fn walk(
    policy: &[u64; 512],
    n: usize,
    minute: u32,
    credential: &[u32],
    first: &[u32],
    second: &[u32],
    sets: &[u32],
    steps: usize,
) -> Kept
    requires { Walkable n (step_lists credential.now first.now second.now sets.now) steps }
    ensures { Walked (credentials_of policy.now n) minute (step_lists credential.now first.now second.now sets.now) steps result }
{
    let mut roles = [0u32; 1024];
    let mut levels = [0u32; 1024];
    for i in 0..steps {
        let s = step_at(credential, first, second, sets, i);
        let x = steps::judge_step(policy, n, minute, i, s, &roles, sets, &levels);
        if !x.holds {
            return Kept {
                count: i,
                role: 0,
                set: 0,
                level: 0,
            };
        }
        roles[i] = x.role;
        levels[i] = x.level;
    }
    let last = steps - 1;
    Kept {
        count: steps,
        role: roles[last],
        set: sets[last],
        level: levels[last],
    }
}

// 15, 16 or the level.
fn conclude(k: Kept, role: u32, set: u32, steps: usize) -> Checked
    requires { k.count ≤ 1024 }
    ensures { says_checked result ≡ concluded_by k role set steps }
{
    if k.count < steps {
        return Checked::Refused {
            number: 15,
            place: k.count as u32,
        };
    }
    if !((k.role == role) & (k.set == set)) {
        return Checked::Refused {
            number: 16,
            place: 0,
        };
    }
    Checked::Level(k.level)
}
