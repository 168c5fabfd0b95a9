// A request of querying and checking: role, set and minute, with four lists of proof steps; refusals 1 to 9, 11, 12, 17, 20 and 21.
#![tactic(auto)]

ghost use Rattle.std.specs.Prelude.{◌≡◌, ◌&&◌, ◌/◌, ◌%◌, ◌^◌, ◌≤◌, eqb, ltb};
ghost use Rattle.file.specs.Reading.{between};
ghost use Rattle.withdrawals.specs.Source.{◌without◌};
ghost use Rattle.asking.specs.Asking.{request, StepLists, Sized};
ghost use Rattle.asking.specs.Admitting.{Admits};

// Number and place of the first refusal of 1 to 9, 11, 12, 17, 20 and 21; where there is none, 0 and 0, and how many credentials the policy then has.
#[derive(Clone, Copy)]
pub struct Admission {
    pub number: u32,
    pub place: u32,
    pub credentials: usize,
}

// Refusals 1 to 9, 11, 12, 17, 20 and 21, for lists of so many steps; where there is none, the policy then has the credentials, their periods cut.
pub fn judge(
    policy: &mut [u64; 512],
    file: &[u8],
    withdrawals: &[u8],
    role: u32,
    set: u32,
    minute: u32,
    credential: usize,
    first: usize,
    second: usize,
    sets: usize,
) -> Admission
    ensures { (t : StepLists) → Sized t credential first second sets → Admits (file.now without withdrawals.now) (request role set minute) t policy.new result }
{
    let mut ends = survey::no_ends();
    let s = survey::survey(policy, &mut ends, file, withdrawals);
    if s.number != 0 {
        return refused(s.number, s.place);
    }
    if !one_length(credential, first, second, sets) {
        return refused(9, 0);
    }
    if !(within(s.entities, s.names, role, set) & (set != 0)) {
        return refused(11, 0);
    }
    if minute == 4294967295 {
        return refused(12, 0);
    }
    Admission {
        number: 0,
        place: 0,
        credentials: s.credentials,
    }
}

// Four lengths that are the same, 1 to 1,024.
fn one_length(credential: usize, first: usize, second: usize, sets: usize) -> bool
    ensures { result ≡ (eqb first credential && eqb second credential && eqb sets credential && between 1 1024 credential) }
{
    (first == credential)
        & (second == credential)
        & (sets == credential)
        & ((1 <= credential) & (credential <= 1024))
}

// The role and the set are within the file's numbers.
fn within(entities: u32, names: u32, role: u32, set: u32) -> bool
    requires { entities ≤ 32 }
    ensures { result ≡ (ltb (role / 32) entities && ltb (role % 32) names && ltb set (2 ^ entities)) }
{
    (role / 32 < entities) & (role % 32 < names) & ((set as u64) < 1u64 << entities)
}

fn refused(number: u32, place: u32) -> Admission
    ensures { result ≡ record { number = number; place = place; credentials = 0 } }
{
    Admission {
        number,
        place,
        credentials: 0,
    }
}
