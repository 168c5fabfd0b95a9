// Checking on bytes.
#![tactic(auto)]

ghost use Rattle.std.specs.Prelude.{◌≡◌, ◌*◌, ◌≤◌, min, length, take};
ghost use Rattle.asking.specs.Asking.{request, step_lists};
ghost use Rattle.checking.specs.Checking.{says_checked};
ghost use Rattle.codec.specs.Bytes.{first_entries};
ghost use Rattle.replies.specs.Interface.{word};
ghost use Rattle.replies.specs.Lengths.{StepSizes};
ghost use Rattle.withdrawals.specs.Source.{◌without◌};
ghost use Rattle.check_bytes.specs.Interface.{check_reply};

use checking::Checked;

// Of n entries each; those past the step count are not read.
pub fn check(
    file: &[u8],
    withdrawals: &[u8],
    role: u32,
    set: u32,
    minute: u32,
    credential: &[u8],
    first: &[u8],
    second: &[u8],
    sets: &[u8],
    steps: usize,
    n: usize,
) -> u64
    requires { StepSizes (step_lists credential.now first.now second.now sets.now) n }
    ensures { result ≡ word (λ n. n) (check_reply (file.now without withdrawals.now) (request role set minute) (step_lists credential.now first.now second.now sets.now) steps) }
{
    let count = fewer(steps, n);
    let mut credential_room = replies::room32();
    let mut first_room = replies::room32();
    let mut second_room = replies::room32();
    let mut set_room = replies::room32();
    read(&mut credential_room, credential, count);
    read(&mut first_room, first, count);
    read(&mut second_room, second, count);
    read(&mut set_room, sets, count);
    number_of(checking::check(
        file,
        withdrawals,
        role,
        set,
        minute,
        &credential_room[..n],
        &first_room[..n],
        &second_room[..n],
        &set_room[..n],
        steps,
    ))
}

fn number_of(answer: Checked) -> u64
    ensures { result ≡ word (λ n. n) (says_checked answer) }
{
    match answer {
        Checked::Level(level) => level as u64,
        Checked::Refused { number, place } => replies::refusal(number, place),
    }
}

fn fewer(a: usize, b: usize) -> usize
    ensures { result ≡ min a b }
{
    if a < b { a } else { b }
}

// Reads the first n entries into a list of 1,024 places.
fn read(room: &mut [u32; 1024], bytes: &[u8], n: usize)
    requires { (length room.old ≡ 1024) × (n ≤ 1024) × (4 * n ≤ length bytes.now) }
    ensures { (length room.new ≡ 1024) × (take n room.new ≡ first_entries 4 n bytes.now) }
{
    codec::decode32(room, bytes, n);
}
