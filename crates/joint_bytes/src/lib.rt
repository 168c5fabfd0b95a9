// The three calls for C together: one function that makes them, with demand 3 on bytes as its contract.
#![tactic(auto)]

ghost use Rattle.std.specs.Prelude.{◌≡◌};
ghost use Rattle.asking.specs.Asking.{request, step_lists};
ghost use Rattle.completing.specs.Completing.{lent};
ghost use Rattle.withdrawals.specs.Source.{◌without◌};
ghost use Rattle.joint_bytes.specs.Calls.{TogetherBytes, steps_of};

// What the three calls replied.
#[derive(Clone, Copy)]
pub struct Replies {
    pub completed: u64,
    pub queried: u64,
    pub checked: u64,
}

// Completes the table, queries the membership, and checks the proof in the bytes as querying left them.
pub fn ask(
    file: &[u8],
    withdrawals: &[u8],
    roles: &mut [u8],
    sets: &mut [u8],
    spans: &mut [u8],
    role: u32,
    set: u32,
    minute: u32,
    credential: &mut [u8],
    first: &mut [u8],
    second: &mut [u8],
    results: &mut [u8],
) -> Replies
    ensures { TogetherBytes (file.now without withdrawals.now) (request role set minute) (lent roles.old sets.old spans.old) (lent roles.new sets.new spans.new) (step_lists credential.old first.old second.old results.old) (step_lists credential.new first.new second.new results.new) result }
{
    let completed = rtt::rtt_complete(file, withdrawals, roles, sets, spans);
    let queried = rtt::rtt_query(
        file,
        withdrawals,
        role,
        set,
        minute,
        credential,
        first,
        second,
        results,
    );
    let steps = steps_of(queried);
    let checked = rtt::rtt_check(
        file,
        withdrawals,
        role,
        set,
        minute,
        credential,
        first,
        second,
        results,
        steps,
    );
    Replies {
        completed,
        queried,
        checked,
    }
}

// The step count in a query's reply, 0 in a refusal's.
fn steps_of(reply: u64) -> u64
    ensures { result ≡ steps_of reply }
{
    if reply < 4294967296 { reply % 65536 } else { 0 }
}
