// Completing, querying and checking together: one function that makes the three calls, with the claim over them as its contract.
#![tactic(auto)]

ghost use Rattle.asking.specs.Asking.{request, step_lists};
ghost use Rattle.completing.specs.Completing.{lent};
ghost use Rattle.withdrawals.specs.Source.{◌without◌};
ghost use Rattle.joint.specs.Calls.{Together, steps_of};
ghost use Rattle.std.specs.Prelude.{◌≡◌};

use checking::Checked;
use completing::Completed;
use querying::Answer;

// What the three calls answered.
#[derive(Clone, Copy)]
pub struct Replies {
    pub completed: Completed,
    pub answer: Answer,
    pub checked: Checked,
}

// Completes the table, queries the membership, and checks the proof in the lists as querying left them.
pub fn ask(
    file: &[u8],
    withdrawals: &[u8],
    roles: &mut [u32],
    sets: &mut [u32],
    spans: &mut [u64],
    role: u32,
    set: u32,
    minute: u32,
    credential: &mut [u32],
    first: &mut [u32],
    second: &mut [u32],
    results: &mut [u32],
) -> Replies
    ensures { Together (file.now without withdrawals.now) (request role set minute) (lent roles.old sets.old spans.old) (lent roles.new sets.new spans.new) (step_lists credential.old first.old second.old results.old) (step_lists credential.new first.new second.new results.new) result }
{
    let completed = completing::complete(file, withdrawals, roles, sets, spans);
    let answer = querying::query(
        file,
        withdrawals,
        role,
        set,
        minute,
        credential,
        first,
        second,
        results,
    );
    let steps = steps_of(answer);
    let checked = checking::check(
        file,
        withdrawals,
        role,
        set,
        minute,
        credential,
        first,
        second,
        results,
        steps,
    );
    Replies {
        completed,
        answer,
        checked,
    }
}

// The step count of a proof, 0 where there is none.
fn steps_of(answer: Answer) -> usize
    ensures { result ≡ steps_of answer }
{
    match answer {
        Answer::Proof { steps, level } => steps as usize,
        Answer::Refused { number, place } => 0,
    }
}
