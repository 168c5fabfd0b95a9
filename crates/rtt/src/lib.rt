// The calls on bytes: lists cross as bytes, lowest first, and the reply is one 64-bit number. The crate rtt_c exports them to C.
#![tactic(auto)]

ghost use Rattle.std.specs.Prelude.{◌≡◌};
ghost use Rattle.asking.specs.Asking.{request, step_lists};
ghost use Rattle.completing.specs.Completing.{lent};
ghost use Rattle.replies.specs.Interface.{word};
ghost use Rattle.complete_bytes.specs.Interface.{complete_bytes};
ghost use Rattle.query_bytes.specs.Interface.{QueriedBytes};
ghost use Rattle.check_bytes.specs.Interface.{check_reply};
ghost use Rattle.ends_bytes.specs.Interface.{ends_reply, ends_bytes};
ghost use Rattle.intervals_bytes.specs.Interface.{intervals_reply, intervals_bytes};
ghost use Rattle.carrying.specs.Carrying.{going_forward, forward_left, going_back, back_left, says_carried};
ghost use Rattle.withdrawals.specs.Source.{◌without◌};

use carrying::Carried;

// Completes the table.
#[tactic(auto, using(crate::proofs::Unfit::table_unfit))]
pub fn rtt_complete(
    file: &[u8],
    withdrawals: &[u8],
    roles: &mut [u8],
    sets: &mut [u8],
    spans: &mut [u8],
) -> u64
    ensures value { result ≡ word (λ n. n) (complete_bytes (file.now without withdrawals.now) (lent roles.old sets.old spans.old)).reply }
    ensures spans_after { lent roles.new sets.new spans.new ≡ (complete_bytes (file.now without withdrawals.now) (lent roles.old sets.old spans.old)).lists }
{
    if !complete_bytes::table_fits(roles.len(), sets.len(), spans.len()) {
        return replies::refuse(file, withdrawals);
    }
    let n = roles.len() / 4;
    complete_bytes::complete(roles, sets, spans, file, withdrawals, n)
}

// Hands out a proof of the membership at the minute.
#[tactic(auto, using(crate::proofs::Unfit::query_unfit))]
pub fn rtt_query(
    file: &[u8],
    withdrawals: &[u8],
    role: u32,
    set: u32,
    minute: u32,
    credential: &mut [u8],
    first: &mut [u8],
    second: &mut [u8],
    sets: &mut [u8],
) -> u64
    ensures { QueriedBytes (file.now without withdrawals.now) (request role set minute) (step_lists credential.old first.old second.old sets.old) result (step_lists credential.new first.new second.new sets.new) }
{
    if !replies::steps_fit(credential.len(), first.len(), second.len(), sets.len()) {
        return replies::refuse(file, withdrawals);
    }
    let n = credential.len() / 4;
    query_bytes::query(
        credential,
        first,
        second,
        sets,
        file,
        withdrawals,
        role,
        set,
        minute,
        n,
    )
}

// Checks the first `steps` steps as a proof of the membership at the minute.
#[tactic(auto, using(crate::proofs::Unfit::steps_unfit))]
pub fn rtt_check(
    file: &[u8],
    withdrawals: &[u8],
    role: u32,
    set: u32,
    minute: u32,
    credential: &[u8],
    first: &[u8],
    second: &[u8],
    sets: &[u8],
    steps: u64,
) -> u64
    ensures { result ≡ word (λ n. n) (check_reply (file.now without withdrawals.now) (request role set minute) (step_lists credential.now first.now second.now sets.now) steps) }
{
    if !replies::steps_fit(credential.len(), first.len(), second.len(), sets.len()) {
        return replies::refuse(file, withdrawals);
    }
    let n = credential.len() / 4;
    check_bytes::check(
        file,
        withdrawals,
        role,
        set,
        minute,
        credential,
        first,
        second,
        sets,
        steps as usize,
        n,
    )
}

// Writes the ends of the file's periods after its withdrawals into 256 bytes.
pub fn rtt_ends(file: &[u8], withdrawals: &[u8], ends: &mut [u8]) -> u64
    ensures value { result ≡ word (λ n. n) (ends_reply (file.now without withdrawals.now) ends.old) }
    ensures ends_after { ends.new ≡ ends_bytes (file.now without withdrawals.now) ends.old }
{
    ends_bytes::ends(ends, file, withdrawals)
}

// Writes the intervals of a span number, from and to in turn, into 256 bytes.
pub fn rtt_intervals(file: &[u8], withdrawals: &[u8], spans: u64, bounds: &mut [u8]) -> u64
    ensures value { result ≡ word (λ n. n) (intervals_reply (file.now without withdrawals.now) spans bounds.old) }
    ensures bounds_after { bounds.new ≡ intervals_bytes (file.now without withdrawals.now) spans bounds.old }
{
    intervals_bytes::intervals(bounds, file, withdrawals, spans)
}

// Writes the new file of an old one; the reply is the count of its credentials.
pub fn rtt_forward(old: &[u8], file: &mut [u8]) -> u64
    ensures value { result ≡ word (λ n. n) (going_forward old.now file.old) }
    ensures file_after { file.new ≡ forward_left old.now file.old }
{
    let answer = carrying::forward(old, file);
    number_of(answer)
}

// Writes the old file of a new one; the reply is the count of its credentials.
pub fn rtt_back(file: &[u8], old: &mut [u8]) -> u64
    ensures value { result ≡ word (λ n. n) (going_back file.now old.old) }
    ensures after { old.new ≡ back_left file.now old.old }
{
    let answer = carrying::back(file, old);
    number_of(answer)
}

fn number_of(answer: Carried) -> u64
    ensures { result ≡ word (λ n. n) (says_carried answer) }
{
    match answer {
        Carried::Credentials(count) => count as u64,
        Carried::Refused { number, place } => replies::refusal(number, place),
    }
}
