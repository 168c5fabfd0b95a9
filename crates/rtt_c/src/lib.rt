// The exports for C, one for each call of rtt, under its name and with its clauses.
#![tactic(auto)]

ghost use Rattle.std.specs.Prelude.{◌≡◌};
ghost use Rattle.asking.specs.Asking.{request, step_lists};
ghost use Rattle.completing.specs.Completing.{lent};
ghost use Rattle.replies.specs.Interface.{word};
ghost use Rattle.complete_bytes.specs.Interface.{complete_bytes};
ghost use Rattle.query_bytes.specs.Interface.{QueriedBytes};
ghost use Rattle.check_bytes.specs.Interface.{check_reply};
ghost use Rattle.ends_bytes.specs.Interface.{ends_reply, ends_bytes};
ghost use Rattle.intervals_bytes.specs.Interface.{intervals_reply, intervals_bytes};
ghost use Rattle.carrying.specs.Carrying.{going_forward, forward_left, going_back, back_left};
ghost use Rattle.withdrawals.specs.Source.{◌without◌};

// Completes the table.
#[unsafe(no_mangle)]
pub extern "C" fn rtt_complete(
    file: &[u8],
    withdrawals: &[u8],
    roles: &mut [u8],
    sets: &mut [u8],
    spans: &mut [u8],
) -> u64
    ensures value { result ≡ word (λ n. n) (complete_bytes (file.now without withdrawals.now) (lent roles.old sets.old spans.old)).reply }
    ensures spans_after { lent roles.new sets.new spans.new ≡ (complete_bytes (file.now without withdrawals.now) (lent roles.old sets.old spans.old)).lists }
{
    rtt::rtt_complete(file, withdrawals, roles, sets, spans)
}

// Hands out a proof of the membership at the minute.
#[unsafe(no_mangle)]
pub extern "C" fn rtt_query(
    file: &[u8],
    withdrawals: &[u8],
    role: u32,
    set: u32,
    minute: u32,
    credential: &mut [u8],
    first: &mut [u8],
    second: &mut [u8],
    sets: &mut [u8],
) -> u64
    ensures { QueriedBytes (file.now without withdrawals.now) (request role set minute) (step_lists credential.old first.old second.old sets.old) result (step_lists credential.new first.new second.new sets.new) }
{
    rtt::rtt_query(
        file,
        withdrawals,
        role,
        set,
        minute,
        credential,
        first,
        second,
        sets,
    )
}

// Checks the first `steps` steps as a proof of the membership at the minute.
#[unsafe(no_mangle)]
pub extern "C" fn rtt_check(
    file: &[u8],
    withdrawals: &[u8],
    role: u32,
    set: u32,
    minute: u32,
    credential: &[u8],
    first: &[u8],
    second: &[u8],
    sets: &[u8],
    steps: u64,
) -> u64
    ensures { result ≡ word (λ n. n) (check_reply (file.now without withdrawals.now) (request role set minute) (step_lists credential.now first.now second.now sets.now) steps) }
{
    rtt::rtt_check(
        file,
        withdrawals,
        role,
        set,
        minute,
        credential,
        first,
        second,
        sets,
        steps,
    )
}

// Writes the ends of the file's periods after its withdrawals into 256 bytes.
#[unsafe(no_mangle)]
pub extern "C" fn rtt_ends(file: &[u8], withdrawals: &[u8], ends: &mut [u8]) -> u64
    ensures value { result ≡ word (λ n. n) (ends_reply (file.now without withdrawals.now) ends.old) }
    ensures ends_after { ends.new ≡ ends_bytes (file.now without withdrawals.now) ends.old }
{
    rtt::rtt_ends(file, withdrawals, ends)
}

// Writes the intervals of a span number, from and to in turn, into 256 bytes.
#[unsafe(no_mangle)]
pub extern "C" fn rtt_intervals(
    file: &[u8],
    withdrawals: &[u8],
    spans: u64,
    bounds: &mut [u8],
) -> u64
    ensures value { result ≡ word (λ n. n) (intervals_reply (file.now without withdrawals.now) spans bounds.old) }
    ensures bounds_after { bounds.new ≡ intervals_bytes (file.now without withdrawals.now) spans bounds.old }
{
    rtt::rtt_intervals(file, withdrawals, spans, bounds)
}

// Writes the new file of an old one; the reply is the count of its credentials.
#[unsafe(no_mangle)]
pub extern "C" fn rtt_forward(old: &[u8], file: &mut [u8]) -> u64
    ensures value { result ≡ word (λ n. n) (going_forward old.now file.old) }
    ensures file_after { file.new ≡ forward_left old.now file.old }
{
    rtt::rtt_forward(old, file)
}

// Writes the old file of a new one; the reply is the count of its credentials.
#[unsafe(no_mangle)]
pub extern "C" fn rtt_back(file: &[u8], old: &mut [u8]) -> u64
    ensures value { result ≡ word (λ n. n) (going_back file.now old.old) }
    ensures after { old.new ≡ back_left file.now old.old }
{
    rtt::rtt_back(file, old)
}
