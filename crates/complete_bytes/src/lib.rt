// Completing on bytes.
#![tactic(auto)]

ghost use Rattle.std.specs.Prelude.{◌≡◌, length};
ghost use Rattle.file.specs.Refusals.{writes};
ghost use Rattle.meaning.specs.Lists.{if};
ghost use Rattle.completing.specs.Completing.{lent, says_completed};
ghost use Rattle.replies.specs.Interface.{word};
ghost use Rattle.withdrawals.specs.Source.{◌without◌};
ghost use Rattle.complete_bytes.specs.Interface.{complete_bytes};
ghost use Rattle.complete_bytes.specs.Lengths.{table_fits, TableSizes};

use completing::Completed;

// Whether lists of so many bytes are whole entries of one length, 1 to 1,024.
pub fn table_fits(roles: usize, sets: usize, spans: usize) -> bool
    ensures { result ≡ table_fits roles sets spans }
{
    let n = roles / 4;
    ((roles % 4 == 0) & (sets % 4 == 0) & (spans % 8 == 0))
        & ((sets / 4 == n) & (spans / 8 == n) & ((1 <= n) & (n <= 1024)))
}

// With lists of its own: bytes of n entries each.
pub fn complete(
    roles: &mut [u8],
    sets: &mut [u8],
    spans: &mut [u8],
    file: &[u8],
    withdrawals: &[u8],
    n: usize,
) -> u64
    requires { TableSizes (lent roles.old sets.old spans.old) n }
    ensures value { result ≡ word (λ n. n) (complete_bytes (file.now without withdrawals.now) (lent roles.old sets.old spans.old)).reply }
    ensures spans_after { lent roles.new sets.new spans.new ≡ (complete_bytes (file.now without withdrawals.now) (lent roles.old sets.old spans.old)).lists }
{
    let mut role_room = replies::room32();
    let mut set_room = replies::room32();
    let mut span_room = room64();
    let answer = completing::complete(
        file,
        withdrawals,
        &mut role_room[..n],
        &mut set_room[..n],
        &mut span_room[..n],
    );
    let count = changed(answer, n);
    codec::encode32(roles, &role_room, count);
    codec::encode32(sets, &set_room, count);
    codec::encode64(spans, &span_room, count);
    number_of(answer)
}

// How many of n entries completing wrote or cleared.
fn changed(answer: Completed, n: usize) -> usize
    ensures { result ≡ if (writes (says_completed answer)) n 0 }
{
    match answer {
        Completed::Memberships(_) => n,
        Completed::Refused { number, place: _ } => replies::cleared(number, n),
    }
}

fn number_of(answer: Completed) -> u64
    ensures { result ≡ word (λ n. n) (says_completed answer) }
{
    match answer {
        Completed::Memberships(count) => count as u64,
        Completed::Refused { number, place } => replies::refusal(number, place),
    }
}

fn room64() -> [u64; 1024]
    ensures { length result ≡ 1024 }
{
    [0; 1024]
}
