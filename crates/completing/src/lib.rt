// Completing the table: every membership of a credentials file after its withdrawals, with all spans in which the rules give it, in three lent lists.
#![tactic(auto)]

ghost use Rattle.std.specs.Prelude.{◌≡◌, length};
ghost use Rattle.policy.specs.Policy.{credentials_of};
ghost use Rattle.tabling.specs.Tabling.{Loadable};
ghost use Rattle.withdrawals.specs.Source.{◌without◌};
ghost use Rattle.completing.specs.Completing.{lent, table_ending, completing, says_completed};
ghost use Rattle.completing.specs.Working.{last_ending};

// The count of memberships valid at one minute or more, or a refusal.
#[derive(Clone, Copy)]
pub enum Completed {
    Memberships(u32),
    Refused { number: u32, place: u32 },
}

// Completes the table (document 01): the reply, and the three lists as the call leaves them.
pub fn complete(
    file: &[u8],
    withdrawals: &[u8],
    roles: &mut [u32],
    sets: &mut [u32],
    spans: &mut [u64],
) -> Completed
    ensures { table_ending (says_completed result) roles.new sets.new spans.new ≡ completing (file.now without withdrawals.now) (lent roles.old sets.old spans.old) }
{
    let mut policy = policy::room();
    let mut ends = survey::no_ends();
    let s = survey::survey(&mut policy, &mut ends, file, withdrawals);
    if s.number != 0 {
        return Completed::Refused {
            number: s.number,
            place: s.place,
        };
    }
    if !columns::of_one_length(roles.len(), sets.len(), spans.len()) {
        return Completed::Refused {
            number: 9,
            place: 0,
        };
    }
    let count = survey::span_count(s.count);
    finish(roles, sets, spans, &policy, s.credentials, &ends, count)
}

// Completes the table in lists of one length.
fn finish(
    roles: &mut [u32],
    sets: &mut [u32],
    spans: &mut [u64],
    policy: &[u64; 512],
    credentials: usize,
    ends: &[u32; 64],
    count: usize,
) -> Completed
    requires loadable { Loadable policy.now credentials ends.now count (length roles.old) }
    requires lengths { (length sets.old ≡ length roles.old) × (length spans.old ≡ length roles.old) }
    ensures { table_ending (says_completed result) roles.new sets.new spans.new ≡ last_ending (credentials_of policy.now credentials) (lent roles.old sets.old spans.old) }
{
    match tabling::write_table(roles, sets, spans, policy, credentials, ends, count) {
        Ok(n) => Completed::Memberships(n as u32),
        Err(_) => {
            columns::clear(roles, sets, spans);
            Completed::Refused {
                number: 10,
                place: 0,
            }
        }
    }
}
