// Withdrawals from a decoded policy: refusals 20 and 21, and the periods cut.
#![tactic(auto)]

ghost use Rattle.std.specs.Prelude.{◌≡◌, ◌<◌};
ghost use Rattle.file.specs.Format.{N};
ghost use Rattle.file.specs.Conditions.{Head, GoodBelow};
ghost use Rattle.policy.specs.Policy.{PolicyOf};
ghost use Rattle.withdrawals.specs.List.{count as list_count};
ghost use Rattle.withdrawals.specs.Source.{◌without◌};
ghost use Rattle.withdrawals.specs.Conditions.{Shaped};
ghost use Rattle.cutting.specs.Cutting.{Withdraws, CutAll, Placed, CutAt};

// Refusals 20 and 21; where there is none, 0, and the policy then has the file's n credentials with their periods cut.
pub fn withdraw(policy: &mut [u64; 512], file: &[u8], n: usize, list: &[u8]) -> u32
    requires { (Head file.now) × (GoodBelow file.now (N file.now)) × (PolicyOf file.now policy.old n) }
    ensures { Withdraws (file.now without list.now) policy.new n result }
{
    let size = withdrawals::read_size(list);
    if size.number != 0 {
        return size.number;
    }
    cut_all(policy, file, n, list, size.count)
}

// Cuts by each withdrawal in turn, up to the first that 21 refuses.
fn cut_all(policy: &mut [u64; 512], file: &[u8], n: usize, list: &[u8], count: usize) -> u32
    requires fact_1 { (Head file.now) × (GoodBelow file.now (N file.now)) × (PolicyOf file.now policy.old n) }
    requires fact_2 { (Shaped list.now) × (count ≡ list_count list.now) }
    ensures { CutAll (file.now without list.now) policy.new n result }
{
    let mut k = 0;
    while k < count {
        let i = position(file, n, list, k);
        if i == n {
            return 21;
        }
        let minute = withdrawals::minute_at(list, count, k);
        cut_one(policy, i, minute);
        k += 1;
    }
    0
}

// The position of the credential with the serial of withdrawal k; n where there is none, or where an earlier withdrawal has that serial too.
fn position(file: &[u8], n: usize, list: &[u8], k: usize) -> usize
    requires { (Head file.now) × (n ≡ N file.now) × (Shaped list.now) × (k < list_count list.now) }
    ensures { Placed (file.now without list.now) n k result }
{
    let x = withdrawals::serial_at(list, k);
    if withdrawals::repeated(list, k, x) {
        return n;
    }
    serials::position_of(file, n, x)
}

// Cuts the period at position i.
fn cut_one(policy: &mut [u64; 512], i: usize, minute: u32)
    requires { i < 256 }
    ensures { CutAt policy.old policy.new i minute }
{
    let v = policy::period_at(policy, i);
    policy::put_period(policy, i, v.before(minute));
}
