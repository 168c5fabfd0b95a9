// The ends on bytes.
#![tactic(auto)]

ghost use Rattle.std.specs.Prelude.{◌≡◌};
ghost use Rattle.replies.specs.Interface.{word};
ghost use Rattle.withdrawals.specs.Source.{◌without◌};
ghost use Rattle.ends_bytes.specs.Interface.{ends_reply, ends_bytes};

// Into a list of 256 bytes; the reply is how many there are, or a refusal.
pub fn ends(list: &mut [u8], file: &[u8], withdrawals: &[u8]) -> u64
    ensures value { result ≡ word (λ n. n) (ends_reply (file.now without withdrawals.now) list.old) }
    ensures list_after { list.new ≡ ends_bytes (file.now without withdrawals.now) list.old }
{
    let e = ends::ends_of(file, withdrawals);
    if e.number != 0 {
        return replies::refusal(e.number, e.place);
    }
    if list.len() != 256 {
        return replies::refusal(9, 0);
    }
    let places = e.ends;
    codec::encode32(list, &places, 64);
    e.count as u64
}
