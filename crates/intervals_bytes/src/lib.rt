// The intervals of a span number on bytes.
#![tactic(auto)]

ghost use Rattle.std.specs.Prelude.{◌≡◌, length};
ghost use Rattle.replies.specs.Interface.{word};
ghost use Rattle.withdrawals.specs.Source.{◌without◌};
ghost use Rattle.intervals_bytes.specs.Interface.{intervals_reply, intervals_bytes};
ghost use Rattle.intervals_bytes.specs.Bounds.{bounds_in, number_for};

use ends::Interval;

// Into a list of 256 bytes; the reply is how many there are, or a refusal.
pub fn intervals(bounds: &mut [u8], file: &[u8], withdrawals: &[u8], spans: u64) -> u64
    ensures value { result ≡ word (λ n. n) (intervals_reply (file.now without withdrawals.now) spans bounds.old) }
    ensures bounds_after { bounds.new ≡ intervals_bytes (file.now without withdrawals.now) spans bounds.old }
{
    let v = ends::intervals_of(file, withdrawals, spans);
    let number = number_for(v.number, bounds.len());
    if number != 0 {
        return replies::refusal(number, v.place);
    }
    let list = v.intervals;
    let places = bounds_of(list);
    codec::encode32(bounds, &places, 64);
    v.count as u64
}

// The refusal's number, with 9 for a list of other than 256 bytes after those of the file with its withdrawals and before 11.
fn number_for(number: u32, size: usize) -> u32
    ensures { result ≡ number_for number size }
{
    if (size != 256) & ((number == 0) | (number == 11)) {
        return 9;
    }
    number
}

// From and to of each, in turn.
fn bounds_of(intervals: [Interval; 32]) -> [u32; 64]
    ensures { result ≡ bounds_in intervals }
{
    let mut bounds = room();
    for i in 0..32 {
        let v = intervals[i];
        bounds[2 * i] = v.from;
        bounds[2 * i + 1] = v.to;
    }
    bounds
}

fn room() -> [u32; 64]
    ensures { length result ≡ 64 }
{
    [0; 64]
}
