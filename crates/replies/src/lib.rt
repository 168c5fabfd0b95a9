// What the calls on bytes share: refusals as one number, the test of step lists, lists of their own.
#![tactic(auto)]

ghost use Rattle.std.specs.Prelude.{◌≡◌, ◌||◌, ◌+◌, ◌*◌, eqb, length};
ghost use Rattle.meaning.specs.Lists.{if};
ghost use Rattle.withdrawals.specs.Source.{◌without◌};
ghost use Rattle.replies.specs.Interface.{word, not_whole};
ghost use Rattle.replies.specs.Lengths.{steps_fit};

// A refusal as one number.
pub fn refusal(number: u32, place: u32) -> u64
    ensures { result ≡ number * 4294967296 + place }
{
    number as u64 * 4294967296 + (place as u64)
}

// The refusals of the file with its withdrawals, then 9.
pub fn refuse(file: &[u8], withdrawals: &[u8]) -> u64
    ensures { result ≡ word (λ n. n) (not_whole (file.now without withdrawals.now) 0) }
{
    let e = ends::ends_of(file, withdrawals);
    if e.number != 0 {
        return refusal(e.number, e.place);
    }
    refusal(9, 0)
}

// How many of n entries a refusal clears.
pub fn cleared(number: u32, n: usize) -> usize
    ensures { result ≡ if (eqb number 10 || eqb number 13) n 0 }
{
    if (number == 10) | (number == 13) {
        return n;
    }
    0
}

// A list of zeros; its length is all that callers know of it.
pub fn room32() -> [u32; 1024]
    ensures { length result ≡ 1024 }
{
    [0; 1024]
}

// Whether lists of so many bytes are whole entries of one length, 1 to 1,024.
pub fn steps_fit(credential: usize, first: usize, second: usize, sets: usize) -> bool
    ensures { result ≡ steps_fit credential first second sets }
{
    let n = credential / 4;
    ((credential % 4 == 0) & (first % 4 == 0) & (second % 4 == 0) & (sets % 4 == 0))
        & ((first / 4 == n) & (second / 4 == n) & (sets / 4 == n) & ((1 <= n) & (n <= 1024)))
}
