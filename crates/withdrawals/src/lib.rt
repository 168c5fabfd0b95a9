// The withdrawal list: refusal 20, and of one withdrawal its serial and its minute.
#![tactic(auto)]

ghost use Rattle.std.specs.Prelude.{◌≡◌, ◌+◌, ◌*◌, ◌≤◌, eqb, length};
ghost use Rattle.meaning.specs.Lists.{any, below};
ghost use Rattle.withdrawals.specs.List.{count as list_count, serial_at, minute_at, none as list_none, size_in};

// 0 and the count of withdrawals; or 20.
#[derive(Clone, Copy)]
pub struct Size {
    pub number: u32,
    pub count: usize,
}

// Refusal 20, and the count.
pub fn read_size(list: &[u8]) -> Size
    ensures { result ≡ size_in list.now }
{
    if list.len() < 2 {
        return misshapen();
    }
    let count = file::two_at(list, 0) as usize;
    if 256 < count {
        return misshapen();
    }
    if list.len() != 2 + 8 * count {
        return misshapen();
    }
    Size { number: 0, count }
}

// The list of no withdrawals.
pub fn none() -> [u8; 2]
    ensures { (result ≡ list_none) × (2 ≡ length result) }
{
    [0; 2]
}

// The serial of withdrawal k.
pub fn serial_at(list: &[u8], k: usize) -> u32
    requires { 6 + 4 * k ≤ length list.now }
    ensures { result ≡ serial_at list.now k }
{
    file::four_at(list, 2 + 4 * k)
}

// The minute of withdrawal k of n.
pub fn minute_at(list: &[u8], n: usize, k: usize) -> u32
    requires { (n ≡ list_count list.now) × (6 + 4 * n + 4 * k ≤ length list.now) }
    ensures { result ≡ minute_at list.now k }
{
    file::four_at(list, 2 + 4 * n + 4 * k)
}

// Whether one of the first k withdrawals has the serial x.
pub fn repeated(list: &[u8], k: usize, x: u32) -> bool
    requires { 2 + 4 * k ≤ length list.now }
    ensures { result ≡ any (λ j. eqb (serial_at list.now j) x) (below k) }
{
    let mut j = 0;
    while j < k {
        if serial_at(list, j) == x {
            return true;
        }
        j += 1;
    }
    false
}

fn misshapen() -> Size
    ensures { result ≡ record { number = 20; count = 0 } }
{
    Size {
        number: 20,
        count: 0,
    }
}
