// Entries of lent lists as bytes, lowest byte first.
#![tactic(auto)]

ghost use Rattle.std.specs.Prelude.{◌≡◌, ◌++◌, ◌*◌, ◌^◌, ◌≤◌, ◌<◌, length, take, drop};
ghost use Rattle.codec.specs.Bytes.{bytes, entry, bytes_of, first_entries};

// The first n entries of 4 bytes, into the first n places.
pub fn decode32(dst: &mut [u32], src: &[u8], n: usize)
    requires { (n ≤ length dst.old) × (4 * n ≤ length src.now) }
    ensures { dst.new ≡ first_entries 4 n src.now ++ drop n dst.old }
{
    for i in 0..n {
        let at = 4 * i;
        dst[i] = get(&src[at..at + 4]) as u32;
    }
}

// The first n entries as 4 bytes each, into the first bytes.
pub fn encode32(dst: &mut [u8], src: &[u32], n: usize)
    requires { (n ≤ length src.now) × (4 * n ≤ length dst.old) }
    ensures { dst.new ≡ bytes_of 4 (take n src.now) ++ drop (4 * n) dst.old }
{
    for i in 0..n {
        let at = 4 * i;
        put(&mut dst[at..at + 4], src[i] as u64);
    }
}

// The first n entries as 8 bytes each, into the first bytes.
pub fn encode64(dst: &mut [u8], src: &[u64], n: usize)
    requires { (n ≤ length src.now) × (8 * n ≤ length dst.old) }
    ensures { dst.new ≡ bytes_of 8 (take n src.now) ++ drop (8 * n) dst.old }
{
    for i in 0..n {
        let at = 8 * i;
        put(&mut dst[at..at + 8], src[i]);
    }
}

// The number that at most 8 bytes are.
pub fn get(src: &[u8]) -> u64
    requires { length src.now ≤ 8 }
    ensures { (result ≡ entry (length src.now) src.now) × (result < 256 ^ length src.now) }
{
    let mut number: u64 = 0;
    for i in (0..src.len()).rev() {
        number = widths::wide8(src[i]) as u64 + 256 * number;
    }
    number
}

// Fills a list with a number's bytes.
pub fn put(dst: &mut [u8], x: u64)
    ensures { dst.new ≡ bytes (length dst.old) x }
{
    let mut rest = x;
    for i in 0..dst.len() {
        dst[i] = (rest % 256) as u8;
        rest /= 256;
    }
}
