// The blocks of a credentials file, written one after the other.
#![tactic(auto)]

ghost use Rattle.std.specs.Prelude.{◌≡◌, ◌++◌, ◌+◌, ◌*◌, ◌≤◌, ◌<◌, length};
ghost use Rattle.meaning.specs.Lists.{each, below};
ghost use Rattle.file.specs.Format.{four};
ghost use Rattle.codec.specs.Bytes.{bytes};
ghost use Rattle.blocks.specs.Blocks.{written, serialled, bare, raised};

// Copies a list into another from `at` on.
pub fn copy(dst: &mut [u8], at: usize, src: &[u8])
    requires { at + length src.now ≤ length dst.old }
    ensures { dst.new ≡ written dst.old at src.now }
{
    dst[at..at + src.len()].copy_from_slice(src);
}

// N statements of 8 bytes, each with its position plus one as serial.
pub fn put_statements(dst: &mut [u8], src: &[u8], n: usize)
    requires { (n ≤ 256) × (6 + 12 * n ≤ length dst.old) × (6 + 8 * n ≤ length src.now) }
    ensures { dst.new ≡ written dst.old 6 (each (serialled src.now) (below n)) }
{
    for i in 0..n {
        let from = 6 + 8 * i;
        put_with(dst, 6 + 12 * i, &src[from..from + 8], (i + 1) as u64);
    }
}

// N statements of 12 bytes, each without its serial.
pub fn copy_statements(dst: &mut [u8], src: &[u8], n: usize)
    requires { (n ≤ 256) × (6 + 8 * n ≤ length dst.old) × (6 + 12 * n ≤ length src.now) }
    ensures { dst.new ≡ written dst.old 6 (each (bare src.now) (below n)) }
{
    for i in 0..n {
        let from = 6 + 12 * i;
        copy(dst, 6 + 8 * i, &src[from..from + 8]);
    }
}

// `count` periods, the second number of each raised by `by`; of the sum the lowest 32 bits.
pub fn put_periods(dst: &mut [u8], at: usize, src: &[u8], from: usize, count: usize, by: u32)
    requires { (count ≤ 256) × (at + 8 * count ≤ length dst.old) × (from + 8 * count ≤ length src.now) }
    ensures { dst.new ≡ written dst.old at (each (raised src.now from by) (below count)) }
{
    for i in 0..count {
        let p = from + 8 * i;
        let x = number_at(src, p + 4) + (by as u64);
        put_with(dst, at + 8 * i, &src[p..p + 4], x);
    }
}

// A list, then the lowest four bytes of a number.
fn put_with(dst: &mut [u8], at: usize, src: &[u8], x: u64)
    requires { at + length src.now + 4 ≤ length dst.old }
    ensures { dst.new ≡ written dst.old at (src.now ++ bytes 4 x) }
{
    copy(dst, at, src);
    let p = at + src.len();
    codec::put(&mut dst[p..p + 4], x);
}

// The number of four bytes at p.
fn number_at(src: &[u8], p: usize) -> u64
    requires { p + 4 ≤ length src.now }
    ensures { (result ≡ four src.now p) × (result < 4294967296) }
{
    codec::get(&src[p..p + 4])
}
