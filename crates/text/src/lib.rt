// Text that is being written, with numbers in decimal, and numbers read from text.
#![tactic(auto)]

ghost use Rattle.std.specs.Prelude.{◌≡◌, List, ℕ, [], ◌∷◌, ◌++◌, ◌+◌, ◌≤◌, ◌<◌, length, take};
ghost use Rattle.text.specs.Lines.{decimal, field};
ghost use Rattle.text.specs.Numbers.{digit, number_in};

use std::marker::Model;

// Text of at most N bytes. Contracts see the bytes that were put.
#[derive(Drop)]
pub struct Text<const N: usize> {
    bytes: [u8; N],
    end: usize,
}

impl<const N: usize> Model for Text<N> {
    ghost Value = { List ℕ };

    ghost view = { λ t. take t.end t.bytes };

    ghost invariant = { λ t. t.end ≤ N };
}

impl<const N: usize> Text<N> {
    // Nothing yet.
    pub fn new() -> Self
        ensures { result ≡ [] }
    {
        Text {
            bytes: [0; N],
            end: 0,
        }
    }

    // What was put.
    pub fn as_bytes(&self) -> &[u8]
        ensures text { result.now ≡ self.now }
        ensures within { length result.now ≤ N }
    {
        &self.bytes[..self.end]
    }

    pub fn put_byte(&mut self, b: u8)
        requires { length self.old < N }
        ensures { self.new ≡ self.old ++ b ∷ [] }
    {
        self.bytes[self.end] = b;
        self.end += 1;
    }

    pub fn put_bytes(&mut self, bytes: &[u8])
        requires { length self.old + length bytes.now ≤ N }
        ensures { self.new ≡ self.old ++ bytes.now }
    {
        let end = self.end + bytes.len();
        let all: &mut [u8] = &mut self.bytes;
        all[self.end..end].copy_from_slice(bytes);
        self.end = end;
    }

    // A number, of at most ten digits.
    pub fn put_decimal(&mut self, x: u32)
        requires { length self.old + 10 ≤ N }
        ensures text { self.new ≡ self.old ++ decimal x }
        ensures within { length self.new ≤ length self.old + 10 }
    {
        let all: &mut [u8] = &mut self.bytes;
        self.end += put_digits(&mut all[self.end..], x);
    }

    // A number and the byte after it.
    pub fn put_field(&mut self, x: u32, end: u8)
        requires { length self.old + 11 ≤ N }
        ensures text { self.new ≡ self.old ++ field x end }
        ensures within { length self.new ≤ length self.old + 11 }
    {
        let all: &mut [u8] = &mut self.bytes;
        let n = put_digits(&mut all[self.end..], x);
        all[self.end + n] = end;
        self.end += n + 1;
    }
}

// Puts the decimal of a number at the start, and returns how many digits it has.
fn put_digits(digits: &mut [u8], x: u32) -> usize
    requires { 10 ≤ length digits.old }
    ensures count { result ≡ length (decimal x) }
    ensures few { result ≤ 10 }
    ensures text { take result digits.new ≡ decimal x }
{
    if x < 10 {
        digits[0] = b'0' + (x % 10) as u8;
        return 1;
    }
    let last = put_digits(digits, x / 10);
    digits[last] = b'0' + (x % 10) as u8;
    last + 1
}

// The number of up to 32 bits that bytes say in decimal. Leading zeros are allowed.
pub fn parse(bytes: &[u8]) -> Option<u32>
    ensures { result ≡ number_in bytes.now }
{
    if bytes.len() == 0 {
        return None;
    }
    let mut x: u64 = 0;
    for b in bytes {
        if !is_digit(*b) {
            return None;
        }
        x = 10 * x + (*b - b'0') as u64;
        if 4294967295 < x {
            return None;
        }
    }
    Some(x as u32)
}

fn is_digit(b: u8) -> bool
    ensures { result ≡ digit b }
{
    (b'0' <= b) & (b <= b'9')
}
