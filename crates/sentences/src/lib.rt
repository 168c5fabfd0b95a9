// Sentences: lines of at most 256 bytes, made of words with places for numbers. Also the numbers of one, two and four bytes that a file holds.
#![tactic(auto)]

ghost use Rattle.std.specs.Prelude.{◌≡◌, true, ◌++◌, ◌+◌, ◌≤◌, ◌<◌, drop, length};
ghost use Rattle.text.specs.Ascii.{ascii};
ghost use Rattle.file.specs.Format.{byte, two, four};
ghost use Rattle.sentences.specs.Filling.{beginning, piece, turned, next, filled, line_from, sentence, most, fitting};

use text::Text;

// A line of some words, counted from 0, and the numbers in it.
#[derive(Clone, Copy)]
pub struct Sentence(pub u32, pub [u32; 4]);

// Where filling a line stands: whether words are put, the number before, the numbers to come.
#[derive(Clone, Copy)]
struct Filling {
    on: bool,
    before: u32,
    a: u32,
    b: u32,
    c: u32,
    d: u32,
}

// A line of the words, filled with numbers, and a newline. In the words `#` stands for the next number in decimal, `@` for the next one as a set in braces, and
// `{one|many}` for `one` where the number before it is 1, otherwise for `many`; a place for a number inside it is filled in both cases.
pub fn filled_line(words: &[u8], s: Sentence) -> Text<256>
    requires { fitting 255 words.now ≡ true }
    ensures { result ≡ sentence words.now s ++ ascii "\n" }
{
    let from = line_at(words, s.0);
    let mut out = put_filled(&words[from..], start(s));
    out.put_byte(b'\n');
    out
}

// The byte at p; 0 after the end.
pub fn byte_at(file: &[u8], p: usize) -> u32
    ensures { (result ≡ byte file.now p) × (result < 256) }
{
    if file.len() <= p {
        return 0;
    }
    widths::wide8(file[p])
}

// The number of two bytes at p, lowest first.
pub fn two_at(file: &[u8], p: usize) -> u32
    requires { p < 1099511627776 }
    ensures { (result ≡ two file.now p) × (result < 65536) }
{
    let low = byte_at(file, p);
    let high = byte_at(file, p + 1);
    low + 256 * high
}

// The number of four bytes at p, lowest first.
pub fn four_at(file: &[u8], p: usize) -> u32
    requires { p + 2 < 1099511627776 }
    ensures { result ≡ four file.now p }
{
    let low = two_at(file, p);
    let high = two_at(file, p + 2);
    low + 65536 * high
}

// Before the first byte of a line.
fn start(s: Sentence) -> Filling
    ensures { result ≡ beginning s.1 }
{
    let numbers = s.1;
    Filling {
        on: true,
        before: 0,
        a: numbers[0],
        b: numbers[1],
        c: numbers[2],
        d: numbers[3],
    }
}

// Where a line begins.
fn line_at(words: &[u8], line: u32) -> usize
    ensures at { drop result words.now ≡ line_from line words.now }
    ensures within { result ≤ length words.now }
{
    let mut left = line;
    for i in 0..words.len() {
        if left == 0 {
            return i;
        }
        if words[i] == b'\n' {
            left -= 1;
        }
    }
    words.len()
}

// The words up to the end of the line.
fn put_filled(words: &[u8], start: Filling) -> Text<256>
    requires { fitting 255 words.now ≡ true }
    ensures text { result ≡ filled start words.now }
    ensures within { length result ≤ 255 }
{
    let mut out = Text::new();
    let mut s = start;
    for c in words {
        if *c == b'\n' {
            return out;
        }
        put_piece(&mut out, s, *c);
        s = after(s, *c);
    }
    out
}

// What one byte of the words puts.
fn put_piece(out: &mut Text<256>, s: Filling, c: u8)
    requires { length out.old + most c ≤ 256 }
    ensures text { out.new ≡ out.old ++ piece s c }
    ensures within { length out.new ≤ length out.old + most c }
{
    if c == b'#' {
        out.put_decimal(s.a);
        return;
    }
    if c == b'@' {
        sets::put_set(out, s.a);
        return;
    }
    if s.on & !((b'{' <= c) & (c <= b'}')) {
        out.put_byte(c);
    }
}

// Where filling stands after one byte of the words.
fn after(s: Filling, c: u8) -> Filling
    ensures { result ≡ next s c }
{
    match c {
        b'#' | b'@' => Filling {
            on: s.on,
            before: s.a,
            a: s.b,
            b: s.c,
            c: s.d,
            d: 0,
        },
        b'{' => turned(s, s.before == 1),
        b'|' => turned(s, !s.on),
        b'}' => turned(s, true),
        _ => s,
    }
}

// Words are put from here on, or not.
fn turned(s: Filling, on: bool) -> Filling
    ensures { result ≡ turned s on }
{
    Filling {
        on,
        before: s.before,
        a: s.a,
        b: s.b,
        c: s.c,
        d: s.d,
    }
}
