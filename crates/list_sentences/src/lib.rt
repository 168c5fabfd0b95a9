// What a refusal of a withdrawal list means, as a line of text of at most 256 bytes. It takes any bytes and numbers; what it says is so where a call gave
// that refusal for them.
#![tactic(auto)]

ghost use Rattle.std.specs.Prelude.{◌≡◌, ◌+◌, ◌*◌, ◌≤◌, ◌<◌, min, eqb};
ghost use Rattle.meaning.specs.Lists.{any, below};
ghost use Rattle.file.specs.Format.{four};
ghost use Rattle.withdrawals.specs.List.{serial_at, repeated as list_repeated};
ghost use Rattle.sentences.specs.Filling.{sentence};
ghost use Rattle.list_sentences.specs.ListWords.{list_words};
ghost use Rattle.list_sentences.specs.ListSentences.{shape_text, on_credential, first_wrong, serial_text, list_text, list_sentence};

use sentences::Sentence;
use text::Text;

// The line of a refusal of a withdrawal list: 20, and 21 of the list with a file.
pub fn list_line(file: &[u8], list: &[u8], number: u32) -> Text<256>
    ensures { result ≡ list_sentence file.now list.now number }
{
    let s = said(file, list, number);
    sentences::filled_line(
        b"refused\n\
        the withdrawal list has # {byte|bytes}, fewer than 2\n\
        the withdrawal list has # withdrawals, at most 256 are allowed\n\
        the withdrawal list has # {byte|bytes}, # {withdrawal takes |withdrawals take }#\n\
        the withdrawal list has more than 2050 bytes, # {withdrawal takes |withdrawals take }#\n\
        withdrawal #: serial #, an earlier withdrawal has it\n\
        withdrawal #: serial #, no credential has it\n",
        s,
    )
}

// The other functions choose a line of those words, counted from 0, and its numbers.

fn said(file: &[u8], list: &[u8], number: u32) -> Sentence
    ensures { sentence list_words result ≡ list_text file.now list.now number }
{
    match number {
        20 => shape(list),
        21 => serial(list, first_wrong(file, list)),
        _ => Sentence(0, [0; 4]),
    }
}

fn shape(list: &[u8]) -> Sentence
    ensures { sentence list_words result ≡ shape_text list.now }
{
    let n = list.len();
    if n < 2 {
        return Sentence(1, [n as u32, 0, 0, 0]);
    }
    let count = sentences::two_at(list, 0);
    if 256 < count {
        return Sentence(2, [count, 0, 0, 0]);
    }
    let right = 2 + 8 * count;
    if 2050 < n {
        return Sentence(4, [count, right, 0, 0]);
    }
    Sentence(3, [n as u32, count, right, 0])
}

fn serial(list: &[u8], k: u32) -> Sentence
    requires { k ≤ 256 }
    ensures { sentence list_words result ≡ serial_text list.now k }
{
    let x = serial_at(list, k);
    if repeated(list, k, x) {
        return Sentence(5, [k, x, 0, 0]);
    }
    Sentence(6, [k, x, 0, 0])
}

// The first withdrawal whose serial an earlier one has, or no credential; 0 where there is none.
fn first_wrong(file: &[u8], list: &[u8]) -> u32
    ensures { (result ≡ first_wrong file.now list.now) × (result ≤ 256) }
{
    for k in 0..looked(sentences::two_at(list, 0)) {
        let x = serial_at(list, k);
        if repeated(list, k, x) | !on_credential(file, x) {
            return k;
        }
    }
    0
}

// The serial of withdrawal k; 0 after the end, as for all bytes here.
fn serial_at(list: &[u8], k: u32) -> u32
    ensures { result ≡ serial_at list.now k }
{
    sentences::four_at(list, 2 + 4 * k as usize)
}

// Whether a withdrawal before k has its serial x.
fn repeated(list: &[u8], k: u32, x: u32) -> bool
    requires { (k ≤ 256) × (x ≡ serial_at list.now k) }
    ensures { result ≡ list_repeated list.now k }
{
    among(list, 2, 4, k, x)
}

// Whether a credential has the serial x.
fn on_credential(file: &[u8], x: u32) -> bool
    ensures { result ≡ on_credential file.now x }
{
    let n = looked(sentences::two_at(file, 4));
    among(file, 14, 12, n, x)
}

// Of n withdrawals or credentials, how many are looked at.
fn looked(n: u32) -> u32
    ensures { result ≡ min n 256 }
{
    n.min(256)
}

// Whether x is one of n numbers, the first at `from`, each `step` bytes after the one before.
fn among(bytes: &[u8], from: usize, step: usize, n: u32, x: u32) -> bool
    requires { (from ≤ 14) × (step ≤ 12) × (n ≤ 256) }
    ensures { result ≡ any (λ j. eqb (four bytes.now (from + step * j)) x) (below n) }
{
    for j in 0..n {
        if sentences::four_at(bytes, from + step * j as usize) == x {
            return true;
        }
    }
    false
}
