// What a refusal of a file means, as a line of text of at most 256 bytes. It takes any bytes and numbers; what it says is so where a call gave
// that refusal for them, of 10 a call with lists of 1,024 entries.
#![tactic(auto)]

ghost use Rattle.std.specs.Prelude.{◌≡◌, not, eqb, leb};
ghost use Rattle.meaning.specs.Lists.{if as lists_if};
ghost use Rattle.file.specs.Format.{field};
ghost use Rattle.file.specs.Reading.{between, uses};
ghost use Rattle.sentences.specs.Words.{first_of};
ghost use Rattle.sentences.specs.Filling.{sentence};
ghost use Rattle.file_sentences.specs.FileWords.{file_words};
ghost use Rattle.file_sentences.specs.FileSentences.{short_text, limits_text, length_text, of_credential, range_text, unused_text, period_text, serial_text, file_text, file_sentence};

use sentences::Sentence;
use text::Text;

// The line of a refusal of a file: 1 to 8 and 17, and 10 of its table.
pub fn file_line(file: &[u8], number: u32, place: u32) -> Text<256>
    ensures { result ≡ file_sentence file.now number place }
{
    let s = said(file, number, place);
    sentences::filled_line(
        b"refused\n\
        the file has # {byte|bytes}, fewer than 6\n\
        the file has more than 5126 bytes, fewer than 6\n\
        # entities, 1 to 32 are allowed\n\
        # role names, 1 to 32 are allowed\n\
        # credentials, at most 256 are allowed\n\
        the file has # {byte|bytes}, # {credential takes |credentials take }#\n\
        the file has more than 5126 bytes, # {credential takes |credentials take }#\n\
        credential #: kind #, kinds are 0 to 5\n\
        credential #: entity #, the file has # {entity|entities}\n\
        credential #: role name #, the file has # {role name|role names}\n\
        credential #: byte # is #, kind # has 0 there\n\
        credential #: from # is above to #\n\
        credential #: to #, the last minute is 4294967294\n\
        credential #: the serial is 0\n\
        credential #: serial #, an earlier credential has it\n\
        the periods have more than 64 ends\n\
        more than 1024 memberships\n",
        s,
    )
}

// The other functions choose a line of those words, counted from 0, and its numbers.

fn said(file: &[u8], number: u32, place: u32) -> Sentence
    ensures { sentence file_words result ≡ file_text file.now number place }
{
    match number {
        1 => short(file),
        2 => limits(file),
        3 => wrong_length(file),
        4 => Sentence(8, [place, field_at(file, place, 0), 0, 0]),
        5 => range(file, place),
        6 => unused(file, place),
        7 => period(file, place),
        8 => Sentence(16, [0; 4]),
        10 => Sentence(17, [0; 4]),
        17 => serial(file, place),
        _ => Sentence(0, [0; 4]),
    }
}

fn short(file: &[u8]) -> Sentence
    ensures { sentence file_words result ≡ short_text file.now }
{
    let n = file.len();
    if 5126 < n {
        return Sentence(2, [0; 4]);
    }
    Sentence(1, [n as u32, 0, 0, 0])
}

fn limits(file: &[u8]) -> Sentence
    ensures { sentence file_words result ≡ limits_text file.now }
{
    let entities = sentences::two_at(file, 0);
    let names = sentences::two_at(file, 2);
    if !within(entities) {
        return Sentence(3, [entities, 0, 0, 0]);
    }
    if !within(names) {
        return Sentence(4, [names, 0, 0, 0]);
    }
    Sentence(5, [sentences::two_at(file, 4), 0, 0, 0])
}

fn wrong_length(file: &[u8]) -> Sentence
    ensures { sentence file_words result ≡ length_text file.now }
{
    let n = file.len();
    let credentials = sentences::two_at(file, 4);
    let right = 6 + 20 * credentials;
    if 5126 < n {
        return Sentence(7, [credentials, right, 0, 0]);
    }
    Sentence(6, [n as u32, credentials, right, 0])
}

fn range(file: &[u8], place: u32) -> Sentence
    ensures { sentence file_words result ≡ of_credential place (range_text file.now place) }
{
    let entities = sentences::two_at(file, 0);
    let j = stray_entity(file, place, entities);
    if j != 0 {
        return Sentence(9, [place, field_at(file, place, j), entities, 0]);
    }
    let names = sentences::two_at(file, 2);
    let k = stray_name(file, place, names);
    Sentence(10, [place, field_at(file, place, k), names, 0])
}

fn unused(file: &[u8], place: u32) -> Sentence
    ensures { sentence file_words result ≡ of_credential place (unused_text file.now place) }
{
    let j = stray_byte(file, place);
    Sentence(
        11,
        [place, j, field_at(file, place, j), field_at(file, place, 0)],
    )
}

fn period(file: &[u8], place: u32) -> Sentence
    ensures { sentence file_words result ≡ of_credential place (period_text file.now place) }
{
    let n = sentences::two_at(file, 4);
    let at = 6 + 12 * n as usize + 8 * place as usize;
    let from = sentences::four_at(file, at);
    let to = sentences::four_at(file, at + 4);
    if to < from {
        return Sentence(12, [place, from, to, 0]);
    }
    Sentence(13, [place, to, 0, 0])
}

fn serial(file: &[u8], place: u32) -> Sentence
    ensures { sentence file_words result ≡ of_credential place (serial_text file.now place) }
{
    let x = sentences::four_at(file, 14 + 12 * place as usize);
    if x == 0 {
        return Sentence(14, [place, 0, 0, 0]);
    }
    Sentence(15, [place, x, 0, 0])
}

// Byte j of statement i; 0 after the end, as for all bytes here.
fn field_at(file: &[u8], i: u32, j: u32) -> u32
    ensures { result ≡ field file.now i j }
{
    sentences::byte_at(file, 6 + 12 * i as usize + j as usize)
}

fn within(x: u32) -> bool
    ensures { result ≡ between 1 32 x }
{
    (1 <= x) & (x <= 32)
}

// The first byte of an entity that is not below e, of those that the kind uses; 0 where there is none.
fn stray_entity(file: &[u8], i: u32, e: u32) -> u32
    ensures { result ≡ first_of (λ j. leb e (field file.now i j)) (uses (field file.now i 0)).entities }
{
    let kind = field_at(file, i, 0);
    let used = kind <= 5;
    let second = either(used & (3 <= kind) & (e <= field_at(file, i, 5)), 5, 0);
    let first = either(used & (e <= field_at(file, i, 3)), 3, second);
    either(used & (e <= field_at(file, i, 1)), 1, first)
}

// The first byte of a name that is not below r, of those that the kind uses; 0 where there is none.
fn stray_name(file: &[u8], i: u32, r: u32) -> u32
    ensures { result ≡ first_of (λ j. leb r (field file.now i j)) (uses (field file.now i 0)).names }
{
    let kind = field_at(file, i, 0);
    let used = kind <= 5;
    let second = either(used & (2 <= kind) & (r <= field_at(file, i, 6)), 6, 0);
    let first = either(used & (1 <= kind) & (r <= field_at(file, i, 4)), 4, second);
    either(used & (r <= field_at(file, i, 2)), 2, first)
}

// The first byte that the kind does not use and that is not zero; 0 where there is none.
fn stray_byte(file: &[u8], i: u32) -> u32
    ensures { result ≡ first_of (λ j. not (eqb (field file.now i j) 0)) (uses (field file.now i 0)).unused }
{
    let kind = field_at(file, i, 0);
    let last = either((kind <= 5) & (field_at(file, i, 7) != 0), 7, 0);
    let third = either((kind < 2) & (field_at(file, i, 6) != 0), 6, last);
    let second = either((kind < 3) & (field_at(file, i, 5) != 0), 5, third);
    either((kind < 1) & (field_at(file, i, 4) != 0), 4, second)
}

fn either(test: bool, x: u32, y: u32) -> u32
    ensures { result ≡ lists_if test x y }
{
    if test {
        return x;
    }
    y
}
