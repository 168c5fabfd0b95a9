// What a refusal of bringing a file forward or back means, as a line of text of at most 256 bytes: 3 to 7 of an old file, and 19 of a new one. It takes
// any bytes and numbers; what it says is so where a call gave that refusal for them.
#![tactic(auto)]

ghost use Rattle.std.specs.Prelude.{◌≡◌};
ghost use Rattle.old_file.specs.OldFormat.{old_field};
ghost use Rattle.sentences.specs.Filling.{sentence};
ghost use Rattle.file_sentences.specs.FileSentences.{of_credential};
ghost use Rattle.carry_sentences.specs.CarryWords.{carry_words};
ghost use Rattle.carry_sentences.specs.CarrySentences.{old_length_text, old_range_text, old_period_text, place_text, carry_text, carry_sentence};

use sentences::Sentence;
use text::Text;

// The line of a refusal.
pub fn carry_line(file: &[u8], number: u32, place: u32) -> Text<256>
    ensures { result ≡ carry_sentence file.now number place }
{
    let s = said(file, number, place);
    sentences::filled_line(
        b"refused\n\
        the file has # {byte|bytes}, an old file of # {credential|credentials} takes #\n\
        the file has more than 5126 bytes, an old file of # {credential|credentials} takes #\n\
        credential #: kind #, kinds are 0 to 5\n\
        credential #: an entity is not below # or a role name is not below #\n\
        credential #: a byte that kind # does not use is not 0\n\
        credential #: from # is not below to #\n\
        credential #: serial # is not its position plus one\n",
        s,
    )
}

// The other functions choose a line of those words, counted from 0, and its numbers.

fn said(file: &[u8], number: u32, place: u32) -> Sentence
    ensures { sentence carry_words result ≡ carry_text file.now number place }
{
    match number {
        3 => wrong_length(file),
        4 => Sentence(3, [place, kind_at(file, place), 0, 0]),
        5 => range(file, place),
        6 => Sentence(5, [place, kind_at(file, place), 0, 0]),
        7 => period(file, place),
        19 => out_of_place(file, place),
        _ => Sentence(0, [0; 4]),
    }
}

fn wrong_length(file: &[u8]) -> Sentence
    ensures { sentence carry_words result ≡ old_length_text file.now }
{
    let n = file.len();
    let credentials = sentences::two_at(file, 4);
    let right = 6 + 16 * credentials;
    if 5126 < n {
        return Sentence(2, [credentials, right, 0, 0]);
    }
    Sentence(1, [n as u32, credentials, right, 0])
}

fn range(file: &[u8], place: u32) -> Sentence
    ensures { sentence carry_words result ≡ of_credential place (old_range_text file.now) }
{
    let entities = sentences::two_at(file, 0);
    let names = sentences::two_at(file, 2);
    Sentence(4, [place, entities, names, 0])
}

fn period(file: &[u8], place: u32) -> Sentence
    ensures { sentence carry_words result ≡ of_credential place (old_period_text file.now place) }
{
    let n = sentences::two_at(file, 4);
    let at = 6 + 8 * n as usize + 8 * place as usize;
    let from = sentences::four_at(file, at);
    let to = sentences::four_at(file, at + 4);
    Sentence(6, [place, from, to, 0])
}

fn out_of_place(file: &[u8], place: u32) -> Sentence
    ensures { sentence carry_words result ≡ of_credential place (place_text file.now place) }
{
    let serial = sentences::four_at(file, 6 + 12 * place as usize + 8);
    Sentence(7, [place, serial, 0, 0])
}

// The kind of an old statement; 0 after the end, as for all bytes here.
fn kind_at(file: &[u8], i: u32) -> u32
    ensures { result ≡ old_field file.now i 0 }
{
    sentences::byte_at(file, 6 + 8 * i as usize)
}
