// What a refusal of a request means, as a line of text of at most 256 bytes. It takes any bytes and numbers; what it says is so where a call gave
// that refusal for them, of 10 a call with lists of 1,024 entries.
#![tactic(auto)]

ghost use Rattle.std.specs.Prelude.{◌≡◌, ◌-◌};
ghost use Rattle.meaning.specs.Lists.{up_from};
ghost use Rattle.sets.specs.Sets.{has};
ghost use Rattle.sentences.specs.Words.{first_of};
ghost use Rattle.sentences.specs.Filling.{sentence};
ghost use Rattle.request_sentences.specs.RequestWords.{request_words};
ghost use Rattle.request_sentences.specs.RequestSentences.{asked_text, request_text, request_sentence};

use sentences::Sentence;
use text::Text;

// The line of a refusal of a request over a file: 10 to 13.
pub fn request_line(
    file: &[u8],
    issuer: u32,
    name: u32,
    set: u32,
    minute: u32,
    number: u32,
) -> Text<256>
    ensures { result ≡ request_sentence file.now issuer name set minute number }
{
    let s = said(file, issuer, name, set, minute, number);
    sentences::filled_line(
        b"refused\n\
        issuer #, the file has # {entity|entities}\n\
        role name #, the file has # {role name|role names}\n\
        the set is empty\n\
        the set has entity #, the file has # {entity|entities}\n\
        minute #, the last minute is 4294967294\n\
        more than 1024 memberships at minute #\n\
        no proof that @ holds #.# at minute #\n",
        s,
    )
}

// The other functions choose a line of those words, counted from 0, and its numbers.

fn said(file: &[u8], issuer: u32, name: u32, set: u32, minute: u32, number: u32) -> Sentence
    ensures { sentence request_words result ≡ request_text file.now issuer name set minute number }
{
    match number {
        10 => Sentence(6, [minute, 0, 0, 0]),
        11 => asked(file, issuer, name, set),
        12 => Sentence(5, [minute, 0, 0, 0]),
        13 => Sentence(7, [set, issuer, name, minute]),
        _ => Sentence(0, [0; 4]),
    }
}

fn asked(file: &[u8], issuer: u32, name: u32, set: u32) -> Sentence
    ensures { sentence request_words result ≡ asked_text file.now issuer name set }
{
    let entities = sentences::two_at(file, 0);
    if entities <= issuer {
        return Sentence(1, [issuer, entities, 0, 0]);
    }
    let names = sentences::two_at(file, 2);
    if names <= name {
        return Sentence(2, [name, names, 0, 0]);
    }
    if set == 0 {
        return Sentence(3, [0; 4]);
    }
    let x = first_from(set, entities);
    Sentence(4, [x, entities, 0, 0])
}

// The first entity from `from` on that the set has; 0 where there is none.
fn first_from(set: u32, from: u32) -> u32
    ensures { result ≡ first_of (has set) (up_from from (32 - from)) }
{
    for e in from..32 {
        if (set >> e) % 2 == 1 {
            return e;
        }
    }
    0
}
