// Lines of text of at most 128 bytes: numbers, refusals, intervals.
#![tactic(auto)]

ghost use Rattle.std.specs.Prelude.{◌≡◌, [], ◌∷◌, ◌≤◌, length};
ghost use Rattle.text.specs.Lines.{line};
ghost use Rattle.lines.specs.Printed.{refused_with, refused_line, refused_start, interval_line};

use text::Text;

// One number.
pub fn number_line(x: u32) -> Text<128>
    ensures { result ≡ line (x ∷ []) }
{
    let mut out = Text::new();
    out.put_field(x, b'\n');
    out
}

// Two numbers.
pub fn pair_line(x: u32, y: u32) -> Text<128>
    ensures { result ≡ line (x ∷ y ∷ []) }
{
    let mut out = Text::new();
    out.put_field(x, b' ');
    out.put_field(y, b'\n');
    out
}

// `refused`, number, place.
pub fn refused_line(number: u32, place: u32) -> Text<128>
    ensures { result ≡ refused_line number place }
{
    refused_with(number, place, b'\n')
}

// `refused`, number, place, a colon and a space: the start of a line that goes on with a sentence.
pub fn refused_start(number: u32, place: u32) -> Text<128>
    ensures { result ≡ refused_start number place }
{
    let mut out = refused_with(number, place, b':');
    out.put_byte(b' ');
    out
}

// Issuer, name, set, from, to.
pub fn interval_line(role: u32, set: u32, from: u32, to: u32) -> Text<128>
    ensures { result ≡ interval_line role set from to }
{
    let mut out = Text::new();
    out.put_field(role / 32, b' ');
    out.put_field(role % 32, b' ');
    out.put_field(set, b' ');
    out.put_field(from, b' ');
    out.put_field(to, b'\n');
    out
}

// `refused`, number, place and the byte after them.
fn refused_with(number: u32, place: u32, end: u8) -> Text<128>
    ensures text { result ≡ refused_with number place end }
    ensures within { length result ≤ 30 }
{
    let mut out = Text::new();
    out.put_bytes(b"refused ");
    out.put_field(number, b' ');
    out.put_field(place, end);
    out
}
