// Sets of entities as text, in braces: {1,3}.
#![tactic(auto)]

ghost use Rattle.std.specs.Prelude.{◌≡◌, ◌++◌, [], ◌+◌, ◌≤◌, ◌<◌, length};
ghost use Rattle.text.specs.Numbers.{number_in};
ghost use Rattle.sets.specs.Sets.{has as sets_has, set_text, entity_text, with_entity, with_list, set_in};

use text::Text;

// The entities of a set in braces, as {1,3}: at most 98 bytes.
pub fn put_set<const N: usize>(out: &mut Text<N>, set: u32)
    requires { length out.old + 108 ≤ N }
    ensures text { out.new ≡ out.old ++ set_text set }
    ensures within { length out.new ≤ length out.old + 98 }
{
    out.put_byte(b'{');
    let mut later = false;
    for e in 0..32 {
        put_entity(out, later, set, e);
        later |= has(set, e);
    }
    out.put_byte(b'}');
}

// The set that bytes write in braces, as {1,3}: one entity or more in decimal, in any order, none twice.
pub fn parse_set(bytes: &[u8]) -> Option<u32>
    ensures { result ≡ set_in bytes.now }
{
    let n = bytes.len();
    if n < 2 {
        return None;
    }
    if bytes[0] != b'{' {
        return None;
    }
    let last = n - 1;
    if bytes[last] != b'}' {
        return None;
    }
    parse_list(&bytes[1..last])
}

// Entity e, if the set has it, with a comma before it if another stands there.
fn put_entity<const N: usize>(out: &mut Text<N>, later: bool, set: u32, e: u32)
    requires { (length out.old + 11 ≤ N) × (e < 32) }
    ensures text { out.new ≡ out.old ++ entity_text later set e }
    ensures within { length out.new ≤ length out.old + 3 }
{
    if !has(set, e) {
        return;
    }
    if later {
        out.put_byte(b',');
    }
    out.put_decimal(e);
}

fn has(set: u32, e: u32) -> bool
    requires { e < 32 }
    ensures { result ≡ sets_has set e }
{
    (set >> e) % 2 == 1
}

// The set of the entities that bytes list with commas between them.
fn parse_list(bytes: &[u8]) -> Option<u32>
    ensures { result ≡ with_list 0 [] bytes.now }
{
    let mut set: u32 = 0;
    let mut from = 0;
    for i in 0..bytes.len() {
        if bytes[i] == b',' {
            set = with_entity(set, &bytes[from..i])?;
            from = i + 1;
        }
    }
    with_entity(set, &bytes[from..])
}

// The set with one entity more, which it does not have yet.
fn with_entity(set: u32, number: &[u8]) -> Option<u32>
    ensures { result ≡ with_entity set (number_in number.now) }
{
    let e = text::parse(number)?;
    if 32 <= e {
        return None;
    }
    if has(set, e) {
        return None;
    }
    Some(set | (1u32 << e))
}
