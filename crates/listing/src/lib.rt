// Adding to the lists of uses. Equal statements and equal bodies are looked for and joined, which saves time; no contract promises it.
#![tactic(auto)]

ghost use Rattle.std.specs.Prelude.{◌≡◌, ◌+◌, ◌<◌, ◌≤◌, length, get_or};
ghost use Rattle.store.specs.Store.{one_more};
ghost use Rattle.rules.specs.Uses.{Fitting, bodies_in, heads_in, UseAdded};
ghost use Rattle.rules.specs.Lists.{ListedIn};
ghost use Rattle.listing.specs.Places.{ItemList, Sought, linked, BodyPlaced, HeadPlaced};

use rules::{Use, UseLists};

// Adds a use in spans v. A head that is new has the source.
pub fn add_use(uses: &mut UseLists, u: Use, v: u64, source: u16)
    requires listed { ListedIn uses.old }
    requires room { (bodies_in uses.old.lists < 512) × (heads_in uses.old.lists < 512) }
    requires fitting { Fitting u }
    ensures { UseAdded u v source uses.old.codes uses.old.valid uses.old.lists uses.new.codes uses.new.valid uses.new.lists }
{
    let body = body_at(
        uses,
        u.family as usize,
        u.family * 8192 + u.kind * 1024 + u.other,
    );
    add_head(uses, body, body as u32 * 1024 + u.head, v, source);
}

// The item with a code, of a list of items that starts behind `at`.
fn search(
    codes: &[u32; 1024],
    base: usize,
    lists: &[u16; 3106],
    prev: usize,
    at: usize,
    code: u32,
) -> Option<usize>
    requires { ItemList lists.now base prev at }
    ensures { Sought codes.now base at code (one_more result) }
{
    let mut c = at;
    while c != 0 {
        if codes[base + c - 1] == code {
            return Some(c - 1);
        }
        c = store::wide(lists[prev + c - 1]);
    }
    None
}

// Makes item n the latest of its family.
fn link(lists: &mut [u16; 3106], prev: usize, last: usize, n: usize, family: usize)
    requires { (n < 512) × (prev + n < 3106) × (last + family < 3106) }
    ensures { lists.new ≡ linked lists.old prev last n family }
{
    lists[prev + n] = lists[last + family];
    lists[last + family] = (n + 1) as u16;
}

// The place of a body, which is added if it is new.
fn body_at(uses: &mut UseLists, family: usize, code: u32) -> usize
    requires items { ItemList uses.old.lists 0 0 (get_or uses.old.lists (512 + family) 0) }
    requires room { (bodies_in uses.old.lists < 512) × (family < 1056) × (get_or uses.old.lists (512 + family) 0 ≤ bodies_in uses.old.lists) }
    ensures placed { BodyPlaced uses.old.codes uses.old.lists family code uses.new.codes uses.new.lists result }
    ensures valid { uses.new.valid ≡ uses.old.valid }
{
    let at = store::wide(uses.lists[512 + family]);
    if let Some(b) = search(&uses.codes, 0, &uses.lists, 0, at, code) {
        return b;
    }
    let b = store::wide(uses.lists[3104]);
    uses.codes[b] = code;
    link(&mut uses.lists, 0, 512, b, family);
    uses.lists[3104] = (b + 1) as u16;
    b
}

// Adds spans to a head of a body, which is added with its source if it is new.
fn add_head(uses: &mut UseLists, body: usize, code: u32, v: u64, source: u16)
    requires items { ItemList uses.old.lists 512 1568 (get_or uses.old.lists (2080 + body) 0) }
    requires room { (heads_in uses.old.lists < 512) × (body < 512) × (get_or uses.old.lists (2080 + body) 0 ≤ heads_in uses.old.lists) }
    ensures { HeadPlaced uses.old.codes uses.old.valid uses.old.lists body code v source uses.new.codes uses.new.valid uses.new.lists }
{
    let at = store::wide(uses.lists[2080 + body]);
    if let Some(h) = search(&uses.codes, 512, &uses.lists, 1568, at, code) {
        uses.valid[h] |= v;
        return;
    }
    let h = store::wide(uses.lists[3105]);
    uses.codes[512 + h] = code;
    uses.valid[h] = v;
    link(&mut uses.lists, 1568, 2080, h, body);
    uses.lists[2592 + h] = source;
    uses.lists[3105] = (h + 1) as u16;
}
