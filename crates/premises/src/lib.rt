// What a body gets from an entry as its premise: by its kind, one set, or what an offer gives with each entry of a role.
#![tactic(auto)]

ghost use Rattle.std.specs.Prelude.{◌≡◌, true, false, ◌<◌, get_or};
ghost use Rattle.store.specs.Entries.{key_of, role_in, Leading};
ghost use Rattle.premises.specs.Moves.{Codable, WithOne, Walking, Plans};

use store::Store;
use waiting::Offer;

// Entry e gives what it can in some spans. `last` says that no entry after it is done yet; false is always right. A new entry past the limit is not added.
#[derive(Clone, Copy)]
pub struct Turn {
    pub limit: usize,
    pub e: usize,
    pub last: bool,
    pub spans: u64,
}

// What a body gets: a set in some spans, with the word of a partner; or what an offer gives with each entry from start - 1 down its role's list.
#[derive(Clone, Copy)]
pub struct Move {
    pub each: bool,
    pub start: usize,
    pub other: u16,
    pub offer: Offer,
}

// What the body with a code gets from entry e in spans d.
pub fn plan(store: &Store, done: &[u64; 1024], code: u32, t: Turn, d: u64) -> Move
    requires leading { Leading store.now.slots }
    requires low { (t.e < 1024) × (role_in (get_or store.now.keys t.e 0) < 1024) }
    requires codable { Codable store.now.keys t.e code }
    ensures { Plans store.now.keys store.now.slots store.now.links done.now t code d result }
{
    let e = t.e;
    let x = store::set_of(store.keys[e]);
    let role = store::role_of(store.keys[e]);
    let kind = rules::kind_of(code);
    let partner = rules::other_of(code);
    if kind == 1 {
        return single(x, d, 0);
    }
    if kind == 3 {
        return with_one(store, done, partner, x, x, d);
    }
    if kind != 2 {
        let start = start_at(store, t, role, partner);
        return walking(kind, x, d, start);
    }
    if 1024 <= rules::family_of(code) {
        return with_one(store, done, partner, 1u64 << (role / 32), x, d);
    }
    let set = x as u32;
    if u32::count_ones(set) != 1 {
        return single(x, 0, 0);
    }
    let linked = u32::trailing_zeros(set) as usize * 32 + partner;
    let start = start_at(store, t, role, linked);
    walking(2, x, d, start)
}

// The set x in those spans of d in which the entry with the role and the set y is done, if there is one. A role without entries needs no search.
fn with_one(store: &Store, done: &[u64; 1024], role: usize, y: u64, x: u64, d: u64) -> Move
    requires leading { Leading store.now.slots }
    requires low { (role < 1024) × (y < 4294967296) }
    ensures { WithOne store.now.keys store.now.slots store.now.links done.now (key_of role y) x d result }
{
    if store.latest(role) == 0 {
        return single(x, 0, 0);
    }
    match store.entry_of(store::key_of(role, y)) {
        Some(i) => single(x, d & done[i], (i + 1) as u16),
        None => single(x, 0, 0),
    }
}

// One more than the latest entry of the partner's role that can be done, or 0; `role` is that of entry e.
fn start_at(store: &Store, t: Turn, role: usize, partner: usize) -> usize
    requires { (partner < 1024) × (t.e < 1024) }
    ensures { Walking store.now.links t role partner result }
{
    if t.last & (role == partner) {
        return t.e + 1;
    }
    store.latest(partner)
}

fn single(set: u64, spans: u64, other: u16) -> Move
    ensures { result ≡ record { each = false; start = 0; other = other; offer = record { kind = 0; set = set; spans = spans } } }
{
    Move {
        each: false,
        start: 0,
        other,
        offer: Offer {
            kind: 0,
            set,
            spans,
        },
    }
}

fn walking(kind: u32, set: u64, spans: u64, start: usize) -> Move
    ensures { result ≡ record { each = true; start = start; other = 0; offer = record { kind = kind; set = set; spans = spans } } }
{
    Move {
        each: true,
        start,
        other: 0,
        offer: Offer { kind, set, spans },
    }
}
