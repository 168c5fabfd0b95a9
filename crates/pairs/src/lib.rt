// What an entry gives with each entry of a role, for the heads of a body: one head gets what it lacks, pair by pair; several get it in portions.
#![tactic(auto)]

ghost use Rattle.std.specs.Prelude.{◌≡◌, true, List, ℕ, ◌<◌, ◌≤◌};
ghost use Rattle.store.specs.Entries.{Searchable, Leading};
ghost use Rattle.rules.specs.Uses.{Listed, bodies_in};
ghost use Rattle.heads.specs.Stores.{ReadyIn};
ghost use Rattle.portions.specs.Plans.{PlanAdds};
ghost use Rattle.pairs.specs.Pairs.{OnlyHead, OnlyHeads, AllThere, Lacking};

use heads::Gift;
use portions::Plan;
use rules::UseLists;
use store::{Full, Store};
use waiting::Pair;

// Adds what the entries give to the heads of the body.
pub fn with_each(
    store: &mut Store,
    uses: &UseLists,
    done: &[u64; 1024],
    p: Plan,
) -> Result<(), Full>
    requires ready { ReadyIn store.old p.limit uses.now p.body }
    requires plan { (p.start ≤ store.old.count) × (p.offer.set < 4294967296) × (p.own ≤ store.old.count) }
    ensures { PlanAdds p uses.now done.now store.old store.new result }
{
    match only_head(uses, p.body) {
        Some(head) => with_head(store, uses, done, p, head),
        None => portions::with_heads(store, uses, done, p),
    }
}

// Adds what the entries give to the one head of the body.
fn with_head(
    store: &mut Store,
    uses: &UseLists,
    done: &[u64; 1024],
    p: Plan,
    head: usize,
) -> Result<(), Full>
    requires ready { ReadyIn store.old p.limit uses.now p.body }
    requires plan { (p.start ≤ store.old.count) × (p.offer.set < 4294967296) × (p.own ≤ store.old.count) }
    requires only { OnlyHead uses.now.codes uses.now.lists p.body head }
    ensures { PlanAdds p uses.now done.now store.old store.new result }
{
    let role = uses.head_role(head);
    let v = uses.valid[head];
    let mut at = p.start;
    while at != 0 {
        let g = lacking(store, done, p, role, v, at - 1);
        if g.spans != 0 {
            heads::add_head(store, uses, g, head)?;
        }
        at = store::wide(store.links[at - 1]);
    }
    Ok(())
}

// What entry j gives a head with the role and the spans v; in no spans where the head is known to have it all.
fn lacking(store: &Store, done: &[u64; 1024], p: Plan, role: usize, v: u64, j: usize) -> Gift
    requires leading { Leading store.now.slots }
    requires low { (role < 1024) × (p.offer.set < 4294967296) × (j < 1024) }
    ensures { Lacking store.now.keys store.now.spans store.now.slots done.now p role v j result }
{
    let x = waiting::pair_at(store, done, p.offer, j);
    if has(store, role, x, v) {
        let none = Pair {
            set: x.set,
            spans: 0,
            other: x.other,
        };
        return portions::gift_of(p, none);
    }
    portions::gift_of(p, x)
}

// Whether an entry is known to have all that a pair gives a head with the role and the spans v.
fn has(store: &Store, role: usize, x: Pair, v: u64) -> bool
    requires leading { Leading store.now.slots }
    requires low { (role < 1024) × (x.set < 4294967296) }
    ensures { result ≡ true → (n : ℕ) → Searchable store.now.keys store.now.slots n → AllThere store.now.keys store.now.spans n role x v }
{
    let m = x.spans & v;
    if m == 0 {
        return true;
    }
    store.known(store::key_of(role, x.set), m)
}

// The only head of a body. None where it has none or several; none is always right.
fn only_head(uses: &UseLists, body: usize) -> Option<usize>
    requires listed { ((codes valid : List ℕ) × Listed codes valid uses.now.lists) }
    requires low { body < bodies_in uses.now.lists }
    ensures { OnlyHeads uses.now.lists body result }
{
    let c = uses.first_head(body);
    if c == 0 {
        return None;
    }
    if uses.next_head(c) != 0 {
        return None;
    }
    Some(c - 1)
}
