// What an entry gives with each entry of a role, added to the heads of a body in portions: sets wait before the heads get them, so that each gets an equal set once.
#![tactic(auto)]

ghost use Rattle.std.specs.Prelude.{◌≡◌, ℕ, ◌<◌, ◌≤◌, get_or};
ghost use Rattle.store.specs.Entries.{role_in};
ghost use Rattle.heads.specs.Heads.{Headed, FromHeads};
ghost use Rattle.heads.specs.Stores.{ReadyIn, Adds};
ghost use Rattle.waiting.specs.Waiting.{Waits, Partnered};
ghost use Rattle.portions.specs.Plans.{PlanAdds, gift_of};

use heads::Gift;
use rules::UseLists;
use store::{Full, Store};
use waiting::{Offer, Pair};

// A body, an offer of the entry with the word `own`, and entry start - 1 with those before it in its role's list, which are paired with it.
#[derive(Clone, Copy)]
pub struct Plan {
    pub limit: usize,
    pub body: usize,
    pub start: usize,
    pub own: u16,
    pub offer: Offer,
}

// Adds what the entries of a plan give to the heads of its body.
pub fn with_heads(
    store: &mut Store,
    uses: &UseLists,
    done: &[u64; 1024],
    p: Plan,
) -> Result<(), Full>
    requires ready { ReadyIn store.old p.limit uses.now p.body }
    requires plan { (p.start ≤ store.old.count) × (p.offer.set < 4294967296) × (p.own ≤ store.old.count) }
    ensures { PlanAdds p uses.now done.now store.old store.new result }
{
    let mut places = waiting::room();
    let mut at = p.start;
    while at != 0 {
        let g = waiting::gather(&mut places, store, done, p.offer, at);
        add_waiting(store, uses, &places, p, g.count)?;
        at = g.at;
    }
    Ok(())
}

// What a pair gives the heads of a plan's body.
pub fn gift_of(p: Plan, x: Pair) -> Gift
    ensures { result ≡ gift_of p x }
{
    Gift {
        limit: p.limit,
        body: p.body,
        set: x.set,
        spans: x.spans,
        own: p.own,
        other: x.other,
    }
}

// Adds the sets that wait to the heads of the body.
fn add_waiting(
    store: &mut Store,
    uses: &UseLists,
    places: &[u64; 97],
    p: Plan,
    count: usize,
) -> Result<(), Full>
    requires ready { ReadyIn store.old p.limit uses.now p.body }
    requires few { (count ≤ 24) × (p.own ≤ store.old.count) }
    requires partners { ((i : ℕ) → i < count → role_in (get_or places.now i 0) ≤ store.old.count) }
    ensures { Adds p.limit store.old (Headed uses.now.codes uses.now.valid uses.now.lists p.body (Waits places.now count)) (FromHeads uses.now.codes uses.now.lists p.body p.own (Partnered places.now count)) store.new result }
{
    for i in 0..count {
        let y = places[i];
        let x = Pair {
            set: store::set_of(y),
            spans: places[24 + i],
            other: store::role_of(y) as u16,
        };
        heads::add_heads(store, uses, gift_of(p, x))?;
    }
    Ok(())
}
