// What an entry gives as a premise of the uses of its families.
#![tactic(auto)]

ghost use Rattle.std.specs.Prelude.{◌≡◌, ◌+◌, ◌≤◌, get_or};
ghost use Rattle.rules.specs.Uses.{family_of};
ghost use Rattle.rules.specs.Lists.{ListedIn, FormedIn};
ghost use Rattle.heads.specs.Heads.{Headed, FromHeads};
ghost use Rattle.heads.specs.Stores.{ReadyIn, Adds};
ghost use Rattle.closure.specs.Stores.{HeldIn};
ghost use Rattle.premises.specs.Combining.{InFamily, ByCode, Offers};
ghost use Rattle.premises.specs.Moves.{Firing};
ghost use Rattle.firing.specs.Firing.{Fires, FromFamily};

use heads::Gift;
use portions::Plan;
use premises::Turn;
use rules::UseLists;
use store::{Full, Store};
use waiting::Offer;

// Adds what entry e gives by every body of a family.
pub fn fire(
    store: &mut Store,
    uses: &UseLists,
    done: &[u64; 1024],
    t: Turn,
    family: usize,
) -> Result<(), Full>
    requires held { HeldIn store.old done.now }
    requires few { (store.old.count ≤ t.limit) × (t.limit ≤ 1024) }
    requires listed { ListedIn uses.now × FormedIn uses.now }
    requires firing { Firing done.now store.old.count t }
    requires family { InFamily store.old.keys t.e family }
    ensures { Adds t.limit store.old (Fires uses.now.codes uses.now.valid uses.now.lists store.old.keys done.now store.old.count t.e t.spans family) (FromFamily uses.now.codes uses.now.lists store.old.keys done.now store.old.count t.e family) store.new result }
{
    let mut at = uses.first_body(family);
    while at != 0 {
        fire_body(store, uses, done, t, at - 1)?;
        at = uses.next_body(at);
    }
    Ok(())
}

// Adds what entry e gives by one body, in those spans alone in which some head of it is valid.
fn fire_body(
    store: &mut Store,
    uses: &UseLists,
    done: &[u64; 1024],
    t: Turn,
    body: usize,
) -> Result<(), Full>
    requires ready { ReadyIn store.old t.limit uses.now body }
    requires firing { Firing done.now store.old.count t }
    requires family { InFamily store.old.keys t.e (family_of uses.now.codes body) }
    requires formed { FormedIn uses.now }
    ensures { Adds t.limit store.old (Headed uses.now.codes uses.now.valid uses.now.lists body (ByCode store.old.keys done.now store.old.count t.e t.spans (get_or uses.now.codes body 0))) (FromHeads uses.now.codes uses.now.lists body (t.e + 1) (Offers store.old.keys done.now store.old.count t.e (get_or uses.now.codes body 0))) store.new result }
{
    let d = t.spans & heads::body_spans(uses, body);
    if d == 0 {
        return Ok(());
    }
    let m = premises::plan(store, done, uses.codes[body], t, d);
    let offer = m.offer;
    if offer.spans == 0 {
        return Ok(());
    }
    let own = (t.e + 1) as u16;
    if m.each {
        let p = plan_of(t.limit, body, m.start, own, offer);
        return pairs::with_each(store, uses, done, p);
    }
    let g = gift_of(t.limit, body, offer, own, m.other);
    heads::add_heads(store, uses, g)
}

fn plan_of(limit: usize, body: usize, start: usize, own: u16, offer: Offer) -> Plan
    ensures { result ≡ record { limit = limit; body = body; start = start; own = own; offer = offer } }
{
    Plan {
        limit,
        body,
        start,
        own,
        offer,
    }
}

fn gift_of(limit: usize, body: usize, offer: Offer, own: u16, other: u16) -> Gift
    ensures { result ≡ record { limit = limit; body = body; set = offer.set; spans = offer.spans; own = own; other = other } }
{
    Gift {
        limit,
        body,
        set: offer.set,
        spans: offer.spans,
        own,
        other,
    }
}
