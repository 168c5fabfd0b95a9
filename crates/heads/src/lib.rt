// Adding sets to the heads of a body, with a note of how each new entry came about.
#![tactic(auto)]

ghost use Rattle.std.specs.Prelude.{◌≡◌, List, ℕ, ◌<◌, ◌≤◌};
ghost use Rattle.rules.specs.Uses.{Listed};
ghost use Rattle.store.specs.Notes.{noted};
ghost use Rattle.store.specs.Store.{SameEntries};
ghost use Rattle.heads.specs.Heads.{One, ByHead, Headed, Coverings, credential_by, first_by, second_by, FromHead, FromHeads, TheOne};
ghost use Rattle.heads.specs.Stores.{KeptIn, ReadyIn, Adds};

use rules::UseLists;
use store::{Full, Store};

// A set for the heads of a body, in some spans; the words of the entry that gives it and of its partner, each one more than the entry's number, 0 where there is
// no partner. A new entry past the limit is not added.
#[derive(Clone, Copy)]
pub struct Gift {
    pub limit: usize,
    pub body: usize,
    pub set: u64,
    pub spans: u64,
    pub own: u16,
    pub other: u16,
}

// Adds a set to every head of a body.
pub fn add_heads(store: &mut Store, uses: &UseLists, g: Gift) -> Result<(), Full>
    requires ready { ReadyIn store.old g.limit uses.now g.body }
    requires gift { (g.set < 4294967296) × (g.own ≤ store.old.count) × (g.other ≤ store.old.count) }
    ensures { Adds g.limit store.old (Headed uses.now.codes uses.now.valid uses.now.lists g.body (One g.set g.spans)) (FromHeads uses.now.codes uses.now.lists g.body g.own (TheOne g.set g.other)) store.new result }
{
    let mut at = uses.first_head(g.body);
    while at != 0 {
        add_head(store, uses, g, at - 1)?;
        at = uses.next_head(at);
    }
    Ok(())
}

// Adds a set to head i. Inlined, so that a gift need not be stored for each call.
#[inline(always)]
pub fn add_head(store: &mut Store, uses: &UseLists, g: Gift, i: usize) -> Result<(), Full>
    requires kept { KeptIn store.old }
    requires few { (store.old.count ≤ g.limit) × (g.limit ≤ 1024) × (i < 512) }
    requires gift { (g.set < 4294967296) × (g.own ≤ store.old.count) × (g.other ≤ store.old.count) }
    ensures { Adds g.limit store.old (ByHead uses.now.codes uses.now.valid g.set g.spans i) (FromHead uses.now.codes uses.now.lists g.own g.other g.set i) store.new result }
{
    let n = store.count;
    let key = store::key_of(uses.head_role(i), g.set);
    store.add(g.limit, key, g.spans & uses.valid[i])?;
    if store.count == n {
        return Ok(());
    }
    note_head(store, n, uses.source_of(i), g.own, g.other);
    Ok(())
}

// The spans in which some head of a body is valid.
pub fn body_spans(uses: &UseLists, body: usize) -> u64
    requires listed { ((codes : List ℕ) × Listed codes uses.now.valid uses.now.lists) }
    requires low { body < 512 }
    ensures { Coverings uses.now.valid uses.now.lists body result }
{
    let mut all: u64 = 0;
    let mut at = uses.first_head(body);
    while at != 0 {
        all |= uses.valid[at - 1];
        at = uses.next_head(at);
    }
    all
}

// Notes entry n by the source of a head.
fn note_head(store: &mut Store, n: usize, source: u16, own: u16, other: u16)
    requires { (n < 1024) × (own ≤ n) × (other ≤ n) }
    ensures notes { store.new.notes ≡ noted store.old.notes n (credential_by source) (first_by source own other) (second_by source own other) }
    ensures others { SameEntries store.old store.new }
{
    let premise = source / 256 % 2;
    let first = own * (1 - premise) + other * premise;
    store.note(n, source % 256, first, own + other - first);
}
