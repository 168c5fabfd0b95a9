// Giving: an entry whose spans are not all done gives what its new spans give, by every body of which it is a premise.
#![tactic(auto)]

ghost use Rattle.std.specs.Prelude.{◌≡◌, ◌<◌, ◌≤◌, get_or};
ghost use Rattle.std.specs.Int.Bits.{bit_xor};
ghost use Rattle.rules.specs.Lists.{ListedIn, FormedIn};
ghost use Rattle.heads.specs.Stores.{Adds};
ghost use Rattle.closure.specs.Stores.{HeldIn};
ghost use Rattle.premises.specs.Combining.{InFamily};
ghost use Rattle.premises.specs.Moves.{Firing};
ghost use Rattle.firing.specs.Firing.{Fires, FromFamily};
ghost use Rattle.giving.specs.Giving.{LastDone, FiresBoth, FromEntry};
ghost use Rattle.giving.specs.Stores.{GaveIn};

use premises::Turn;
use rules::UseLists;
use store::{Full, Store};

// Entry e is to give. `last` says that no entry after it is done yet; false is always right. A new entry past the limit is not added.
#[derive(Clone, Copy)]
pub struct Visit {
    pub limit: usize,
    pub e: usize,
    pub last: bool,
}

// Entry e, whose spans are not all done, gives what its new spans give, which are then done.
pub fn give(
    store: &mut Store,
    done: &mut [u64; 1024],
    uses: &UseLists,
    v: Visit,
) -> Result<(), Full>
    requires held { HeldIn store.old done.old }
    requires few { (store.old.count ≤ v.limit) × (v.limit ≤ 1024) }
    requires listed { ListedIn uses.now × FormedIn uses.now }
    requires entry { (v.e < store.old.count) × (get_or done.old v.e 0 ≡ get_or store.old.spans v.e 0 → ⊥) }
    requires last { LastDone done.old v }
    ensures { GaveIn uses.now store.old done.old v store.new done.new result }
{
    let e = v.e;
    let m = store.spans[e];
    let d = not_done(m, done[e]);
    done[e] = m;
    let t = Turn {
        limit: v.limit,
        e,
        last: v.last,
        spans: d,
    };
    fire_both(store, uses, done, t)
}

// From entry e by every body of its role, then by every body for links by its name.
fn fire_both(store: &mut Store, uses: &UseLists, done: &[u64; 1024], t: Turn) -> Result<(), Full>
    requires held { HeldIn store.old done.now }
    requires few { (store.old.count ≤ t.limit) × (t.limit ≤ 1024) }
    requires listed { ListedIn uses.now × FormedIn uses.now }
    requires firing { Firing done.now store.old.count t }
    ensures { Adds t.limit store.old (FiresBoth uses.now.codes uses.now.valid uses.now.lists store.old.keys done.now store.old.count t.e t.spans) (FromEntry uses.now.codes uses.now.lists store.old.keys done.now store.old.count t.e) store.new result }
{
    let role = store::role_of(store.keys[t.e]);
    fire_family(store, uses, done, t, role)?;
    fire_family(store, uses, done, t, 1024 + role % 32)
}

// From entry e by every body of a family. A family without bodies is not gone through.
fn fire_family(
    store: &mut Store,
    uses: &UseLists,
    done: &[u64; 1024],
    t: Turn,
    family: usize,
) -> Result<(), Full>
    requires held { HeldIn store.old done.now }
    requires few { (store.old.count ≤ t.limit) × (t.limit ≤ 1024) }
    requires listed { ListedIn uses.now × FormedIn uses.now }
    requires firing { Firing done.now store.old.count t }
    requires family { InFamily store.old.keys t.e family }
    ensures { Adds t.limit store.old (Fires uses.now.codes uses.now.valid uses.now.lists store.old.keys done.now store.old.count t.e t.spans family) (FromFamily uses.now.codes uses.now.lists store.old.keys done.now store.old.count t.e family) store.new result }
{
    if uses.first_body(family) == 0 {
        return Ok(());
    }
    firing::fire(store, uses, done, t, family)
}

// The spans m without those done, which are among them.
fn not_done(m: u64, done: u64) -> u64
    ensures { (result ≡ bit_xor m done) × (m < 18446744073709551616) }
{
    m ^ done
}
