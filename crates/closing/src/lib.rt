// The closing loop: an entry whose spans are not all done gives what its new spans give, until all are done.
#![tactic(auto)]

ghost use Rattle.std.specs.Prelude.{◌≡◌, true, false, ℕ, ◌<◌, ◌≤◌, get_or, OnOk, Ok};
ghost use Rattle.rules.specs.Lists.{ListedIn, FormedIn};
ghost use Rattle.closure.specs.Closure.{Finished};
ghost use Rattle.closure.specs.Stores.{HeldIn};
ghost use Rattle.giving.specs.Giving.{LastDone};
ghost use Rattle.giving.specs.Stores.{ClosesIn};
ghost use Rattle.closing.specs.Passes.{Still};
ghost use Rattle.closing.specs.Stores.{GaveAnyIn};

use giving::Visit;
use rules::UseLists;
use store::{Full, Store};

// Every entry gives, until all is done. Nothing is done before.
pub fn close(
    store: &mut Store,
    done: &mut [u64; 1024],
    uses: &UseLists,
    limit: usize,
) -> Result<(), Full>
    requires held { HeldIn store.old done.old }
    requires few { (store.old.count ≤ limit) × (limit ≤ 1024) }
    requires listed { ListedIn uses.now × FormedIn uses.now }
    requires fresh { ((i : ℕ) → get_or done.old i 0 ≡ 0) }
    ensures outcome { ClosesIn limit uses.now store.old done.old store.new done.new result }
    ensures finished { OnOk result (Finished store.new.spans done.new store.new.count) }
{
    let mut last = true;
    while pass(store, done, uses, limit, last)? {
        last = false;
    }
    Ok(())
}

// Every entry whose spans are not all done gives, in order. Answers whether one gave.
fn pass(
    store: &mut Store,
    done: &mut [u64; 1024],
    uses: &UseLists,
    limit: usize,
    last: bool,
) -> Result<bool, Full>
    requires held { HeldIn store.old done.old }
    requires few { (store.old.count ≤ limit) × (limit ≤ 1024) }
    requires listed { ListedIn uses.now × FormedIn uses.now }
    requires last { (last ≡ true → (i : ℕ) → get_or done.old i 0 ≡ 0) }
    ensures gave_any { GaveAnyIn limit uses.now store.old done.old false store.new done.new result }
    ensures finished { (result ≡ Ok false → Finished store.new.spans done.new store.new.count) }
{
    let mut any = false;
    let mut e = 0;
    while e < store.count {
        any = give_new(store, done, uses, any, Visit { limit, e, last })?;
        e += 1;
    }
    Ok(any)
}

// Entry e gives, if its spans are not all done. Answers whether any gave so far.
fn give_new(
    store: &mut Store,
    done: &mut [u64; 1024],
    uses: &UseLists,
    any: bool,
    v: Visit,
) -> Result<bool, Full>
    requires held { HeldIn store.old done.old }
    requires few { (store.old.count ≤ v.limit) × (v.limit ≤ 1024) }
    requires listed { ListedIn uses.now × FormedIn uses.now }
    requires entry { v.e < store.old.count }
    requires last { LastDone done.old v }
    ensures gave_any { GaveAnyIn v.limit uses.now store.old done.old any store.new done.new result }
    ensures still { (result ≡ Ok false → (store.new.count ≡ store.old.count) × Still store.old.spans done.old any v.e store.new.spans done.new) }
    ensures others { ((i : ℕ) → (i ≡ v.e → ⊥) → get_or done.new i 0 ≡ get_or done.old i 0) }
{
    let e = v.e;
    if store.spans[e] == done[e] {
        return Ok(any);
    }
    giving::give(store, done, uses, v)?;
    Ok(true)
}
