// Entries give one after the other, in list order, so that levels never fall.
#![tactic(auto)]

ghost use Rattle.std.specs.Prelude.{◌≤◌};
ghost use Rattle.levels.specs.Stores.{AtStartIn, FiredAllIn};

use giving::Visit;
use rules::UseLists;
use store::{Full, Store};

// Has one entry after the other give, until all have.
pub fn fire_all(
    store: &mut Store,
    done: &mut [u64; 1024],
    uses: &UseLists,
    limit: usize,
) -> Result<(), Full>
    requires start { AtStartIn store.old done.old uses.now }
    requires few { (store.old.count ≤ limit) × (limit ≤ 1024) }
    ensures { FiredAllIn limit uses.now store.old done.old store.new done.new result }
{
    let mut e = 0;
    while e < store.count {
        let v = Visit {
            limit,
            e,
            last: true,
        };
        giving::give(store, done, uses, v)?;
        e += 1;
    }
    Ok(())
}
