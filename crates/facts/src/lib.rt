// Facts: the sets that the credentials of a policy state outright, loaded into the store, each in the spans that its credential's period covers.
#![tactic(auto)]

ghost use Rattle.std.specs.Prelude.{◌≡◌, ◌<◌, ◌≤◌};
ghost use Rattle.policy.specs.Policy.{credential_of, statement_in, Decoded};
ghost use Rattle.heads.specs.Stores.{KeptIn, Adds};
ghost use Rattle.masks.specs.Masks.{Spans};
ghost use Rattle.facts.specs.Facts.{StatedIn, StatedBy, FactAt, FactBy};

use store::{Full, Store};

// The sets of all credentials, into a store without entries.
pub fn load_sets(
    store: &mut Store,
    policy: &[u64; 512],
    n: usize,
    ends: &[u32; 64],
    count: usize,
    limit: usize,
) -> Result<(), Full>
    requires decoded { Decoded policy.now n }
    requires spans { Spans ends.now count }
    requires empty { KeptIn store.old × (store.old.count ≡ 0) }
    requires limit { limit ≤ 1024 }
    ensures { Adds limit store.old (StatedBy policy.now n ends.now count) (FactBy policy.now n ends.now count) store.new result }
{
    for i in 0..n {
        load_set(store, policy, ends, count, limit, i)?;
    }
    Ok(())
}

// The set of the credential at position i; kinds other than 0 state none.
fn load_set(
    store: &mut Store,
    policy: &[u64; 512],
    ends: &[u32; 64],
    count: usize,
    limit: usize,
    i: usize,
) -> Result<(), Full>
    requires kept { KeptIn store.old }
    requires few { (store.old.count ≤ limit) × (limit ≤ 1024) }
    requires spans { Spans ends.now count }
    requires kind { (i < 256) × ((statement_in policy.now i).kind ≤ 5) }
    ensures { Adds limit store.old (StatedIn ends.now count (credential_of policy.now i)) (FactAt ends.now count (credential_of policy.now i) i) store.new result }
{
    let s = policy::statement_at(policy, i);
    if s.kind != 0 {
        return Ok(());
    }
    let n = store.count;
    let v = masks::mask_at(policy, ends, count, i);
    store.add(limit, store::key_of(s.head as usize, s.set as u64), v)?;
    if store.count == n {
        return Ok(());
    }
    store.note(n, i as u16, 0, 0);
    Ok(())
}
