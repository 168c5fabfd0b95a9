// The table of a decoded policy: loading, closing and writing, one after the other.
#![tactic(auto)]

ghost use Rattle.std.specs.Prelude.{◌≡◌, length};
ghost use Rattle.policy.specs.Policy.{credentials_of};
ghost use Rattle.store.specs.Store.{blank};
ghost use Rattle.tabling.specs.Tabling.{Loadable};
ghost use Rattle.tabling.specs.Stores.{WorkedTo, FilledIn};

use rules::UseLists;
use store::{Full, Store};

// The table in lists of one length, and its count. Fills a store of its own and writes its rows. Full: there are more memberships than places.
pub fn write_table(
    roles: &mut [u32],
    sets: &mut [u32],
    spans: &mut [u64],
    policy: &[u64; 512],
    credentials: usize,
    ends: &[u32; 64],
    count: usize,
) -> Result<usize, Full>
    requires loadable { Loadable policy.now credentials ends.now count (length roles.old) }
    requires lengths { (length sets.old ≡ length roles.old) × (length spans.old ≡ length roles.old) }
    ensures { WorkedTo (credentials_of policy.now credentials) (length roles.old) roles.new sets.new spans.new result }
{
    let limit = roles.len();
    let mut store = Store::new();
    fill(&mut store, policy, credentials, ends, count, limit)?;
    writing::write_rows(&store, roles, sets, spans);
    Ok(store.count)
}

// Lists the uses of the policy, loads its sets and closes what was loaded.
fn fill(
    store: &mut Store,
    policy: &[u64; 512],
    credentials: usize,
    ends: &[u32; 64],
    count: usize,
    limit: usize,
) -> Result<(), Full>
    requires loadable { Loadable policy.now credentials ends.now count limit }
    requires blank { store.old ≡ blank }
    ensures { FilledIn (credentials_of policy.now credentials) limit store.new result }
{
    let mut uses = UseLists::new();
    loading::load_uses(&mut uses, policy, credentials, ends, count);
    facts::load_sets(store, policy, credentials, ends, count, limit)?;
    let mut done = store::room_for_spans();
    closing::close(store, &mut done, &uses, limit)
}
