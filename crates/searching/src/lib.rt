// The search at one minute: all memberships, each with how it was derived, in the order of their least levels.
#![tactic(auto)]

ghost use Rattle.std.specs.Prelude.{◌≡◌, List, ℕ, ◌≤◌, length, get_or, Ok};
ghost use Rattle.meaning.specs.Credentials.{Credential};
ghost use Rattle.policy.specs.Policy.{credentials_of, Decoded};
ghost use Rattle.store.specs.Store.{Fits};
ghost use Rattle.heads.specs.Stores.{KeptIn};
ghost use Rattle.loading.specs.Lists.{NoUsesIn};
ghost use Rattle.searching.specs.Stores.{LoadedIn, SearchedIn};

use rules::UseLists;
use store::{Full, Store};

// Loads what is valid at the minute: sets into a store without entries, other bodies into lists without uses. After this the policy is not read again.
pub fn load(
    store: &mut Store,
    uses: &mut UseLists,
    policy: &[u64; 512],
    n: usize,
    minute: u32,
    limit: usize,
) -> Result<(), Full>
    requires decoded { Decoded policy.now n }
    requires empty { KeptIn store.old × (store.old.count ≡ 0) }
    requires none { NoUsesIn uses.old }
    requires limit { limit ≤ 1024 }
    ensures loaded { LoadedIn (credentials_of policy.now n) minute limit store.new uses.new result }
    ensures within { Fits limit store.new.count result }
{
    let ends = one_end(minute);
    loading::load_uses(uses, policy, n, &ends, 1);
    facts::load_sets(store, policy, n, &ends, 1, limit)
}

// Finds all memberships from what was loaded.
pub fn search(
    store: &mut Store,
    uses: &UseLists,
    loaded: Result<(), Full>,
    limit: usize,
) -> Result<(), Full>
    requires { (cs : List Credential) × (m : ℕ) × LoadedIn cs m limit store.old uses.now loaded }
    ensures searched { (cs : List Credential) (m : ℕ) → LoadedIn cs m limit store.old uses.now loaded → SearchedIn cs m limit store.new result }
    ensures within { Fits limit store.old.count loaded → Fits limit store.new.count result }
{
    loaded?;
    let mut done = store::room_for_spans();
    levels::fire_all(store, &mut done, uses, limit)
}

// A list of ends that begins with the minute.
fn one_end(minute: u32) -> [u32; 64]
    ensures { (length result ≡ 64) × (get_or result 0 0 ≡ minute) }
{
    let mut ends = [0; 64];
    ends[0] = minute;
    ends
}
