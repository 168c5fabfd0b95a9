// Finding the entry of one role and set at a minute, with its least level; or a refusal.
#![tactic(auto)]

ghost use Rattle.std.specs.Prelude.{◌≡◌, List, ℕ, ◌≤◌, ◌<◌, replicate};
ghost use Rattle.store.specs.Notes.{level_of, Leveled};
ghost use Rattle.loading.specs.Lists.{NoUsesIn};
ghost use Rattle.levels.specs.Levels.{Rising};
ghost use Rattle.withdrawals.specs.Source.{◌without◌};
ghost use Rattle.asking.specs.Asking.{request, StepLists, Sized};
ghost use Rattle.finding.specs.Finding.{Finds};
ghost use Rattle.finding.specs.Stores.{PreparesIn};
ghost use Rattle.meaning.specs.Credentials.{Credential};
ghost use Rattle.heads.specs.Stores.{KeptIn};
ghost use Rattle.searching.specs.Stores.{LoadedIn, SearchedIn};

use rules::UseLists;
use store::{Full, Store};

// Number and place of a refusal; or number 0, with the membership's entry and its level.
#[derive(Clone, Copy)]
pub struct Found {
    pub number: u32,
    pub place: u32,
    pub entry: usize,
    pub level: u16,
}

// A role, a set and a minute, and the lengths of four lists.
#[derive(Clone, Copy)]
struct Question {
    role: u32,
    set: u32,
    minute: u32,
    credential: usize,
    first: usize,
    second: usize,
    sets: usize,
}

// Number and place of a refusal; or number 0, and whether all that is valid could be loaded.
#[derive(Clone, Copy)]
struct Prepared {
    number: u32,
    place: u32,
    loaded: Result<(), Full>,
}

// Judges the request, searches all memberships at the minute, in a store whose keys and notes are zeros, whatever else it holds, and looks the one up. More of them than lists of so many steps hold: 10. None with this role and set: 13.
pub fn find(
    store: &mut Store,
    file: &[u8],
    withdrawals: &[u8],
    role: u32,
    set: u32,
    minute: u32,
    credential: usize,
    first: usize,
    second: usize,
    sets: usize,
) -> Found
    requires { (store.old.keys ≡ replicate 1024 0) × (store.old.notes ≡ replicate 3072 0) }
    ensures { (t : StepLists) → Sized t credential first second sets → Finds (file.now without withdrawals.now) (request role set minute) t store.new.keys store.new.notes result }
{
    let mut uses = UseLists::new();
    let q = Question {
        role,
        set,
        minute,
        credential,
        first,
        second,
        sets,
    };
    let p = prepare(store, &mut uses, file, withdrawals, q);
    if p.number != 0 {
        return not_found(p.number, p.place);
    }
    if searching::search(store, &uses, p.loaded, credential).is_err() {
        return not_found(10, 0);
    }
    match store.entry_of(store::key_of(role as usize, set as u64)) {
        Some(entry) => Found {
            number: 0,
            place: 0,
            entry,
            level: level_of(&store.notes, entry),
        },
        None => not_found(13, 0),
    }
}

// Judges the request, and then loads what is valid at the minute into the store, whatever it held. The decoded policy is gone when this returns, before the search takes its room.
fn prepare(
    store: &mut Store,
    uses: &mut UseLists,
    file: &[u8],
    withdrawals: &[u8],
    q: Question,
) -> Prepared
    requires { NoUsesIn uses.old }
    ensures { (t : StepLists) → Sized t q.credential q.first q.second q.sets → PreparesIn (file.now without withdrawals.now) (request q.role q.set q.minute) t store.new uses.new result }
{
    let mut policy = policy::room();
    let j = asking::judge(
        &mut policy,
        file,
        withdrawals,
        q.role,
        q.set,
        q.minute,
        q.credential,
        q.first,
        q.second,
        q.sets,
    );
    if j.number != 0 {
        return Prepared {
            number: j.number,
            place: j.place,
            loaded: Ok(()),
        };
    }
    clear(store);
    let loaded = searching::load(store, uses, &policy, j.credentials, q.minute, q.credential);
    Prepared {
        number: j.number,
        place: j.place,
        loaded,
    }
}

// Leaves a store without entries. Keys, spans and notes are read only of entries, and stay.
fn clear(store: &mut Store)
    ensures { KeptIn store.new × (store.new.count ≡ 0) }
{
    store.slots.fill(0);
    store.links.fill(0);
    store.count = 0;
}

fn not_found(number: u32, place: u32) -> Found
    ensures { result ≡ record { number = number; place = place; entry = 0; level = 0 } }
{
    Found {
        number,
        place,
        entry: 0,
        level: 0,
    }
}

// The level of entry x: one more than that of the later entry which it cites. Levels never fall, so this is the higher of the two.
fn level_of(notes: &[u16; 3072], x: usize) -> u16
    requires low { x < 1024 }
    requires leveled { ((i : ℕ) → i ≤ x → Leveled notes.now i) }
    requires rising { ((n : ℕ) × (x < n) × Rising notes.now n) }
    ensures { result ≡ level_of notes.now x }
{
    let mut level: u16 = 0;
    let mut at = x + 1;
    while at != 0 {
        level += 1;
        at = store::wide(notes[1023 + at].max(notes[2047 + at]));
    }
    level
}
