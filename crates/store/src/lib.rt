// The store of completing and querying: entries in the order in which they were found, looked up by key, in lists by role, each with a note of how it came about.
#![tactic(auto)]

ghost use Rattle.std.specs.Prelude.{◌≡◌, true, ℕ, ◌+◌, ◌<◌, ◌≤◌, length, set, replicate};
ghost use Rattle.store.specs.Entries.{key_of, role_in, set_in, mixed, latest_in, pushed, Searchable, Leading, At, LookedUp, HasAll, Added};
ghost use Rattle.store.specs.Notes.{noted};
ghost use Rattle.store.specs.Store.{StoredIn, SameEntries, one_more, reached, Fits, blank};

// Entries, `count` of them: of each its key and the spans in which it was found; where each key is looked up; the list of each role; and a note for each entry.
#[derive(Drop)]
pub struct Store {
    pub keys: [u64; 1024],
    pub spans: [u64; 1024],
    pub slots: [u16; 3072],
    pub links: [u16; 2048],
    pub notes: [u16; 3072],
    pub count: usize,
}

// A new entry would be past the limit, and was not added.
#[derive(Clone, Copy)]
pub struct Full;

impl Store {
    // A store without entries.
    pub fn new() -> Store
        ensures { result ≡ blank }
    {
        Store {
            keys: [0; 1024],
            spans: [0; 1024],
            slots: [0; 3072],
            links: [0; 2048],
            notes: [0; 3072],
            count: 0,
        }
    }

    // The number of the entry with the key.
    pub fn entry_of(&self, key: u64) -> Option<usize>
        requires { Leading self.now.slots }
        ensures { LookedUp self.now.keys self.now.slots key (one_more result) }
    {
        let p = find(&self.keys, &self.slots, key);
        match wide(self.slots[p]) {
            0 => None,
            c => Some(c - 1),
        }
    }

    // Whether an entry is known to have the key in all spans of m.
    pub fn known(&self, key: u64, m: u64) -> bool
        requires { Leading self.now.slots }
        ensures { result ≡ true → (n : ℕ) → Searchable self.now.keys self.now.slots n → HasAll self.now.keys self.now.spans n key m }
    {
        match self.entry_of(key) {
            Some(i) => self.spans[i] & m == m,
            None => false,
        }
    }

    // Adds spans to the entry of a key.
    pub fn add(&mut self, limit: usize, key: u64, m: u64) -> Result<(), Full>
        requires stored { StoredIn self.old }
        requires few { (self.old.count ≤ limit) × (limit ≤ 1024) }
        requires role { role_in key < 1024 }
        ensures added { Added limit key m self.old.keys self.old.spans self.old.count self.new.keys self.new.spans self.new.slots self.new.links (reached limit self.new.count result) }
        ensures within { Fits limit self.new.count result }
        ensures notes { self.new.notes ≡ self.old.notes }
    {
        if m == 0 {
            return Ok(());
        }
        let p = find(&self.keys, &self.slots, key);
        let c = wide(self.slots[p]);
        if c != 0 {
            self.spans[c - 1] |= m;
            return Ok(());
        }
        if limit <= self.count {
            return Err(Full);
        }
        self.append(p, key, m);
        Ok(())
    }

    // Notes how entry n came about.
    pub fn note(&mut self, n: usize, at: u16, first: u16, second: u16)
        requires { n < 1024 }
        ensures notes { self.new.notes ≡ noted self.old.notes n at first second }
        ensures others { SameEntries self.old self.new }
    {
        self.notes[n] = at;
        self.notes[1024 + n] = first;
        self.notes[2048 + n] = second;
    }

    // One more than the latest entry of a role, or 0.
    pub fn latest(&self, role: usize) -> usize
        requires { role < 1024 }
        ensures { result ≡ latest_in self.now.links role }
    {
        wide(self.links[1024 + role])
    }

    // Makes an entry with slot p, the latest of its role, in spans m.
    fn append(&mut self, p: usize, key: u64, m: u64)
        requires { (self.old.count < 1024) × (p < 3072) × (role_in key < 1024) }
        ensures keys { self.new.keys ≡ set self.old.keys self.old.count key }
        ensures spans { self.new.spans ≡ set self.old.spans self.old.count m }
        ensures slots { self.new.slots ≡ set self.old.slots p (self.old.count + 1) }
        ensures links { self.new.links ≡ pushed self.old.links self.old.count (role_in key) }
        ensures notes { self.new.notes ≡ self.old.notes }
        ensures count { self.new.count ≡ self.old.count + 1 }
    {
        let n = self.count;
        let r = 1024 + role_of(key);
        self.keys[n] = key;
        self.spans[n] = m;
        self.slots[p] = (n + 1) as u16;
        self.links[n] = self.links[r];
        self.links[r] = (n + 1) as u16;
        self.count = n + 1;
    }
}

// The key of a role with a set.
pub fn key_of(role: usize, set: u64) -> u64
    requires { (role < 1024) × (set < 4294967296) }
    ensures { result ≡ key_of role set }
{
    role as u64 * 4294967296 + set
}

// A key's role.
pub fn role_of(key: u64) -> usize
    ensures { result ≡ role_in key }
{
    (key / 4294967296) as usize
}

// A key's set.
pub fn set_of(key: u64) -> u64
    ensures { (result ≡ set_in key) × (result < 4294967296) }
{
    key % 4294967296
}

// A number of a list as a place.
pub fn wide(x: u16) -> usize
    ensures { (result ≡ x) × (x < 65536) }
{
    x as usize
}

// Room for the spans that are done.
pub fn room_for_spans() -> [u64; 1024]
    ensures { result ≡ replicate 1024 0 }
{
    [0; 1024]
}

// The bits by which a key is looked for.
#[tactic(auto, unfolding(crate::specs::Entries::mixed))]
fn mix(key: u64) -> u64
    ensures { result ≡ mixed key }
{
    let x = key % 4294967296 * 2654435761 + key / 4294967296 % 1024 * 2246822519;
    x / 4194304 + x % 4194304 * 4398046511104
}

// Where a search for a key ends: at the slot of its entry, or at an empty one.
fn find(keys: &[u64; 1024], slots: &[u16; 3072], key: u64) -> usize
    requires { Leading slots.now }
    ensures { At keys.now slots.now key result }
{
    let mut x = mix(key);
    let mut p = (x % 1024) as usize;
    x = x / 1024;
    loop {
        let c = wide(slots[p]);
        if c == 0 {
            return p;
        }
        if keys[c - 1] == key {
            return p;
        }
        p = 1022 + 2 * c + (x % 2) as usize;
        x = x / 2;
    }
}
