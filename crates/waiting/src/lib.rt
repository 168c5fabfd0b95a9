// Sets that an entry gives with the entries of a role wait in 24 places, each once with all its spans and its first partner.
#![tactic(auto)]

ghost use Rattle.std.specs.Prelude.{◌≡◌, ◌<◌, ◌≤◌, length};
ghost use Rattle.waiting.specs.Pairs.{pair_set, pair_spans, pair_at};
ghost use Rattle.waiting.specs.Waiting.{RoleLists, Waiting, Placed, United, Gathers, Settled};

use store::Store;

// A set in some spans that is paired by a kind.
#[derive(Clone, Copy)]
pub struct Offer {
    pub kind: u32,
    pub set: u64,
    pub spans: u64,
}

// What an entry gives: a set, its spans, and the entry's word.
#[derive(Clone, Copy)]
pub struct Pair {
    pub set: u64,
    pub spans: u64,
    pub other: u16,
}

// How many sets wait, and where the walk goes on.
#[derive(Clone, Copy)]
pub struct Gathered {
    pub count: usize,
    pub at: usize,
}

// How many sets wait, and the place used last.
#[derive(Clone, Copy)]
struct Queue {
    count: usize,
    last: usize,
}

// Room for sets that wait.
pub fn room() -> [u64; 97]
    ensures { length result ≡ 97 }
{
    [0; 97]
}

// What entry j gives.
pub fn pair_at(store: &Store, done: &[u64; 1024], o: Offer, j: usize) -> Pair
    requires { (j < 1024) × (o.set < 4294967296) }
    ensures pair { result ≡ pair_at store.now.keys done.now o j }
    ensures set { result.set < 4294967296 }
{
    let kind = o.kind;
    let x = o.set;
    let y = store::set_of(store.keys[j]);
    Pair {
        set: pair_set(kind, x, y),
        spans: pair_spans(kind, x, y, o.spans & done[j]),
        other: (j + 1) as u16,
    }
}

// Has what entry start - 1 and the entries before it in its role's list give wait, until no place is left or the list ends.
pub fn gather(
    waiting: &mut [u64; 97],
    store: &Store,
    done: &[u64; 1024],
    o: Offer,
    start: usize,
) -> Gathered
    requires { (o.set < 4294967296) × (start ≤ 1024) × RoleLists store.now.keys store.now.links start }
    ensures { Gathers store.now.keys done.now o start waiting.new result }
{
    let mut q = Queue { count: 0, last: 0 };
    let mut at = start;
    while at != 0 {
        let x = pair_at(store, done, o, at - 1);
        if x.spans != 0 {
            if q.count == 24 {
                return Gathered { count: 24, at };
            }
            q = unite(waiting, q, x);
        }
        at = store::wide(store.links[at - 1]);
    }
    Gathered {
        count: q.count,
        at: 0,
    }
}

// Joins a set to its equal among those that wait, or gives it a new place.
fn unite(waiting: &mut [u64; 97], q: Queue, x: Pair) -> Queue
    requires waiting { Waiting waiting.old q.count }
    requires fits { (x.set < 4294967296) × (x.other ≤ 1024) }
    requires some { (x.spans ≡ 0 → ⊥) × (q.count < 24) }
    ensures { United waiting.old q x waiting.new result }
{
    let count = q.count;
    let place = place_of(waiting, q, x.set);
    if place < count {
        waiting[24 + place] |= x.spans;
        return Queue { count, last: place };
    }
    waiting[count] = x.other as u64 * 4294967296 + x.set;
    waiting[24 + count] = x.spans;
    waiting[49 + 2 * count] = 65535;
    waiting[50 + 2 * count] = 65535;
    Queue {
        count: count + 1,
        last: count,
    }
}

// The place of a set among those that wait, or their count: first the place used last is tried.
fn place_of(waiting: &mut [u64; 97], q: Queue, set: u64) -> usize
    requires { (length waiting.old ≡ 97) × (q.count < 24) × (set < 4294967296) }
    ensures { (Placed waiting.old q.count set result) × (Settled waiting.old waiting.new) }
{
    let last = q.last;
    if last < q.count && store::set_of(waiting[last]) == set {
        return last;
    }
    search(waiting, q.count, set)
}

// The place of a set among those that wait, or their count, by the tree in places 48 on, which then leads there. Were an equal set missed, only time would be lost.
fn search(waiting: &mut [u64; 97], count: usize, set: u64) -> usize
    requires { (length waiting.old ≡ 97) × (count < 24) × (set < 4294967296) }
    ensures placed { Placed waiting.old count set result }
    ensures settled { Settled waiting.old waiting.new }
{
    let mut x = set * 2654435761 % 4294967296;
    let mut p = 48;
    for _ in 0..33 {
        let c = widths::whole(waiting[p]) as usize;
        if count <= c {
            waiting[p] = count as u64;
            return count;
        }
        if store::set_of(waiting[c]) == set {
            return c;
        }
        p = 49 + 2 * c + (x / 2147483648) as usize;
        x = x * 2 % 4294967296;
    }
    count
}

// The spans of m in which x and y give a set.
fn pair_spans(kind: u32, x: u64, y: u64, m: u64) -> u64
    ensures { result ≡ pair_spans kind x y m }
{
    if kind == 5 && x & y != 0 {
        return 0;
    }
    m
}

// The set that x and y give.
fn pair_set(kind: u32, x: u64, y: u64) -> u64
    ensures { result ≡ pair_set kind x y }
{
    if kind == 2 {
        return y;
    }
    x | y
}
