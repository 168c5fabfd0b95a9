// The proof of one entry: the entries on which it rests, and no others, kept as proof steps and written into lent lists.
#![tactic(auto)]

ghost use Rattle.std.specs.Prelude.{◌≡◌, ◌++◌, map, suc, ◌-◌, ◌≤◌, ◌<◌, length, get_or, set, drop, replicate};
ghost use Rattle.meaning.specs.Lists.{below};
ghost use Rattle.derivation.specs.HandedOut.{words};
ghost use Rattle.store.specs.Entries.{set_in};
ghost use Rattle.store.specs.Notes.{word, noted};
ghost use Rattle.store.specs.Store.{SameLists};
ghost use Rattle.answering.specs.Answering.{Citing, Keeps};
ghost use Rattle.answering.specs.Marks.{spread_by, Marked};
ghost use Rattle.answering.specs.Steps.{steps_in};

use store::Store;

// Keeps the entries on which entry x rests, from place 0 on, as steps that cite steps; returns how many there are.
pub fn keep(store: &mut Store, x: usize) -> usize
    requires { (x < 1024) × Citing store.old.notes (suc x) }
    ensures keeps { Keeps store.old.keys store.old.notes x store.new.keys store.new.notes result }
    ensures others { SameLists store.old store.new }
{
    let mut numbers = needed(&store.notes, x);
    numbers[0] = 0;
    let mut k = 0;
    for j in 0..x + 1 {
        if numbers[j + 1] != 0 {
            keep_at(store, &numbers, j, k);
            numbers[j + 1] = k as u16;
            k += 1;
        }
    }
    k
}

// Writes the first `count` steps into four lists, zeros after them.
pub fn write(
    credential: &mut [u32],
    first: &mut [u32],
    second: &mut [u32],
    sets: &mut [u32],
    store: &Store,
    count: usize,
)
    requires { (count ≤ length credential.old) × (count ≤ length first.old) × (count ≤ length second.old) × (count ≤ length sets.old) × (count ≤ 1024) }
    ensures credential { credential.new ≡ words (λ s. s.credential) (length credential.old) (steps_in store.now.keys store.now.notes count) }
    ensures first { first.new ≡ words (λ s. s.first) (length first.old) (steps_in store.now.keys store.now.notes count) }
    ensures second { second.new ≡ words (λ s. s.second) (length second.old) (steps_in store.now.keys store.now.notes count) }
    ensures sets { sets.new ≡ words (λ s. s.set) (length sets.old) (steps_in store.now.keys store.now.notes count) }
{
    put_words(credential, store, 0, count);
    put_words(first, store, 1, count);
    put_words(second, store, 2, count);
    put_sets(sets, store, count);
}

// A column of the notes into a list, zeros after the first `count`.
fn put_words(list: &mut [u32], store: &Store, column: usize, count: usize)
    requires { (count ≤ length list.old) × (count ≤ 1024) × (column < 3) }
    ensures { list.new ≡ map (λ i. word store.now.notes i column) (below count) ++ replicate (length list.old - count) 0 }
{
    for i in 0..count {
        list[i] = store.notes[1024 * column + i] as u32;
    }
    list[count..].fill(0);
}

// The sets of the keys into a list, zeros after the first `count`.
fn put_sets(list: &mut [u32], store: &Store, count: usize)
    requires { (count ≤ length list.old) × (count ≤ 1024) }
    ensures { list.new ≡ map (λ i. set_in (get_or store.now.keys i 0)) (below count) ++ replicate (length list.old - count) 0 }
{
    for i in 0..count {
        list[i] = store::set_of(store.keys[i]) as u32;
    }
    list[count..].fill(0);
}

// Makes entry j step k. What it cites are steps with numbers, by the words that cite them; the word 0 has the number 0.
fn keep_at(store: &mut Store, numbers: &[u16; 1025], j: usize, k: usize)
    requires { (j < 1024) × (k < 1024) × (word store.old.notes j 1 ≤ 1024) × (word store.old.notes j 2 ≤ 1024) }
    ensures keys { store.new.keys ≡ set store.old.keys k (get_or store.old.keys j 0) }
    ensures notes { store.new.notes ≡ noted store.old.notes k (word store.old.notes j 0) (get_or numbers.now (word store.old.notes j 1) 0) (get_or numbers.now (word store.old.notes j 2) 0) }
    ensures others { SameLists store.old store.new }
{
    let first = numbers[store::wide(store.notes[1024 + j])];
    let second = numbers[store::wide(store.notes[2048 + j])];
    store.keys[k] = store.keys[j];
    let at = store.notes[j];
    store.note(k, at, first, second);
}

// Marks the entries that entry i cites, where it is marked. Entry i has place i + 1, the word that cites it.
fn spread(marks: &mut [u16; 1025], notes: &[u16; 3072], i: usize)
    requires { (i < 1024) × (word notes.now i 1 ≤ i) × (word notes.now i 2 ≤ i) }
    ensures { drop 1 marks.new ≡ spread_by notes.now i (drop 1 marks.old) }
{
    if marks[i + 1] != 0 {
        marks[store::wide(notes[1024 + i])] = 1;
        marks[store::wide(notes[2048 + i])] = 1;
    }
}

// The entries on which entry x rests, marked backward from it; place 0 is for words that cite nothing.
fn needed(notes: &[u16; 3072], x: usize) -> [u16; 1025]
    requires { (x < 1024) × Citing notes.now (suc x) }
    ensures { Marked notes.now x 0 (drop 1 result) }
{
    let mut marks = [0u16; 1025];
    marks[x + 1] = 1;
    for i in (0..x + 1).rev() {
        spread(&mut marks, notes, i);
    }
    marks
}
