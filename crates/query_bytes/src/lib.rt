// Querying on bytes: the steps are written straight into the lent bytes.
#![tactic(auto)]

ghost use Rattle.std.specs.Prelude.{◌≡◌, ◌++◌, map, ◌-◌, ◌*◌, ◌≤◌, ◌<◌, length, get_or, replicate};
ghost use Rattle.meaning.specs.Lists.{below};
ghost use Rattle.store.specs.Entries.{set_in};
ghost use Rattle.store.specs.Notes.{word as word_of};
ghost use Rattle.derivation.specs.HandedOut.{words};
ghost use Rattle.answering.specs.Steps.{steps_in};
ghost use Rattle.asking.specs.Asking.{request, step_lists};
ghost use Rattle.querying.specs.Querying.{says_answer};
ghost use Rattle.codec.specs.Bytes.{bytes_of};
ghost use Rattle.replies.specs.Interface.{word};
ghost use Rattle.replies.specs.Lengths.{StepSizes};
ghost use Rattle.withdrawals.specs.Source.{◌without◌};
ghost use Rattle.query_bytes.specs.Interface.{steps_and_level, QueriedBytes};

use querying::Answer;
use store::Store;

// Lists of the bytes of n entries each.
pub fn query(
    credential: &mut [u8],
    first: &mut [u8],
    second: &mut [u8],
    sets: &mut [u8],
    file: &[u8],
    withdrawals: &[u8],
    role: u32,
    set: u32,
    minute: u32,
    n: usize,
) -> u64
    requires { StepSizes (step_lists credential.old first.old second.old sets.old) n }
    ensures { QueriedBytes (file.now without withdrawals.now) (request role set minute) (step_lists credential.old first.old second.old sets.old) result (step_lists credential.new first.new second.new sets.new) }
{
    let mut store = Store::new();
    let answer = querying::prove(&mut store, file, withdrawals, role, set, minute, n, n, n, n);
    if !querying::lists_written(answer) {
        return number_of(answer);
    }
    write(
        credential,
        first,
        second,
        sets,
        &store,
        querying::steps_of(answer),
        n,
    );
    number_of(answer)
}

// Writes the first `count` steps into lists of the bytes of n entries each, zeros after them.
fn write(
    credential: &mut [u8],
    first: &mut [u8],
    second: &mut [u8],
    sets: &mut [u8],
    store: &Store,
    count: usize,
    n: usize,
)
    requires sizes { StepSizes (step_lists credential.old first.old second.old sets.old) n }
    requires few { count ≤ n }
    ensures credential { credential.new ≡ bytes_of 4 (words (λ s. s.credential) n (steps_in store.now.keys store.now.notes count)) }
    ensures first { first.new ≡ bytes_of 4 (words (λ s. s.first) n (steps_in store.now.keys store.now.notes count)) }
    ensures second { second.new ≡ bytes_of 4 (words (λ s. s.second) n (steps_in store.now.keys store.now.notes count)) }
    ensures sets { sets.new ≡ bytes_of 4 (words (λ s. s.set) n (steps_in store.now.keys store.now.notes count)) }
{
    put_words(credential, store, 0, count, n);
    put_words(first, store, 1, count, n);
    put_words(second, store, 2, count, n);
    put_sets(sets, store, count, n);
}

// A column of the notes as bytes of n entries, zeros after the first `count`.
fn put_words(list: &mut [u8], store: &Store, column: usize, count: usize, n: usize)
    requires { (length list.old ≡ 4 * n) × (count ≤ n) × (n ≤ 1024) × (column < 3) }
    ensures { list.new ≡ bytes_of 4 (map (λ i. word_of store.now.notes i column) (below count) ++ replicate (n - count) 0) }
{
    for i in 0..count {
        let at = 4 * i;
        codec::put(&mut list[at..at + 4], store.notes[1024 * column + i] as u64);
    }
    list[4 * count..].fill(0);
}

// The sets of the keys as bytes of n entries, zeros after the first `count`.
fn put_sets(list: &mut [u8], store: &Store, count: usize, n: usize)
    requires { (length list.old ≡ 4 * n) × (count ≤ n) × (n ≤ 1024) }
    ensures { list.new ≡ bytes_of 4 (map (λ i. set_in (get_or store.now.keys i 0)) (below count) ++ replicate (n - count) 0) }
{
    for i in 0..count {
        let at = 4 * i;
        codec::put(&mut list[at..at + 4], store::set_of(store.keys[i]));
    }
    list[4 * count..].fill(0);
}

fn number_of(answer: Answer) -> u64
    ensures { result ≡ word steps_and_level (says_answer answer) }
{
    match answer {
        Answer::Proof { steps, level } => steps as u64 + level as u64 * 65536,
        Answer::Refused { number, place } => replies::refusal(number, place),
    }
}
