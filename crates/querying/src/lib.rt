// Querying: a proof of least level for one role, set and minute, or a refusal.
#![tactic(auto)]

ghost use Rattle.std.specs.Prelude.{◌≡◌, replicate};
ghost use Rattle.file.specs.Refusals.{done, refused, writes};
ghost use Rattle.asking.specs.Asking.{request, StepLists, step_lists, Sized};
ghost use Rattle.withdrawals.specs.Source.{◌without◌};
ghost use Rattle.querying.specs.Querying.{counts, Queried, says_answer};
ghost use Rattle.querying.specs.Working.{Proves, step_count};

use store::Store;

// How many steps the proof has, and its level; or a refusal.
#[derive(Clone, Copy)]
pub enum Answer {
    Proof { steps: u32, level: u32 },
    Refused { number: u32, place: u32 },
}

// A proof of the membership at the minute, written into the four lists.
pub fn query(
    file: &[u8],
    withdrawals: &[u8],
    role: u32,
    set: u32,
    minute: u32,
    credential: &mut [u32],
    first: &mut [u32],
    second: &mut [u32],
    sets: &mut [u32],
) -> Answer
    ensures { Queried (file.now without withdrawals.now) (request role set minute) (step_lists credential.old first.old second.old sets.old) (says_answer result) (step_lists credential.new first.new second.new sets.new) }
{
    let mut store = Store::new();
    let answer = prove(
        &mut store,
        file,
        withdrawals,
        role,
        set,
        minute,
        credential.len(),
        first.len(),
        second.len(),
        sets.len(),
    );
    if !lists_written(answer) {
        return answer;
    }
    answering::write(credential, first, second, sets, &store, steps_of(answer));
    answer
}

// A proof of the membership at the minute for lists of so many steps: its steps are then the first places of the keys and the notes of the store, which are zeros before.
pub fn prove(
    store: &mut Store,
    file: &[u8],
    withdrawals: &[u8],
    role: u32,
    set: u32,
    minute: u32,
    credential: usize,
    first: usize,
    second: usize,
    sets: usize,
) -> Answer
    requires { (store.old.keys ≡ replicate 1024 0) × (store.old.notes ≡ replicate 3072 0) }
    ensures { (t : StepLists) → Sized t credential first second sets → Proves (file.now without withdrawals.now) (request role set minute) t store.new.keys store.new.notes (says_answer result) }
{
    let found = finding::find(
        store,
        file,
        withdrawals,
        role,
        set,
        minute,
        credential,
        first,
        second,
        sets,
    );
    if found.number != 0 {
        return refused(found.number, found.place);
    }
    let count = answering::keep(store, found.entry);
    proof(count as u32, found.level)
}

// Whether the lists are written: with a proof, or with zeros after 10 and 13.
pub fn lists_written(answer: Answer) -> bool
    ensures { result ≡ writes (says_answer answer) }
{
    match answer {
        Answer::Proof { steps: _, level: _ } => true,
        Answer::Refused { number, place: _ } => (number == 10) | (number == 13),
    }
}

// How many steps are written.
pub fn steps_of(answer: Answer) -> usize
    ensures { result ≡ step_count (says_answer answer) }
{
    match answer {
        Answer::Proof { steps, level: _ } => steps as usize,
        Answer::Refused {
            number: _,
            place: _,
        } => 0,
    }
}

fn proof(steps: u32, level: u16) -> Answer
    ensures { says_answer result ≡ done (counts steps level) }
{
    Answer::Proof {
        steps,
        level: level as u32,
    }
}

fn refused(number: u32, place: u32) -> Answer
    ensures { says_answer result ≡ refused number place }
{
    Answer::Refused { number, place }
}
