// The first visit of the due-date rule, store by store.
use calls::refusal::Phase;

// Its row: the day of lending is 100.
pub(crate) const ROW: [u16; 8] = [100, 0, 0, 0, 0, 0, 0, 0];

// Places and words in the order of the stores: the one while it runs, the log's six entries, the head, what is applied of
// the entries, and the head again.
pub(crate) const STORES: [(u16, u16); 27] = [
    (13, 114),
    (15, 18),
    (16, 1),
    (17, 1),
    (18, 21),
    (19, 2),
    (20, 0),
    (21, 24),
    (22, 3),
    (23, 0),
    (24, 27),
    (25, 4),
    (26, 1),
    (27, 30),
    (28, 5),
    (29, 114),
    (30, 0),
    (31, 14),
    (32, 6),
    (0, 15),
    (1, 1),
    (2, 0),
    (3, 0),
    (4, 1),
    (5, 114),
    (14, 6),
    (0, 0),
];

// The state before a step, of which so many came before.
pub(crate) fn phase_before(step: usize) -> Phase {
    match step {
        0..5 => Phase::Running,
        5..24 => Phase::Logging,
        24..31 => Phase::Applying,
        _ => Phase::Settled,
    }
}

// How many stores so many steps make.
pub(crate) fn stores_of(steps: usize) -> usize {
    match steps {
        0..2 => 0,
        2..6 => 1,
        _ => steps.saturating_sub(4),
    }
}

// How many steps come before the one that makes a store, of which so many came before.
pub(crate) fn steps_before(store: usize) -> usize {
    if store == 0 {
        1
    } else {
        store.saturating_add(4)
    }
}

// The words of a memory that held 9 throughout, behind laying and so many stores.
pub(crate) fn words_after(stores: usize) -> [u16; 57] {
    let mut words = [9; 57];
    for word in words.iter_mut().take(14) {
        *word = 0;
    }
    words[14] = 5;
    for (place, word) in STORES.iter().take(stores) {
        if let Some(old) = words.get_mut(usize::from(*place)) {
            *old = *word;
        }
    }
    words
}
