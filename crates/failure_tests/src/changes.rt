//! Sessions of one class, by their records: its text is edited, or the terms change.

use session_fixtures::{FIRST, FIRST_TERMS, SECOND_FORM, SECOND_OF_BOTH};
use table_fixtures::{ALL_QUERIES, Change, OF_EDIT, PRINTS_2};

/// All ten queries are executed.
pub(crate) const EXECUTED: Change = Change {
    terms: FIRST_TERMS,
    records: FIRST,
    executed: ALL_QUERIES,
    others: &[],
};

/// All ten queries are green, in form 2.
pub(crate) const GREEN_IN_FORM_2: Change = Change {
    terms: SECOND_FORM,
    records: FIRST,
    executed: &[],
    others: &[],
};

/// What the class prints is edited, and edited back: 22 runs.
static THERE_AND_BACK: [Change; 3] = [
    EXECUTED,
    Change {
        terms: FIRST_TERMS,
        records: FIRST,
        executed: OF_EDIT,
        others: PRINTS_2,
    },
    Change {
        terms: FIRST_TERMS,
        records: FIRST,
        executed: OF_EDIT,
        others: &[],
    },
];

/// The sessions of a text that is edited, and edited back. One function names them for all others, since each that names
/// such a list writes it out, which is expensive to prove.
pub(crate) fn there_and_back() -> &'static [Change; 3] {
    &THERE_AND_BACK
}

/// Nothing is edited in three sessions of form 2: the ten queries are run in the first one alone.
static IN_FORM_2: [Change; 3] = [
    Change {
        terms: SECOND_FORM,
        records: FIRST,
        executed: ALL_QUERIES,
        others: &[],
    },
    GREEN_IN_FORM_2,
    GREEN_IN_FORM_2,
];

/// Nothing is edited in five sessions of both profiles and both forms: the ten queries are run in the first one, and the
/// check of the class in each that is of another profile than the one before it.
static MIXED: [Change; 5] = [
    EXECUTED,
    Change {
        terms: SECOND_OF_BOTH,
        records: FIRST,
        executed: &[8],
        others: &[],
    },
    Change {
        terms: SECOND_OF_BOTH,
        records: FIRST,
        executed: &[],
        others: &[],
    },
    Change {
        terms: FIRST_TERMS,
        records: FIRST,
        executed: &[8],
        others: &[],
    },
    GREEN_IN_FORM_2,
];

/// The sessions of form 2.
pub(crate) fn in_form_2() -> &'static [Change; 3] {
    &IN_FORM_2
}

/// The sessions of both profiles and both forms.
pub(crate) fn mixed() -> &'static [Change; 5] {
    &MIXED
}

/// The first of these sessions: all ten queries are executed.
pub(crate) fn executed() -> Change {
    there_and_back()[0]
}

/// One of the same text behind it: all ten queries are green.
pub(crate) fn green() -> Change {
    Change {
        executed: &[],
        ..executed()
    }
}

/// The chain of the first session alone.
pub(crate) fn one_session() -> &'static [Change] {
    &there_and_back()[..1]
}
