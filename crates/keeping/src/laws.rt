//! Laws of what follows from reads, and of what is kept.
ghost use Rattle.keeping.specs.Follows.{BackedLaw, FittingLaw, PerformedLaw, MeantLaw};
ghost use Rattle.keeping.specs.Kept.{KeptLaw};
ghost use Rattle.keeping.specs.Readers.{ReaderLaw};

use recorder::Reader;

/// What follows from a run of the program that a key is tied to is backed.
pub fn following_is_backed()
    ensures { BackedLaw }
{}

/// What follows from a run of a program that fits a key is of the key's kind, and the keys that were read are of lower rank.
pub fn following_fits()
    ensures { FittingLaw }
{}

/// What performs a program and gives a value has read what the value follows from.
pub fn performed_runs_follow<D: Reader>()
    ensures { PerformedLaw D }
{}

/// In a project each tied key follows from the values of what it reads.
pub fn keys_follow()
    ensures { MeantLaw }
{}

/// If a program takes the same of two answers to a key, each run that read the one would have given the same for the other.
pub fn kept_by_what_is_taken()
    ensures { KeptLaw }
{}

/// If the value at one place of a graph changes, a reader follows from the values of now if the change keeps it.
pub fn readers_follow_on()
    ensures { ReaderLaw }
{}
