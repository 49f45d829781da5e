//! Why the words of the command line ask for nothing.

use thiserror::Error;

/// Names the first fault of the words, from the left. `at` is the index of a word, the first being
/// 0, or the number of the words where one is missing.
#[derive(Clone, Copy, Debug, PartialEq, Eq, Error)]
pub enum WordsError {
    /// There is no word.
    #[error("no command")]
    NoCommand,
    /// The first word is no command, or stands not alone where it has to.
    #[error("unknown command at word {at}")]
    UnknownCommand { at: usize },
    /// The bundle or the number of tests is missing.
    #[error("missing argument at word {at}")]
    MissingPositional { at: usize },
    /// The word is no number of decimal digits up to 10000.
    #[error("bad number at word {at}")]
    BadNumber { at: usize },
    /// The word is no option of the command.
    #[error("unknown option at word {at}")]
    UnknownOption { at: usize },
    /// The option came before.
    #[error("repeated option at word {at}")]
    RepeatedOption { at: usize },
    /// The value of the last option is missing.
    #[error("missing value at word {at}")]
    MissingValue { at: usize },
    /// The value is no word that its option takes,
    /// or no number of decimal digits up to u64's greatest.
    #[error("bad value at word {at}")]
    BadValue { at: usize },
}
