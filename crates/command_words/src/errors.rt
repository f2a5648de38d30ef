// Why words give no command.
ghost use Rattle.std.specs.Prelude.{◌≡◌};

use rpt_base::Memory;

/// Why the words give no command.
#[derive(Clone, Copy, Debug, PartialEq, Eq)]
pub enum WordsError {
    /// They are no command.
    Usage,
    /// Want of memory.
    Memory,
}

impl From<Memory> for WordsError {
    ghost use Rattle.command_words.specs.declared.errors.WordsError.TheVariants as error;

    ghost from_gives = { λ _ e. e ≡ error.Memory };

    fn from(_memory: Memory) -> WordsError {
        WordsError::Memory
    }
}
