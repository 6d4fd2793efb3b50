//! Why a text gave no value.

use std::alloc::AllocError;

/// Why bytes gave no value of a format.
#[derive(Clone, Copy, Debug, PartialEq, Eq)]
pub enum TextRefusal {
    /// They are no text of the format: the line of the first byte that is wrong or missing, counted
    /// from 1.
    Line(u64),
    /// Memory ran out.
    Memory,
}

impl From<AllocError> for TextRefusal {
    ghost use Rattle.std.specs.Prelude.{◌≡◌};
    ghost use Rattle.poet_io.specs.declared.text_refusal.TextRefusal.TheVariants as refusal;

    ghost from_gives = { λ _ e. e ≡ refusal.Memory };

    fn from(_e: AllocError) -> TextRefusal {
        TextRefusal::Memory
    }
}
