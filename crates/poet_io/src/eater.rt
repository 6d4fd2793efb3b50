//! What takes the bytes of a file piece by piece, and keeps none of them.
ghost use Rattle.std.specs.Prelude.{◌≡◌, ◌<◌, ◌≤◌, ◌-◌, ◌^◌, ℕ, List};
ghost use Rattle.poet_io.specs.Eaters.{Ate};
ghost use Rattle.poet_io.specs.Pours.{Poured};

use crate::shelf::{PIECE, Shelf, ShelfFault};

/// What eats bytes piece by piece, and stands for all bytes that it ate.
pub trait Eater {
    /// What a value is made with, and keeps whatever it eats.
    ghost Made: { Type 0 };

    /// The value was made with this, and stands for these bytes.
    ghost stands: { Self → Made → List ℕ → Type 0 };

    /// Eats the piece behind what it ate before.
    fn eat(&mut self, piece: &[u8])
        ensures { Ate stands self.old self.new piece.now };
}

/// Why a file was not poured whole.
#[derive(Clone, Copy, Debug, PartialEq, Eq)]
pub enum PourRefusal {
    /// The shelf counted a fault, and nothing is open. A front of the file was eaten.
    Fault,
    /// The shelf tells its files, and the name is not among them. Nothing was eaten.
    Absent,
    /// The file is longer than the limit. One byte more than the limit was eaten.
    TooLong,
}

impl From<ShelfFault> for PourRefusal {
    ghost use Rattle.poet_io.specs.declared.eater.PourRefusal.TheVariants.{Fault};

    ghost from_gives = { λ _ refusal. refusal ≡ Fault };

    fn from(_: ShelfFault) -> Self {
        PourRefusal::Fault
    }
}

/// Feeds the eater all bytes of the named file, at most `limit` of them. It takes no memory.
#[tactic(auto, using(crate::proofs::Logging::read_none))]
pub fn pour<H: Shelf, E: Eater>(
    shelf: &mut H,
    name: &str,
    limit: usize,
    eater: &mut E,
) -> Result<(), PourRefusal>
    requires { limit < 2 ^ 64 - 1 }
    ensures files { H.files shelf.new ≡ H.files shelf.old }
    ensures later { H.faults shelf.old ≤ H.faults shelf.new }
    ensures poured { Poured E.stands eater.old eater.new name.now limit (H.log shelf.old)
        (H.log shelf.new) (H.files shelf.old) (H.is_open shelf.new) (H.left shelf.new)
        (H.faults shelf.old) (H.faults shelf.new) result }
{
    if !shelf.open(name)? {
        return Err(PourRefusal::Absent);
    }
    let mut buf = [0; PIECE];
    let mut count = 0;
    while count <= limit {
        let most = (limit - count + 1).min(PIECE);
        let piece = &mut buf[..most];
        let n = shelf.read(piece)?;
        if n == 0 {
            return Ok(());
        }
        eater.eat(&piece[..n]);
        count += n;
    }
    Err(PourRefusal::TooLong)
}
