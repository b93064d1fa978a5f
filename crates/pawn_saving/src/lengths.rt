//! The lengths of a pledge's lists, as 32-bit numbers.
ghost use Rattle.pawn_saving.specs.Stored.{AreLengths};
ghost use Rattle.std.specs.Prelude.{◌≡◌, Some, IfOk};

use pawn_book::{KeepError, Pledge};
use pawn_tables::DATABASE_FAILED;

/// How many entries, secrets and extensions a pledge has.
#[derive(Clone, Copy)]
pub(crate) struct Lengths {
    pub(crate) entries: u32,
    pub(crate) secrets: u32,
    pub(crate) extensions: u32,
}

/// A length as the 32-bit number that a statement binds. `DATABASE_FAILED` if it does not fit.
pub(crate) fn length_in_32_bits(length: usize) -> Result<u32, KeepError>
    ensures value { IfOk result (λ n. n ≡ length) }
{
    match u32::try_from(length) {
        Ok(n) => Ok(n),
        Err(_) => Err(DATABASE_FAILED),
    }
}

/// The lengths of the lists of this pledge.
pub(crate) fn lengths_of(pledge: &Pledge) -> Result<Lengths, KeepError>
    ensures value { IfOk result (λ l. AreLengths l (Some pledge.now)) }
{
    let entries = length_in_32_bits(pledge.entries().len())?;
    let secrets = length_in_32_bits(pledge.secrets().len())?;
    let extensions = length_in_32_bits(pledge.extensions().len())?;
    Ok(Lengths {
        entries,
        secrets,
        extensions,
    })
}
