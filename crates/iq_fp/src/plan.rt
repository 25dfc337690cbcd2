//! What an append of a column writes, decided before anything is written.
ghost use Rattle.iq_fp.specs.Calls.{IsGrown};

use crate::fp::Fp;
use iq_base::Page;

/// What an append of a column writes: the column as it was and as it is to be, and the codes of the new rows, or of all rows where
/// their form changes. It takes 4 bytes a code. The distinct values that weren't there before are told from the codes and the values
/// that it was made for, when it is carried out.
#[derive(Drop)]
pub struct Plan {
    pub column: Fp,
    pub grown: Fp,
    pub(crate) codes: Vec<u32>,
    pub(crate) last_codes: Page,
    pub(crate) last_values: Page,
    ghost fits: { IsGrown column grown codes.items },
}
