//! A zero-copy channel as a stored state.
use super::RowState;
use super::row::CopiedRow;
use esync_base::kept::Kept;
use std::alloc::AllocError;

impl<S: CopiedRow, W: Copy> Kept for RowState<S, W> {
    fn kept(&self) -> Result<Self, AllocError> {
        let slots = self.slots.copied()?;
        Ok(RowState {
            slots,
            turns: self.turns.kept()?,
        })
    }
}
