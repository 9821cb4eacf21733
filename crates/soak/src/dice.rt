//! Numbers in a bad order, the same in every run.

/// A linear congruential generator; its own, so that no crate's other numbers change what must be printed.
#[derive(Drop)]
pub(crate) struct Dice {
    state: u32,
}

impl Dice {
    pub(crate) fn new(state: u32) -> Dice {
        Dice { state }
    }

    /// A number below the bound, or 0 if that is 0.
    pub(crate) fn below(&mut self, bound: u16) -> u16 {
        let state = self
            .state
            .wrapping_mul(1_664_525)
            .wrapping_add(1_013_904_223);
        self.state = state;
        let high = state / 65536;
        (high % u32::from(bound.max(1))) as u16
    }
}
