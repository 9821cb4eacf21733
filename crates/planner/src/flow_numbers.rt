//! The numbers of flows. The struct stands alone: definitions that contracts cite name it.
ghost use Rattle.std.specs.Prelude.{◌≡◌, ◌<◌, ◌≤◌, MatchOption};

/// The number of a flow, 0 to 63.
#[derive(Clone, Copy, PartialEq, Eq, Debug)]
pub struct FlowNumber {
    pub(crate) number: u8,
    ghost below: { number < 64 },
}

impl FlowNumber {
    /// The number as that of a flow; None for one that no flow has.
    pub fn new(number: u16) -> Option<FlowNumber>
        ensures { MatchOption result (64 ≤ number) (λ flow. flow.number ≡ number) }
    {
        // an `if`: in `(number < 64).then(..)` the closure does not know the test, so the proof that it makes a flow's number did not close
        if number < 64 {
            // below 64, so the cast loses nothing
            Some(FlowNumber {
                number: number as u8,
            })
        } else {
            None
        }
    }

    /// The number, which is below 64.
    pub fn get(self) -> u8
        ensures value { result ≡ self.number }
        ensures below { result < 64 }
    {
        self.number
    }
}

/// The place of the flow in what is kept by number.
impl From<FlowNumber> for usize {
    ghost from_gives = { λ flow place. place ≡ flow.number };

    fn from(flow: FlowNumber) -> usize {
        usize::from(flow.number)
    }
}
