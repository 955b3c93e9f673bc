// How many calls were accepted and refused, and at how many the forms differed.
#[derive(Drop)]
pub(crate) struct Tally {
    pub done: u64,
    pub refused: u64,
    pub other: u64,
}

impl Tally {
    pub(crate) fn new() -> Tally {
        Tally {
            done: 0,
            refused: 0,
            other: 0,
        }
    }

    pub(crate) fn count(&mut self, accepted: bool, same: bool) {
        if accepted {
            self.done = self.done.wrapping_add(1);
        } else {
            self.refused = self.refused.wrapping_add(1);
        }
        if !same {
            self.other = self.other.wrapping_add(1);
        }
    }
}
