// Random numbers from a seed, so that every run makes the same calls.
#[derive(Drop)]
pub(crate) struct Dice {
    state: u64,
}

impl Dice {
    pub(crate) fn new(seed: u64) -> Dice {
        Dice { state: seed }
    }

    // The low bits of such a generator repeat soon, so they are left out.
    pub(crate) fn below(&mut self, limit: u64) -> u64 {
        self.state = self
            .state
            .wrapping_mul(6_364_136_223_846_793_005)
            .wrapping_add(1_442_695_040_888_963_407);
        (self.state >> 20).checked_rem(limit).unwrap_or(0)
    }

    pub(crate) fn one_in(&mut self, count: u64) -> bool {
        self.below(count) == 0
    }

    pub(crate) fn index(&mut self, limit: usize) -> usize {
        self.below(limit as u64) as usize
    }

    pub(crate) fn between(&mut self, least: i64, most: i64) -> i64 {
        let span = most.saturating_sub(least).saturating_add(1).unsigned_abs();
        least.wrapping_add_unsigned(self.below(span))
    }

    pub(crate) fn around(&mut self, most: i64) -> i64 {
        self.between(most.wrapping_neg(), most)
    }

    // A number within limits, and now and then one that is to be refused.
    pub(crate) fn mostly(&mut self, least: i64, most: i64, bad: i64) -> i64 {
        if self.one_in(25) {
            bad
        } else {
            self.between(least, most)
        }
    }

    // In millionths of a degree.
    pub(crate) fn temperature(&mut self) -> i64 {
        self.around(40_000_000)
    }

    // A tolerance or a distance, none as often as a wide one.
    pub(crate) fn width(&mut self) -> i64 {
        self.between(0, 3).wrapping_mul(self.between(0, 100_000))
    }
}
