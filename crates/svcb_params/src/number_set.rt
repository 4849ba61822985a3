//! Sets of numbers of 16 bits.

ghost use Rattle.std.specs.Prelude.{◌≡◌, ◌==◌, ◌||◌, ℕ, false, not};
ghost use Rattle.svcb_params.specs.NumberSets.{has_number};

/// Numbers of 16 bits, each as a bit. The set takes eight kilobytes on the stack, and no memory elsewhere.
#[derive(Drop)]
pub(crate) struct NumberSet {
    words: [u64; 1024],
}

impl NumberSet {
    /// The set without numbers.
    pub(crate) fn new() -> NumberSet
        ensures { (n : ℕ) → has_number result.words n ≡ false }
    {
        NumberSet { words: [0; 1024] }
    }

    /// Adds a number, and tells whether it wasn't there before.
    pub(crate) fn insert(&mut self, number: u16) -> bool
        ensures added { result ≡ not (has_number self.old.words number) }
        ensures numbers { (n : ℕ) → has_number self.new.words n
            ≡ (number == n || has_number self.old.words n) }
    {
        let index = usize::from(number / 64);
        let bit: u64 = 1 << (number % 64);
        let word = self.words[index];
        self.words[index] = word | bit;
        word & bit == 0
    }
}
