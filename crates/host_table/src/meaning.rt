//! What host functions answer.
ghost use Rattle.std.specs.Prelude.{◌≡◌, ℕ};

/// The host functions of a program, by their numbers: what each answers of two words, and the code that computes it.
/// A function of one argument gets 0 for the second.
pub trait HostMeaning {
    /// The word that the function of a number answers of two words.
    ghost answer: { ℕ → ℕ → ℕ → ℕ };

    /// Runs the function of a number.
    fn run(number: u32, a: u64, b: u64) -> u64
        ensures { result ≡ answer number a b };
}
