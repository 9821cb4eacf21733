//! Labels: what flows are called. A label names a flow; which labels there are is a kind's to say.
#![tactic(auto)]

ghost use Rattle.std.specs.Prelude.{◌≡◌, Bool, true};

pub mod directories;
pub mod faults;
pub mod names;
pub mod streams;

/// A kind of labels, known by when two of them are the same.
// not by `Eq`, since a kind may call labels the same that are not equal
pub trait Label: Copy {
    ghost same: { Self → Self → Bool };

    /// Whether the two are the same label.
    fn is_same(&self, other: &Self) -> bool
        ensures { result ≡ same self.now other.now };

    ghost reflexive: { (a : Self) → same a a ≡ true };

    ghost symmetric: { (a b : Self) → same a b ≡ same b a };

    ghost transitive: { (a b c : Self) → same a b ≡ true → same b c ≡ true → same a c ≡ true };
}
