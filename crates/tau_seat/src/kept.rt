//! What a table of seats can keep.
ghost use Rattle.std.specs.Prelude.{◌≡◌, List, ◌++◌, [], ℕ};

/// A value that stands for a key and a list of entries.
pub trait Kept {
    type Key: Drop;

    type Entry;

    ghost key_of: { Self → Self.Key };

    ghost entries: { Self → List Self.Entry };

    // Which lists are sound for a key.
    ghost is_sound: { Self.Key → List Self.Entry → Type 0 };

    fn key(&self) -> Self::Key
        ensures { result ≡ key_of self.now };

    // Each prefix of a sound list is sound.
    ghost prefixes: { (k : Self.Key) (xs ys : List Self.Entry) → is_sound k (xs ++ ys) → is_sound k xs };
}
