// What a record tells.
ghost use Rattle.std.specs.Prelude.{◌≡◌, ℕ};

/// A record that tells the byte its block starts at.
pub trait Record {
    ghost start_of: { Self → ℕ };

    fn start(&self) -> usize
        ensures { result ≡ start_of self.now };
}
