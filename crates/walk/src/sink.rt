// Where a walk puts what it gives, part by part.
ghost use Rattle.std.specs.Prelude.{ℕ, List, [], ◌++◌};

pub trait Sink {
    // Between two states a sink took a text.
    ghost took: { Self → Self → List ℕ → Type 0 };

    // A sink that stays as it is took the empty text.
    ghost none: { (s : Self) → took s s [] };

    // Two texts that are taken one after the other are taken as one.
    ghost both: { (s t r : Self) (u w : List ℕ) → took s t u → took t r w → took s r (u ++ w) };

    fn take(&mut self, part: &[u8])
        ensures { took self.old self.new part.now };
}
