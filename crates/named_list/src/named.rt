ghost use Rattle.std.specs.Prelude.{◌≡◌, List, ℕ};

use odb_base::Name;

/// A thing with a name.
pub trait Named {
    ghost name_of: { Self → List ℕ };

    /// Its name.
    fn name(&self) -> &Name
        ensures { result.now ≡ name_of self.now };
}
