ghost use Rattle.std.specs.Prelude.{◌≡◌, List, ℕ};

use odb_base::Name;

/// An object with a name.
pub trait Named {
    /// The name of an object.
    ghost own_name: { Self → List ℕ };

    /// An object with another name in place of its own.
    ghost with_name: { List ℕ → Self → Self };

    /// The name.
    fn name(&self) -> &Name
        ensures { result.now ≡ own_name self.now };

    /// Sets the name, and answers the one that it had.
    fn set_name(&mut self, name: Name) -> Name
        ensures old { result ≡ own_name self.old }
        ensures new { self.new ≡ with_name name self.old };

    /// An object has the name that it was given.
    ghost named: { (object : Self) (name : List ℕ) → own_name (with_name name object) ≡ name };
}

/// A field of an object that is set without its name.
pub trait Field<R: Named> {
    type Value;

    /// The value of the field.
    ghost value_of: { R → Self.Value };

    /// An object with another value in this field.
    ghost with_value: { Self.Value → R → R };

    /// Sets the field, and answers the value that it had.
    fn set(object: &mut R, value: Self::Value) -> Self::Value
        ensures old { result ≡ value_of object.old }
        ensures new { object.new ≡ with_value value object.old };

    /// The object keeps its name.
    ghost named: { (object : R) (value : Self.Value) → R.own_name (with_value value object) ≡ R.own_name object };

    /// Of two values that are set the last one stands.
    ghost last: { (object : R) (first second : Self.Value) → with_value second (with_value first object) ≡ with_value second object };
}
