ghost use Rattle.std.specs.Prelude.{◌≡◌};

/// Puts a value in the place of another, which goes.
///
/// It does what an assignment does. An assignment over a value of many parts is proved anew in each function that has
/// one; a call of this isn't.
pub fn put_in<T: Drop>(place: &mut T, value: T)
    ensures { place.new ≡ value }
{
    *place = value;
}
