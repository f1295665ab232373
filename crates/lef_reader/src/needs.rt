ghost use Rattle.std.specs.Prelude.{◌≡◌};
ghost use Rattle.lef_reader.specs.Reading.{needs_layer};

use lef_forms::Statement;

/// A rectangle stands on a layer.
pub fn needs_layer(statement: Statement) -> bool
    ensures { result ≡ needs_layer statement }
{
    matches!(statement, Statement::Rect)
}
