// A renaming: a function from values to values.
ghost use Rattle.std.specs.Prelude.{◌≡◌};
ghost use Rattle.ir.specs.declared.entities.Value.{Value};

use ir::entities::Value;

// Whoever implements it says by `renamed` which function it is. A question answers by that function, is never refused
// and changes nothing.
pub trait Renaming {
    ghost renamed: { Self → Value → Value };

    fn rename(&self, v: Value) -> Value
        ensures { result ≡ renamed self.now v };
}
