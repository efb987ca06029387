ghost use Rattle.std.specs.Prelude.{◌≡◌};
ghost use Rattle.judges.specs.Each.{AskedEach};

use model::fault::GraphFault;

// Puts a question to one item after another; the first refusal is the answer. A loop, since what `try_for_each` says of
// its calls every caller would have to turn into rows.
pub fn each<T: Copy, F: Fn(T) -> Result<(), GraphFault>>(
    items: &[T],
    ask: F,
) -> Result<(), GraphFault>
    requires { F.IsAlwaysCallable ask }
    ensures { AskedEach (F.post ask) items.now result }
{
    for item in items {
        ask(*item)?;
    }
    Ok(())
}
