ghost use Rattle.std.specs.Prelude.{◌≡◌, true, None, Some, Ok, Err, OnOk};
ghost use Rattle.std.specs.Option.{is_some};
ghost use Rattle.model.specs.Refusals.{first};
ghost use Rattle.model.specs.State.{attached};
ghost use Rattle.model.specs.Edits.{replace_rows};
ghost use Rattle.defs.specs.Graphs.{graph_of};

use defs::judges::narrow_type;
use defs::state::Defs;
use ir::entities::{Type, Value};
use model::fault::GraphFault;

// The place of a value that another of this type may take. It is given where the definition is of the right kind.
pub fn judge_replace<P: Copy>(
    defs: &Defs<'_>,
    v: Value,
    ty: Type,
    place: Option<P>,
) -> Result<P, GraphFault>
    ensures says { elim result [ Ok p ↦ (first (replace_rows (graph_of defs.now) v ty (is_some place)) ≡ None) × (place ≡ Some p) | Err f ↦ first (replace_rows (graph_of defs.now) v ty (is_some place)) ≡ Some f ] }
    ensures stands { OnOk result (attached (graph_of defs.now) v ≡ true) }
{
    defs.known_value(v)?;
    defs.unretired_value(v)?;
    narrow_type(ty)?;
    let place = place.ok_or(GraphFault::Kind(v.0))?;
    defs.attached_value(v)?;
    defs.room_for_values(1)?;
    Ok(place)
}
