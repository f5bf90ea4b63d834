//! The walk over a plan.

ghost use Rattle.std.specs.Prelude.{[], OnOk};
ghost use Rattle.glass_base.specs.Problem.{IsProblem};
ghost use Rattle.cut_model.specs.Fits.{Fits};
ghost use Rattle.cut_model.specs.Tree.{tree};
ghost use Rattle.cut_model.specs.Families.{families_of};

use crate::family::{Along, Area, Position};
use crate::levels::OnPlate;
use crate::part::walk_piece;
use crate::plan::Plan;
use crate::visitor::Visitor;
use glass_base::Instance;

/// Tells the visitor the families of a plan, in order of node number. It takes no memory.
pub fn walk<V: Visitor>(visitor: &mut V, instance: &Instance, plan: &Plan) -> Result<(), V::Stop>
    requires { Fits (tree plan.now) }
    ensures told { OnOk result (V.has_seen visitor.old visitor.old []
        → V.has_seen visitor.old visitor.new (families_of instance.now (tree plan.now))) }
    ensures rules { IsProblem instance.now }
{
    let mut at = Area {
        plate: 0,
        cut: 0,
        along: Along::Plates,
        parent: None,
        x: 0,
        y: 0,
        width: 0,
        height: instance.params().height,
        last: true,
    };
    let mut node = 0;
    let mut first = true;
    let last = plan.plates.len();
    for (place, plate) in plan.plates.as_slice().iter().enumerate() {
        let plate = OnPlate {
            plate,
            width: instance.width(place as u32),
        };
        let position = Position {
            area: at,
            first,
            ends: place + 1 == last,
            node,
        };
        node = walk_piece(visitor, position, &plate)?;
        at = at.behind(plate.width);
        first = false;
    }
    Ok(())
}
