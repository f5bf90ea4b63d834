//! The rows of a plan as a list.

ghost use Rattle.std.specs.Prelude.{◌≡◌, ◌++◌, map, IfOk};
ghost use Rattle.cut_model.specs.Fits.{Fits};
ghost use Rattle.cut_model.specs.Tree.{tree};
ghost use Rattle.cut_model.specs.Families.{rows_of};

use crate::family::{Family, Row};
use crate::plan::Plan;
use crate::traversal::walk;
use crate::visitor::Visitor;
use glass_base::{Instance, Memory, Run, append};
use std::alloc::Global;

/// The rows told so far.
#[derive(Drop)]
struct Listing {
    rows: Run<Row>,
}

impl Visitor for Listing {
    type Stop = Memory;

    ghost has_seen = { λ start now seen. now.rows.items ≡ start.rows.items ++ map (λ f. f.row) seen };

    fn visit(&mut self, family: &Family) -> Result<(), Memory> {
        append(&mut self.rows, family.row)
    }
}

/// The rows of a plan, in order of node number. It fails only where memory runs out.
pub fn rows(alloc: Global, instance: &Instance, plan: &Plan) -> Result<Run<Row>, Memory>
    requires { Fits (tree plan.now) }
    ensures { IfOk result (λ rows. rows.items ≡ rows_of instance.now (tree plan.now)) }
{
    let mut listing = Listing {
        rows: Run::new(alloc),
    };
    walk(&mut listing, instance, plan)?;
    Ok(listing.rows)
}
