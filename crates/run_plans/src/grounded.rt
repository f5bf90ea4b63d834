//! An instance with the map of its defects, as an answer owns them.

ghost use Rattle.std.specs.Prelude.{◌≡◌};

use defect_map::{DefectMap, Ground};
use glass_base::{Instance, Memory};
use std::alloc::Global;

/// An instance, and the map of its own defects.
#[derive(Drop)]
pub struct Grounded {
    pub instance: Instance,
    map: DefectMap,
    ghost mapped: { map ≡ instance.defects },
}

impl Grounded {
    ghost use Rattle.std.specs.Prelude.{◌≡◌, IfOk};

    /// This instance with its map. It fails only where memory runs out.
    pub fn new(alloc: Global, instance: Instance) -> Result<Grounded, Memory>
        ensures { IfOk result (λ grounded. grounded.instance ≡ instance) }
    {
        let map = DefectMap::new(alloc, &instance)?;
        Ok(Grounded { instance, map })
    }

    /// What every question on the places of a plan is asked of.
    pub fn ground(&self) -> Ground<'_>
        ensures { result.instance.now ≡ self.now.instance }
    {
        Ground {
            instance: &self.instance,
            map: &self.map,
        }
    }
}
