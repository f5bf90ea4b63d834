//! Parameters before their rules are checked.

ghost use Rattle.std.specs.Prelude.{◌≡◌};
ghost use Rattle.glass_base.specs.Sizes.{usual_sizes};

/// Parameters that are not yet checked: the number of plates, and sizes in mm. The fields are those of `Params`.
#[derive(Clone, Copy, Debug)]
pub struct Sizes {
    pub plates: u32,
    pub width: u32,
    pub height: u32,
    pub min1: u32,
    pub max1: u32,
    pub min2: u32,
    pub waste: u32,
}

impl Sizes {
    /// The challenge's parameters: 100 plates of 6000 mm by 3210 mm, strips of 100 mm to 3500 mm, bands of at least
    /// 100 mm, wastes of at least 20 mm.
    pub fn usual() -> Sizes
        ensures { result ≡ usual_sizes }
    {
        Sizes {
            plates: 100,
            width: 6000,
            height: 3210,
            min1: 100,
            max1: 3500,
            min2: 100,
            waste: 20,
        }
    }
}
