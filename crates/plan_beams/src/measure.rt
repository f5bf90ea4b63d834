//! Lengths and areas whose sums and differences wrap: the search only guesses, so that none of its ranges has to be
//! proved.

use std::ops::{Add, Mul, Sub};

/// A length or a place in mm.
#[derive(Clone, Copy, PartialEq, Eq, PartialOrd, Ord)]
pub struct Length(pub u32);

/// An area in mm², or what is compared with areas: a waste, a worth or a key, in mm² or 1/1024 of that.
#[derive(Clone, Copy, PartialEq, Eq, PartialOrd, Ord)]
pub struct Amount(pub u64);

impl Length {
    pub const ZERO: Length = Length(0);

    /// The length as nodes store it. All lengths on a plate fit.
    pub fn short(self) -> u16 {
        self.0.min(65_535) as u16
    }
}

impl From<u16> for Length {
    fn from(mm: u16) -> Length {
        Length(u32::from(mm))
    }
}

impl Add for Length {
    type Output = Length;

    fn add(self, other: Length) -> Length {
        Length(self.0.wrapping_add(other.0))
    }
}

impl Sub for Length {
    type Output = Length;

    fn sub(self, other: Length) -> Length {
        Length(self.0.wrapping_sub(other.0))
    }
}

impl Mul for Length {
    type Output = Amount;

    fn mul(self, other: Length) -> Amount {
        Amount(u64::from(self.0).wrapping_mul(u64::from(other.0)))
    }
}

impl Amount {
    pub const ZERO: Amount = Amount(0);

    /// More than any waste.
    pub const FAR: Amount = Amount(1 << 50);

    /// More than any key, and how many bits keys have.
    pub const TOP: Amount = Amount(1 << 62);

    pub const BITS: u32 = 62;
}

impl Add for Amount {
    type Output = Amount;

    fn add(self, other: Amount) -> Amount {
        Amount(self.0.wrapping_add(other.0))
    }
}

impl Sub for Amount {
    type Output = Amount;

    fn sub(self, other: Amount) -> Amount {
        Amount(self.0.wrapping_sub(other.0))
    }
}

impl Mul for Amount {
    type Output = Amount;

    fn mul(self, other: Amount) -> Amount {
        Amount(self.0.wrapping_mul(other.0))
    }
}
