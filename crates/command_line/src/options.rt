//! How options are written, and what they set.

ghost use Rattle.std.specs.Prelude.{◌≡◌};
ghost use Rattle.command_line.specs.Words.{flag_word as flag_word_of, option_front as option_front_of, role_word as role_word_of};

use crate::kinds::{Count, Flag};
use glass_base::Role;
use glass_base::limits::{MOST_BUDGET, MOST_PLATES};

/// The word by which lines name a file.
pub fn role_word(role: Role) -> &'static str
    ensures { result.now ≡ role_word_of role }
{
    match role {
        Role::Batch => "batch",
        Role::Defects => "defects",
        Role::Params => "params",
        Role::Plan => "plan",
        Role::Cert => "cert",
        Role::Plates => "plates",
        Role::Sheet => "sheet",
    }
}

/// What stands before the file name in an option.
pub(crate) fn option_front(role: Role) -> &'static str
    ensures { result.now ≡ option_front_of role }
{
    match role {
        Role::Batch => "--batch=",
        Role::Defects => "--defects=",
        Role::Params => "--params=",
        Role::Plan => "--from=",
        Role::Cert => "--cert=",
        Role::Plates => "--plates=",
        Role::Sheet => "--sheet=",
    }
}

/// The word of an option that has no value.
pub(crate) fn flag_word(flag: Flag) -> &'static str
    ensures { result.now ≡ flag_word_of flag }
{
    match flag {
        Flag::Watch => "--watch",
        Flag::Fronts => "--fronts",
    }
}

/// A number that a line can set.
#[derive(Clone, Copy)]
pub(crate) struct Setting {
    /// What stands before it in an option.
    pub front: &'static str,
    /// The least that a line may have, whether it sets one or not.
    pub least: u32,
    /// The greatest that can be set.
    pub most: u32,
    /// The one where a line sets none.
    pub usual: u32,
    /// The file without which it says nothing, if there is one.
    pub needs: Option<Role>,
}

impl Count {
    ghost use Rattle.std.specs.Prelude.{◌≡◌};
    ghost use Rattle.command_line.specs.Words.{setting_of};
    ghost use Rattle.command_line.specs.inner.Settings.{setting_in};

    /// The row of this number: usually no plates are cut already, and no more work is done than for the usual first
    /// plan. The least that can be set is 1.
    pub(crate) fn setting(self) -> Setting
        ensures { setting_in result ≡ setting_of self }
    {
        match self {
            Count::Workers => Setting {
                front: "--workers=",
                least: 1,
                most: 8,
                usual: 4,
                needs: None,
            },
            Count::Budget => Setting {
                front: "--budget=",
                least: 1,
                most: MOST_BUDGET,
                usual: 100_000,
                needs: None,
            },
            Count::Frozen => Setting {
                front: "--frozen=",
                least: 0,
                most: MOST_PLATES,
                usual: 0,
                needs: Some(Role::Plan),
            },
            Count::Effort => Setting {
                front: "--effort=",
                least: 0,
                most: 1_000_000,
                usual: 0,
                needs: None,
            },
            Count::Seconds => Setting {
                front: "--seconds=",
                least: 0,
                most: 86_400,
                usual: 0,
                needs: None,
            },
            Count::Checkers => Setting {
                front: "--workers=",
                least: 1,
                most: 8,
                usual: 1,
                needs: None,
            },
            Count::FrontsLimit => Setting {
                front: "--fronts-limit=",
                least: 1,
                most: 4_000_000_000,
                usual: 500_000_000,
                needs: None,
            },
        }
    }
}
