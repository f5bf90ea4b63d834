//! The items of a batch by their numbers.

ghost use Rattle.std.specs.Prelude.{◌≡◌};
ghost use Rattle.cut_model.specs.Order.{item_with};

use glass_base::Item;

/// The item of the batch that has this number, if there is one.
pub fn item_numbered(items: &[Item], number: u32) -> Option<Item>
    ensures { result ≡ item_with items.now number }
{
    items.iter().copied().find(|item| item.id == number)
}
