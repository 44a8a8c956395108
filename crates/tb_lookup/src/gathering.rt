//! Lists that are made while one looks in the tables.

ghost use Rattle.std.specs.Prelude.{◌≡◌, ◌++◌, ◌∷◌, [], OnOk};

use tb_sql::store::StoreFault;
use tb_values::Items;

/// Puts an item at the end.
pub(crate) fn put<T: Drop>(items: &mut Items<T>, item: T) -> Result<(), StoreFault>
    ensures { OnOk result (items.new ≡ items.old ++ item ∷ []) }
{
    match items.push(item) {
        Ok(()) => Ok(()),
        Err(_) => Err(StoreFault::Memory),
    }
}
