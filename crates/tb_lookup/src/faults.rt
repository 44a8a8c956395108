//! What of a store fails where its rows aren't those of a state.

ghost use Rattle.std.specs.Prelude.{◌≡◌};

use tb_rows::ReopenFault;
use tb_sql::store::StoreFault;

/// Rows that no state has are a failure of the store.
pub fn fault_of(fault: ReopenFault) -> StoreFault
    ensures rows { fault ≡ ReopenFault.NotRows → result ≡ StoreFault.Store }
    ensures memory { fault ≡ ReopenFault.Memory → result ≡ StoreFault.Memory }
{
    match fault {
        ReopenFault::NotRows => StoreFault::Store,
        ReopenFault::Memory => StoreFault::Memory,
    }
}
