// Lists that grow.
ghost use Rattle.std.specs.Prelude.{◌≡◌, ◌++◌, ◌∷◌, [], OnOk, OnErr, IfErr};

use crate::value::Stop;
use js_store::StoreFault;

/// Adds an element at the end.
pub fn push<T: Drop>(list: &mut Vec<T>, element: T) -> Result<(), Stop>
    ensures added { OnOk result (list.new.items ≡ list.old.items ++ element ∷ []) }
    ensures unchanged { OnErr result (list.new.items ≡ list.old.items) }
    ensures fault { IfErr result (λ f. f ≡ Stop.Store StoreFault.Memory) }
{
    match list.push(element) {
        Ok(()) => Ok(()),
        Err(_) => Err(Stop::Store(StoreFault::Memory)),
    }
}
