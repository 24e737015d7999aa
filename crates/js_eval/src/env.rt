// The bindings that a script leaves.
ghost use Rattle.std.specs.Prelude.{◌≡◌, [], map, IfOk};
ghost use Rattle.js_eval.specs.Copies.{bound_content};

use eval_scopes::{Binding, BindingList};
use eval_values::Value;
use js_units::NoMemory;
use std::alloc::Global;
use std::marker::Model;

/// The bindings of a script's top, in the order of their declarations; `R` is the `Ref` of a store.
/// Contracts see them as a list.
#[derive(Drop)]
pub struct Env<R> {
    alloc: Global,
    pub(crate) top: BindingList<Value<R>>,
}

impl<R> Model for Env<R> {
    ghost use Rattle.std.specs.Coded.{codes};
    ghost use Rattle.std.specs.Prelude.{List};
    ghost use Rattle.eval_scopes.specs.declared.binding_list.Binding.{Binding};
    ghost use Rattle.js_item.specs.Codes.{fields_code};
    ghost use Rattle.js_item.specs.declared.item.Item.{Item};

    ghost Value = { List (Binding (Item R)) };

    ghost coded = { Prim.hlevel (codes, fields_code R.code) };

    ghost view = { λ e. e.top };
}

impl<R: Drop> Env<R> {
    /// No binding. It allocates nothing.
    pub fn new(alloc: Global) -> Env<R>
        ensures { result ≡ [] }
    {
        Env {
            alloc,
            top: BindingList::new(alloc),
        }
    }

    /// The bindings.
    pub fn list(&self) -> &[Binding<Value<R>>]
        ensures { result.now ≡ self.now }
    {
        self.top.list()
    }

    /// The same names once more, bound to the same values.
    pub fn copy(&self) -> Result<Env<R>, NoMemory>
    where
        R: Copy,
        ensures { IfOk result (λ env. map bound_content env ≡ map bound_content self.now) }
    {
        let mut top = BindingList::new(self.alloc);
        for binding in self.top.list() {
            top.push(Binding {
                name: binding.name.copy()?,
                constant: binding.constant,
                value: binding.value.copy()?,
            })?;
        }
        Ok(Env {
            alloc: self.alloc,
            top,
        })
    }
}
