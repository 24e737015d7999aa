// Copies, and one map laid over another.
ghost use Rattle.std.specs.Prelude.{◌≡◌, ◌++◌, unwrap_or, IfOk, OnOk};
ghost use Rattle.std.specs.Option.{option_copied};
ghost use Rattle.std.specs.FinMap.{get};
ghost use Rattle.heap_rule.specs.Maps.{laid_over, upper_one};
ghost use Rattle.heap_rule.specs.Forms.{is_later, is_thin, later_form};
ghost use Rattle.heap_rule.specs.Agents.{sum_of_loads};

use crate::maps::IdMap;
use js_header::Form;
use js_units::{NoMemory, Units};
use std::alloc::Global;

/// What can be copied, where there is memory for it.
pub trait Twin {
    fn twin(&self, alloc: Global) -> Result<Self, NoMemory>
        ensures { IfOk result (λ x. x ≡ self.now) };
}

impl Twin for u32 {
    fn twin(&self, _alloc: Global) -> Result<u32, NoMemory> {
        Ok(*self)
    }
}

impl Twin for u64 {
    fn twin(&self, _alloc: Global) -> Result<u64, NoMemory> {
        Ok(*self)
    }
}

impl Twin for () {
    fn twin(&self, _alloc: Global) -> Result<(), NoMemory> {
        Ok(())
    }
}

impl Twin for Form {
    fn twin(&self, _alloc: Global) -> Result<Form, NoMemory> {
        Ok(*self)
    }
}

impl Twin for Units {
    fn twin(&self, alloc: Global) -> Result<Units, NoMemory> {
        let mut units = Units::new(alloc);
        units.extend_from_slice(self.as_slice())?;
        Ok(units)
    }
}

impl<X: Twin + Drop> IdMap<X> {
    /// Lays another map over this one.
    pub fn lay_over(&mut self, alloc: Global, upper: &IdMap<X>) -> Result<(), NoMemory>
        ensures { OnOk result (self.new ≡ laid_over upper_one self.old upper.now) }
    {
        for (key, value) in upper.iter() {
            self.insert(*key, value.twin(alloc)?)?;
        }
        Ok(())
    }
}

impl<X: Twin + Drop> IdMap<X> {
    /// This map with the other one over it.
    pub fn under(&self, alloc: Global, upper: &IdMap<X>) -> Result<IdMap<X>, NoMemory>
        ensures { IfOk result (λ m. m ≡ laid_over upper_one self.now upper.now) }
    {
        let mut map = self.twin(alloc)?;
        map.lay_over(alloc, upper)?;
        Ok(map)
    }
}

impl<X: Twin + Drop> Twin for IdMap<X> {
    fn twin(&self, alloc: Global) -> Result<IdMap<X>, NoMemory> {
        let mut map = IdMap::new(alloc);
        map.lay_over(alloc, self)?;
        Ok(map)
    }
}

impl IdMap<Form> {
    /// These forms with those that another agent saw over them: of two forms the later one stays.
    pub fn under_later(&self, alloc: Global, upper: &IdMap<Form>) -> Result<IdMap<Form>, NoMemory>
        ensures { IfOk result (λ m. m ≡ laid_over later_form self.now upper.now) }
    {
        let mut map = self.twin(alloc)?;
        map.lay_later(upper)?;
        Ok(map)
    }

    /// Lays forms over these.
    fn lay_later(&mut self, upper: &IdMap<Form>) -> Result<(), NoMemory>
        ensures { OnOk result (self.new ≡ laid_over later_form self.old upper.now) }
    {
        for (key, form) in upper.iter() {
            let form = later_form(self.get(*key), *form);
            self.insert(*key, form)?;
        }
        Ok(())
    }
}

// Of two forms of a string the later one, and the first where neither is later.
fn later_form(seen: Option<&Form>, other: Form) -> Form
    ensures { result ≡ later_form (option_copied seen.entry) other }
{
    match seen {
        Some(form) => { if is_later(*form, other) { other } else { *form } }
        None => other,
    }
}

// Whether the second form may come after the first.
fn is_later(seen: Form, other: Form) -> bool
    ensures { result ≡ is_later seen other }
{
    match seen {
        Form::Cons {
            wide: _,
            left: _,
            right: _,
        } => match other {
            Form::Flat {
                wide: _,
                start: _,
                fixed,
            } => !fixed,
            Form::Thin { target: _ } => true,
            _ => false,
        },
        Form::Flat {
            wide: _,
            start: _,
            fixed,
        } => !fixed && is_thin(other),
        Form::Sliced {
            wide: _,
            parent: _,
            offset: _,
        } => is_thin(other),
        _ => false,
    }
}

fn is_thin(form: Form) -> bool
    ensures { result ≡ is_thin form }
{
    match form {
        Form::Thin { target: _ } => true,
        _ => false,
    }
}

impl IdMap<u64> {
    /// These counts with those of another agent over them: each key has the sum.
    pub fn under_sums(&self, alloc: Global, upper: &IdMap<u64>) -> Result<IdMap<u64>, NoMemory>
        ensures { IfOk result (λ m. m ≡ laid_over sum_of_loads self.now upper.now) }
    {
        let mut map = self.twin(alloc)?;
        map.lay_sums(upper)?;
        Ok(map)
    }

    /// Adds counts to these.
    fn lay_sums(&mut self, upper: &IdMap<u64>) -> Result<(), NoMemory>
        ensures { OnOk result (self.new ≡ laid_over sum_of_loads self.old upper.now) }
    {
        for (key, count) in upper.iter() {
            self.insert(*key, self.count_at(*key).saturating_add(*count))?;
        }
        Ok(())
    }

    /// The count of a key, 0 where it has none.
    pub fn count_at(&self, key: u32) -> u64
        ensures { result ≡ unwrap_or (get self.now key) 0 }
    {
        match self.get(key) {
            Some(count) => *count,
            None => 0,
        }
    }
}
