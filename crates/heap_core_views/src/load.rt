// What a load adds to a view, and which units of strings follow from the view afterwards. The
// tests allocate nothing, so that a load can be refused before anything changes.
ghost use Rattle.std.specs.Prelude.{◌≡◌, ℕ, ◌+◌, ◌<◌, ◌^◌, ◌↔◌, IsTrue, IsSome, Some, is_some};
ghost use Rattle.std.specs.FinMap.{get, insert, contains_key};
ghost use Rattle.heap_rule.specs.Maps.{with_run_of};
ghost use Rattle.heap_rule.specs.Learning.{tells, by_flat, all_frozen, justified, MayLearn};
ghost use Rattle.heap_core_views.specs.Loading.{loaded_by, HasRoom};

use heap_rule::{IdMap, View};
use js_header::Form;
use js_units::words_for;

/// What a load adds to a view: the form or the length of a string, a frozen word, or nothing new,
/// as a load of an own word does. `Turned` is what a compare-exchange of a header adds: the form
/// that holds from then on, and the run of own words that is frozen by it, empty where none is.
#[derive(Clone, Copy)]
pub enum Load {
    SeenForm {
        id: u32,
        form: Form,
    },
    SeenLength {
        id: u32,
        length: u32,
    },
    SeenWord {
        at: u32,
        word: u64,
    },
    Turned {
        id: u32,
        form: Form,
        start: u32,
        count: u32,
    },
    Own,
}

/// What the key has once `value` is at `at`.
fn get_with<X: Copy>(map: &IdMap<X>, key: u32, at: u32, value: X) -> Option<X>
    ensures { result ≡ get (insert map.now at value) key }
{
    if key == at {
        return Some(value);
    }
    get_copy(map, key)
}

fn get_copy<X: Copy>(map: &IdMap<X>, key: u32) -> Option<X>
    ensures { result ≡ get map.now key }
{
    match map.get(key) {
        Some(found) => Some(*found),
        None => None,
    }
}

/// Whether the word is frozen once the own ones of a run are.
fn is_frozen_by(view: &View, at: u32, start: u32, count: u32) -> bool
    ensures { result ≡ contains_key (with_run_of view.now.own_words view.now.frozen start count) at }
{
    if start <= at && at - start < count && view.own_words.contains_key(at) {
        return true;
    }
    view.frozen.contains_key(at)
}

impl Load {
    // The form of a string afterwards.
    fn form(&self, view: &View, id: u32) -> Option<Form>
        ensures { result ≡ get (loaded_by view.now self.now).forms id }
    {
        match *self {
            Load::SeenForm { id: at, form } => get_with(&view.forms, id, at, form),
            Load::SeenLength { id: _, length: _ } => get_copy(&view.forms, id),
            Load::SeenWord { at: _, word: _ } => get_copy(&view.forms, id),
            Load::Turned {
                id: at,
                form,
                start: _,
                count: _,
            } => get_with(&view.forms, id, at, form),
            Load::Own => get_copy(&view.forms, id),
        }
    }

    // The length of a string afterwards.
    fn length(&self, view: &View, id: u32) -> Option<u32>
        ensures { result ≡ get (loaded_by view.now self.now).lengths id }
    {
        match *self {
            Load::SeenForm { id: _, form: _ } => get_copy(&view.lengths, id),
            Load::SeenLength { id: at, length } => get_with(&view.lengths, id, at, length),
            Load::SeenWord { at: _, word: _ } => get_copy(&view.lengths, id),
            Load::Turned {
                id: _,
                form: _,
                start: _,
                count: _,
            } => get_copy(&view.lengths, id),
            Load::Own => get_copy(&view.lengths, id),
        }
    }

    // Whether the view has the word as frozen afterwards.
    fn is_frozen(&self, view: &View, at: u32) -> bool
        ensures { result ≡ contains_key (loaded_by view.now self.now).frozen at }
    {
        match *self {
            Load::SeenForm { id: _, form: _ } => view.frozen.contains_key(at),
            Load::SeenLength { id: _, length: _ } => view.frozen.contains_key(at),
            Load::SeenWord { at: place, word } => get_with(&view.frozen, at, place, word).is_some(),
            Load::Turned {
                id: _,
                form: _,
                start,
                count,
            } => is_frozen_by(view, at, start, count),
            Load::Own => view.frozen.contains_key(at),
        }
    }

    // Whether all n words are frozen afterwards.
    pub fn are_frozen(&self, view: &View, from: u32, n: u32) -> bool
        requires { from + n < 2 ^ 32 }
        ensures { result ≡ all_frozen (loaded_by view.now self.now) from n }
    {
        let mut at = from;
        let mut left = n;
        'words: while 0 < left {
            if !self.is_frozen(view, at) {
                return false;
            }
            at += 1;
            left -= 1;
        }
        true
    }

    // Whether the string `other`, by its form afterwards, shows the units of `id`.
    fn tells(&self, view: &View, id: u32, other: u32) -> bool
        ensures { result ≡ tells (loaded_by view.now self.now) id other
            (get (loaded_by view.now self.now).forms other) }
    {
        match self.form(view, other) {
            Some(form) => self.tells_by(view, id, other, form),
            None => false,
        }
    }

    fn tells_by(&self, view: &View, id: u32, other: u32, form: Form) -> bool
        ensures { result ≡ tells (loaded_by view.now self.now) id other (Some form) }
    {
        match form {
            Form::Thin { target } => target == id && view.units.contains_key(other),
            Form::Cons {
                wide: _,
                left,
                right,
            } => {
                (left == id || right == id)
                    && view.units.contains_key(other)
                    && self.length(view, left).is_some()
            }
            Form::Unborn => false,
            Form::Flat {
                wide: _,
                start: _,
                fixed: _,
            } => false,
            Form::Sliced {
                wide: _,
                parent: _,
                offset: _,
            } => false,
        }
    }

    // Whether any string shows them.
    fn any_tells(&self, view: &View, id: u32) -> bool
        ensures { IsTrue result ↔
            ((j : ℕ)
            × IsTrue (tells (loaded_by view.now self.now) id j (get (loaded_by view.now self.now).forms j))) }
    {
        for (other, _form) in view.forms.iter() {
            if self.tells(view, id, *other) {
                return true;
            }
        }
        match *self {
            Load::SeenForm { id: at, form: _ } => self.tells(view, id, at),
            Load::SeenLength { id: _, length: _ } => false,
            Load::SeenWord { at: _, word: _ } => false,
            Load::Turned {
                id: at,
                form: _,
                start: _,
                count: _,
            } => self.tells(view, id, at),
            Load::Own => false,
        }
    }

    // Whether its own form does, as a Flat over frozen words.
    fn is_shown(&self, view: &View, id: u32) -> bool
        requires { HasRoom (loaded_by view.now self.now) }
        ensures { result ≡ is_some
            (by_flat (loaded_by view.now self.now) id (get (loaded_by view.now self.now).forms id)
            (get (loaded_by view.now self.now).lengths id)) }
    {
        match self.form(view, id) {
            Some(form) => match form {
                Form::Flat {
                    wide,
                    start,
                    fixed: _,
                } => match self.length(view, id) {
                    Some(n) => self.are_frozen(view, start, words_for(n, wide)),
                    None => false,
                },
                _ => false,
            },
            None => false,
        }
    }

    // Whether the units of a string follow from the view afterwards.
    fn justifies(&self, view: &View, id: u32) -> bool
        requires { HasRoom (loaded_by view.now self.now) }
        ensures { IsTrue result ↔ IsSome (justified (loaded_by view.now self.now) id) }
    {
        self.any_tells(view, id) || self.is_shown(view, id)
    }

    /// Whether the units of all these strings follow from the view afterwards.
    pub fn justifies_all(&self, view: &View, names: &[u32]) -> bool
        requires { HasRoom (loaded_by view.now self.now) }
        ensures { IsTrue result ↔ MayLearn (loaded_by view.now self.now) names.now }
    {
        let mut k = 0;
        'names: while k < names.len() {
            if !self.justifies(view, names[k]) {
                return false;
            }
            k += 1;
        }
        true
    }
}
