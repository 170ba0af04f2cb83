use crate::endpoints::first_bad;
use crate::{BadEndpoint, SetData};
use std::alloc::Global;
use std::marker::Model;
use vocabulary::{L, NoMemory};

/// At most `MOST_SETS` sets, each with its endpoints in an earlier vertex set, where every endpoint is an element.
#[derive(Drop)]
pub struct Sets {
    sets: Vec<SetData>,
}

impl Model for Sets {
    ghost use Rattle.std.specs.Prelude.{List};
    ghost use Rattle.hypergraph.specs.SetValue.{SetValue};
    ghost use Rattle.hypergraph.specs.Sets.{AreSets};

    ghost Value = { List SetValue };

    ghost view = { λ s. s.sets.items };

    ghost invariant = { λ s. AreSets s.sets.items };
}

impl Sets {
    ghost use Rattle.std.specs.Prelude.{◌≡◌, ◌<◌, ◌≤◌, ◌↔◌, IfErr, IfOk, IsNone, length, slice_set};
    ghost use Rattle.vocabulary.specs.declared.limits.TheConstants.{MOST_COLUMNS, MOST_ELEMENTS, MOST_ENDPOINTS, MOST_SETS};
    ghost use Rattle.hypergraph.specs.SetValue.{column_at, endpoint_at, with_column};
    ghost use Rattle.hypergraph.specs.Sets.{AreSets, AllLieOverEarlier, LiesOverEarlier, endpoint_bound, set_at};
    ghost use Rattle.hypergraph.specs.Incident.{incident_elements};
    ghost use Rattle.hypergraph.specs.BadEndpoint.{IsFirstBad};

    /// These sets, of which each that has endpoints lies over an earlier one without. Where an endpoint isn't
    /// below the count of the set that it lies in, the first such one: by set, then by element, then by position.
    /// The list is given up then. This takes no memory.
    pub fn of(list: Vec<SetData>) -> Result<Sets, BadEndpoint>
        requires few { length list.items ≤ MOST_SETS }
        requires over_earlier { AllLieOverEarlier list.items }
        ensures same { IfOk result (λ sets. sets ≡ list.items) }
        ensures sets { IfOk result (λ sets. AreSets sets) }
        ensures bad { IfErr result (λ bad. IsFirstBad list.items bad) }
    {
        match first_bad(&list) {
            None => Ok(Sets { sets: list }),
            Some(bad) => Err(bad),
        }
    }

    /// How many sets there are.
    #[inline]
    pub fn len(&self) -> u32
        ensures value { result ≡ length self.now }
        ensures sets { AreSets self.now }
    {
        self.sets.len() as u32
    }

    /// How many elements a set has.
    #[inline]
    pub fn count(&self, set: u32) -> u32
        requires { set < length self.now }
        ensures value { result ≡ (set_at self.now set).count }
        ensures bound { result ≤ MOST_ELEMENTS }
    {
        self.set(set).count()
    }

    /// How many endpoints each element of a set has.
    #[inline]
    pub fn arity(&self, set: u32) -> u32
        requires { set < length self.now }
        ensures value { result ≡ (set_at self.now set).arity }
        ensures bound { result ≤ MOST_ENDPOINTS }
    {
        self.set(set).arity()
    }

    /// How many columns a set has.
    #[inline]
    pub fn columns(&self, set: u32) -> u32
        requires { set < length self.now }
        ensures value { result ≡ length (set_at self.now set).columns }
        ensures bound { result ≤ MOST_COLUMNS }
    {
        self.set(set).columns()
    }

    /// The set that a set's endpoints lie in, an earlier one without endpoints. None exactly for a set that
    /// has no endpoints.
    #[inline]
    pub fn over(&self, set: u32) -> Option<u32>
        requires { set < length self.now }
        ensures value { result ≡ (set_at self.now set).over }
        ensures none { IsNone result ↔ ((set_at self.now set).arity ≡ 0) }
        ensures earlier { LiesOverEarlier self.now set }
    {
        self.set(set).over()
    }

    /// The endpoint at a position of an element.
    #[inline]
    pub fn end(&self, set: u32, element: u32, position: u32) -> u32
        requires set { set < length self.now }
        requires element { element < (set_at self.now set).count }
        requires position { position < (set_at self.now set).arity }
        ensures value { result ≡ endpoint_at (set_at self.now set) element position }
        ensures bound { result < endpoint_bound self.now set }
    {
        self.set(set).end(element, position)
    }

    /// The words of a column, one per element.
    #[inline]
    pub fn column(&self, set: u32, column: u32) -> &[u64]
        requires set { set < length self.now }
        requires column { column < length (set_at self.now set).columns }
        ensures value { result.now ≡ column_at (set_at self.now set) column }
        ensures len { length result.now ≡ (set_at self.now set).count }
    {
        self.set(set).column(column)
    }

    /// The elements of a set that have the vertex among their endpoints, ascending, each once.
    pub fn incident(&self, alloc: Global, set: u32, vertex: u32) -> Result<Vec<u32>, NoMemory>
        requires { set < length self.now }
        ensures { IfOk result (λ elements.
            elements.items ≡ incident_elements (set_at self.now set) vertex) }
    {
        self.set(set).incident(alloc, vertex)
    }

    /// Replaces a column by as many words as the set has elements, and answers the old one.
    #[inline]
    pub fn set_column(&mut self, set: u32, column: u32, words: L<u64>) -> L<u64>
        requires set { set < length self.old }
        requires column { column < length (set_at self.old set).columns }
        requires words { length words ≡ (set_at self.old set).count }
        ensures old { result ≡ column_at (set_at self.old set) column }
        ensures new { self.new
            ≡ slice_set self.old set (with_column (set_at self.old set) column words) }
        ensures sets { AreSets self.new }
    {
        let set = &mut self.sets[set as usize];
        set.set_column(column, words)
    }

    /// An equal value.
    pub fn copy(&self, alloc: Global) -> Result<Sets, NoMemory>
        ensures { IfOk result (λ copy. copy ≡ self.now) }
    {
        let mut sets = Vec::with_capacity(alloc, self.sets.len()).map_err(|_| NoMemory)?;
        for set in &self.sets {
            sets.push(set.copy(alloc)?).map_err(|_| NoMemory)?;
        }
        Ok(Sets { sets })
    }

    /// A set by its number.
    #[inline]
    fn set(&self, number: u32) -> &SetData
        requires { number < length self.now }
        ensures value { result.now ≡ set_at self.now number }
        ensures sets { AreSets self.now }
    {
        &self.sets[number as usize]
    }
}
