ghost use Rattle.std.specs.Prelude.{◌≡◌, ◌<◌, ℕ, IfOk, MatchOption, length, slice_index};
ghost use Rattle.vocabulary.specs.declared.limits.TheConstants.{MOST_COLUMNS};
ghost use Rattle.hypergraph.specs.BadEndpoint.{IsFirstNotBelow};

use crate::BadEndpoint;
use std::alloc::Global;
use std::marker::Model;
use std::mem;
use vocabulary::{L, NoMemory};

/// A set of elements: for each element its endpoints, which are elements of another set, and columns of one
/// word per element. A set without endpoints is a vertex set.
#[derive(Drop)]
pub struct SetData {
    count: u32,
    over: Option<u32>,
    arity: u32,
    /// The endpoints, element after element.
    endpoints: Vec<u32>,
    columns: Vec<L<u64>>,
}

impl Model for SetData {
    ghost use Rattle.hypergraph.specs.SetValue.{SetValue, IsSetData, set_of};

    ghost Value = { SetValue };

    ghost view = { λ s. set_of s.count s.over s.arity s.endpoints.items s.columns.items };

    ghost invariant = { λ s. IsSetData (set_of s.count s.over s.arity s.endpoints.items s.columns.items) };
}

impl SetData {
    ghost use Rattle.std.specs.Prelude.{◌≡◌, ◌<◌, ◌≤◌, IfOk, MatchOption, length};
    ghost use Rattle.hypergraph.specs.SetValue.{IsSetData, EndpointsBelow, column_at, endpoint_at, set_of, with_column};
    ghost use Rattle.hypergraph.specs.Incident.{has_endpoint, incident_elements};
    ghost use Rattle.hypergraph.specs.BadEndpoint.{IsFirstBadIn};

    /// A set of `count` elements, at most `MOST_ELEMENTS`, each with `arity` endpoints, at most
    /// `MOST_ENDPOINTS`, in the set numbered `over`. The endpoints stand element after element, and each of the columns,
    /// at most `MOST_COLUMNS`, has one word per element. A vertex set has arity 0, and only such a set lies over none.
    pub fn new(
        count: u32,
        over: Option<u32>,
        arity: u32,
        endpoints: Vec<u32>,
        columns: L<L<u64>>,
    ) -> SetData
        requires { IsSetData (set_of count over arity endpoints.items columns) }
        ensures { result ≡ set_of count over arity endpoints.items columns }
    {
        SetData {
            count,
            over,
            arity,
            endpoints,
            columns: columns.into_vec(),
        }
    }

    /// How many elements the set has.
    #[inline]
    pub fn count(&self) -> u32
        ensures value { result ≡ self.now.count }
        ensures set { IsSetData self.now }
    {
        self.count
    }

    /// The set that the endpoints lie in, by its number.
    #[inline]
    pub(crate) fn over(&self) -> Option<u32>
        ensures { result ≡ self.now.over }
    {
        self.over
    }

    /// How many endpoints each element has.
    #[inline]
    pub(crate) fn arity(&self) -> u32
        ensures { result ≡ self.now.arity }
    {
        self.arity
    }

    /// How many columns the set has.
    #[inline]
    pub(crate) fn columns(&self) -> u32
        ensures value { result ≡ length self.now.columns }
        ensures bound { result ≤ MOST_COLUMNS }
    {
        self.columns.len() as u32
    }

    /// The endpoint at a position of an element.
    #[inline]
    pub(crate) fn end(&self, element: u32, position: u32) -> u32
        requires element { element < self.now.count }
        requires position { position < self.now.arity }
        ensures { result ≡ endpoint_at self.now element position }
    {
        self.endpoints[element as usize * self.arity as usize + position as usize]
    }

    /// The words of a column.
    #[inline]
    pub(crate) fn column(&self, column: u32) -> &[u64]
        requires { column < length self.now.columns }
        ensures { result.now ≡ column_at self.now column }
    {
        self.columns[column as usize].items()
    }

    /// Whether an element has the vertex at some position.
    #[inline]
    #[tactic(auto, unfolding(crate::specs::Incident::has_endpoint))]
    fn has_endpoint(&self, element: u32, vertex: u32) -> bool
        requires { element < self.now.count }
        ensures { result ≡ has_endpoint self.now vertex element }
    {
        (0..self.arity).any(|position| self.end(element, position) == vertex)
    }

    /// The elements that have the vertex at some position, ascending, each once.
    #[tactic(auto, using(crate::proofs::Ranges::filter_range_passes, crate::proofs::Ranges::filter_range_fails))]
    pub(crate) fn incident(&self, alloc: Global, vertex: u32) -> Result<Vec<u32>, NoMemory>
        ensures { IfOk result (λ elements. elements.items ≡ incident_elements self.now vertex) }
    {
        let mut elements = Vec::new(alloc);
        for element in 0..self.count {
            if self.has_endpoint(element, vertex) {
                elements.push(element).map_err(|_| NoMemory)?;
            }
        }
        Ok(elements)
    }

    /// The first endpoint of this set, by the set's number, that isn't below the bound.
    pub(crate) fn first_bad(&self, number: u32, bound: u32) -> Option<BadEndpoint>
        ensures set { IsSetData self.now }
        ensures bad { MatchOption result (EndpointsBelow self.now bound)
            (λ bad. (bad.set ≡ number) × IsFirstBadIn self.now bound bad.element bad.place) }
    {
        let index = first_not_below(&self.endpoints, bound)?;
        let arity = self.arity as usize;
        Some(BadEndpoint {
            set: number,
            element: (index / arity) as u32,
            place: (index % arity) as u32,
        })
    }

    /// Replaces a column by as many words, and answers the old one.
    pub(crate) fn set_column(&mut self, column: u32, words: L<u64>) -> L<u64>
        requires column { column < length self.old.columns }
        requires words { length words ≡ self.old.count }
        ensures old { result ≡ column_at self.old column }
        ensures new { self.new ≡ with_column self.old column words }
    {
        mem::replace(&mut self.columns[column as usize], words)
    }

    /// An equal set.
    pub(crate) fn copy(&self, alloc: Global) -> Result<SetData, NoMemory>
        ensures { IfOk result (λ copy. copy ≡ self.now) }
    {
        let endpoints = self.endpoints.to_vec(alloc).map_err(|_| NoMemory)?;
        let columns = copy_columns(alloc, &self.columns)?;
        Ok(SetData {
            count: self.count,
            over: self.over,
            arity: self.arity,
            endpoints,
            columns,
        })
    }
}

/// The index of the first number that isn't below the bound.
fn first_not_below(numbers: &[u32], bound: u32) -> Option<usize>
    ensures { MatchOption result
        ((k : ℕ) → k < length numbers.now → slice_index numbers.now k < bound)
        (λ index. IsFirstNotBelow numbers.now bound index) }
{
    numbers.iter().position(|number| *number >= bound)
}

/// Equal columns.
fn copy_columns(alloc: Global, columns: &[L<u64>]) -> Result<Vec<L<u64>>, NoMemory>
    ensures { IfOk result (λ copies. copies.items ≡ columns.now) }
{
    let mut copies = Vec::with_capacity(alloc, columns.len()).map_err(|_| NoMemory)?;
    for column in columns {
        copies.push(column.copy(alloc)?).map_err(|_| NoMemory)?;
    }
    Ok(copies)
}
