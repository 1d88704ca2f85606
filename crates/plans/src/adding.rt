// How elements and vectors are added to the table of a grid.
ghost use Rattle.std.specs.Prelude.{◌≡◌, ◌<◌, [], ◌∷◌, ◌++◌, length, IfOk, is_ok, if◌then◌else◌, slice_index_or, slice_set};
ghost use Rattle.plans.specs.Drawings.{blank};
ghost use Rattle.plans.specs.Fitting.{list_answer, list_on, put};
ghost use Rattle.plans.specs.Holdings.{lists_of, elements_of};

use crate::faults::PlanFault;
use crate::modes::Side;
use crate::near::NearVector;
use crate::tables::{Element, Table, VectorList};
use std::alloc::{AllocError, Global};

impl VectorList {
    #[tactic(auto, using(crate::proofs::VectorLists::every_push, crate::proofs::VectorLists::different_push))]
    fn add(&mut self, v: NearVector) -> Result<(), PlanFault>
        ensures answer { result ≡ list_answer self.old.items.items v.vector }
        ensures after { self.new.items.items ≡ (if is_ok result then self.old.items.items ++ v.vector ∷ [] else self.old.items.items) }
    {
        let NearVector { vector } = v;
        if self.items.contains(&vector) {
            return Err(PlanFault::Listed);
        }
        if self.items.is_full() {
            return Err(PlanFault::Vectors);
        }
        self.items.push(vector);
        Ok(())
    }
}

impl Element {
    // Adds a vector to one list. A method that lends the list for writing would need a clause on what comes back, for this one caller.
    fn add(&mut self, side: Side, v: NearVector) -> Result<(), PlanFault>
        ensures answer { result ≡ list_answer (list_on side (lists_of self.old)) v.vector }
        ensures after { lists_of self.new ≡ (if is_ok result then put side (lists_of self.old) v.vector else lists_of self.old) }
    {
        match side {
            Side::First => self.first.add(v),
            Side::Second => self.second.add(v),
        }
    }
}

impl Table {
    // No elements, and the memory for eight: no later call needs any.
    pub(crate) fn new(heap: Global) -> Result<Table, AllocError>
        ensures { IfOk result (λ t. elements_of t ≡ []) }
    {
        Ok(Table {
            elements: Vec::with_capacity(heap, 8)?,
        })
    }

    // One vector more in one list; no other changes.
    pub(crate) fn add_vector(
        &mut self,
        e: usize,
        side: Side,
        v: NearVector,
    ) -> Result<(), PlanFault>
        requires { e < length (elements_of self.old) }
        ensures answer { result ≡ list_answer (list_on side (slice_index_or (elements_of self.old) e blank)) v.vector }
        ensures after { elements_of self.new ≡ (if is_ok result then slice_set (elements_of self.old) e (put side (slice_index_or (elements_of self.old) e blank) v.vector) else elements_of self.old) }
    {
        self.elements[e].add(side, v)
    }

    // One element more, which begins without vectors.
    pub(crate) fn add_element(&mut self)
        requires { length (elements_of self.old) < 8 }
        ensures { elements_of self.new ≡ elements_of self.old ++ blank ∷ [] }
    {
        self.elements.push_reserved(Element::default());
    }
}
