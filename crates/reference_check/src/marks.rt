//! The objects that are reached, found by following references.
ghost use Rattle.std.specs.Prelude.{◌≡◌, ◌∷◌, [], ◌<◌, ℕ, List, length, false, replicate, OnOk, IfOk};
ghost use Rattle.std.specs.Option.{option_copied};
ghost use Rattle.std.specs.List.{flat_map};
ghost use Rattle.reference_check.specs.Graph.{references, given_id, message};
ghost use Rattle.reference_check.specs.inner.Subjects.{subject_targets};
ghost use Rattle.reference_check.specs.inner.Marking.{Adds, AddsAt, Visits, AreMarks, LeadsWithin};

use crate::subject::Subject;
use lexical_core::Text;
use repo_objects::{ElementDef, Repository};
use std::alloc::{AllocError, Global};

/// The objects that are reached so far.
#[derive(Drop)]
pub(crate) struct Marks {
    /// Whether the object at this place is reached.
    pub(crate) marked: Vec<bool>,
    /// The places of those whose references are still to be followed.
    pub(crate) waiting: Vec<usize>,
}

impl Marks {
    /// No object is reached.
    pub(crate) fn new(alloc: Global, count: usize) -> Result<Marks, AllocError>
        ensures { IfOk result (λ s. (s.marked.items ≡ replicate count false) × (s.waiting.items ≡ [])) }
    {
        Ok(Marks {
            marked: vec![in alloc; false; count]?,
            waiting: Vec::new(alloc),
        })
    }

    /// Marks the object at that place.
    fn mark_at(&mut self, at: usize) -> Result<(), AllocError>
        requires { at < length self.old.marked.items }
        ensures { OnOk result (AddsAt at self.old self.new) }
    {
        if !self.marked[at] {
            self.waiting.push(at)?;
            self.marked[at] = true;
        }
        Ok(())
    }

    /// Marks the object of that id, if there is one.
    fn mark(&mut self, repository: &Repository, id: &[u8]) -> Result<(), AllocError>
        requires { length self.old.marked.items ≡ length repository.now.objects }
        ensures { OnOk result (Adds repository.now (id.now ∷ []) self.old self.new) }
    {
        match repository.place(id) {
            Some(at) => self.mark_at(at),
            None => Ok(()),
        }
    }

    /// Marks what a reference names.
    fn mark_given(
        &mut self,
        repository: &Repository,
        reference: Option<&Text>,
    ) -> Result<(), AllocError>
        requires { length self.old.marked.items ≡ length repository.now.objects }
        ensures { OnOk result (Adds repository.now (given_id (option_copied reference.entry)) self.old self.new) }
    {
        match reference {
            Some(id) => self.mark(repository, id.bytes()),
            None => Ok(()),
        }
    }

    /// Marks what an element names.
    fn mark_references(
        &mut self,
        repository: &Repository,
        element: &ElementDef,
    ) -> Result<(), AllocError>
        requires { length self.old.marked.items ≡ length repository.now.objects }
        ensures { OnOk result (Adds repository.now (references element.now) self.old self.new) }
    {
        self.mark_given(repository, element.simple.as_ref())?;
        self.mark_given(repository, element.complex.as_ref())?;
        self.mark_given(repository, element.plain.as_ref())
    }

    /// Marks what elements name.
    fn mark_elements(
        &mut self,
        repository: &Repository,
        elements: &[ElementDef],
    ) -> Result<(), AllocError>
        requires { length self.old.marked.items ≡ length repository.now.objects }
        ensures { OnOk result (Adds repository.now (flat_map references elements.now) self.old self.new) }
    {
        for element in elements {
            self.mark_references(repository, element)?;
        }
        Ok(())
    }

    /// Marks what it refers to.
    pub(crate) fn mark_targets(
        &mut self,
        repository: &Repository,
        subject: &Subject<'_>,
    ) -> Result<(), AllocError>
        requires { length self.old.marked.items ≡ length repository.now.objects }
        ensures { OnOk result (Adds repository.now (subject_targets subject.now) self.old self.new) }
    {
        self.mark_elements(repository, subject.elements())?;
        self.mark_given(repository, subject.currency())
    }

    /// Marks what the object at that place refers to.
    fn visit(&mut self, repository: &Repository, at: usize) -> Result<(), AllocError>
        requires { length self.old.marked.items ≡ length repository.now.objects }
        ensures { OnOk result (Visits repository.now at self.old self.new) }
    {
        match repository.object_at(at) {
            Some((_, object)) => self.mark_targets(repository, &Subject::Entry(object)),
            None => Ok(()),
        }
    }

    /// Marks what marked objects refer to, until none is left to follow.
    pub(crate) fn follow(&mut self, repository: &Repository) -> Result<(), AllocError>
        requires { length self.old.marked.items ≡ length repository.now.objects }
        ensures long { OnOk result (length self.new.marked.items ≡ length repository.now.objects) }
        ensures marks { (m : List ℕ) → AreMarks repository.now m [] self.old.marked.items self.old.waiting.items → LeadsWithin repository.now m self.old.marked.items message → OnOk result (AreMarks repository.now m [] self.new.marked.items [] × LeadsWithin repository.now m self.new.marked.items message) }
    {
        while let Some(at) = self.waiting.pop() {
            self.visit(repository, at)?;
        }
        Ok(())
    }
}
