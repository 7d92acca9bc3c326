//! The elements of a repository file that are read, by its events.
ghost use Rattle.std.specs.Prelude.{◌≡◌, [], ◌∷◌, ◌++◌, ℕ, List, IfOk, Some, map, reverse};
ghost use Rattle.lexical_core.specs.Tree.{Expanded, Starts, Ends};
ghost use Rattle.markup.specs.TagAttributes.{tag_entry};
ghost use Rattle.markup.specs.Events.{Placed, start_tag_items};
ghost use Rattle.markup.specs.EventItems.{item_of, placed_event};
ghost use Rattle.markup.specs.Scopes.{placed_at};
ghost use Rattle.repo_loader.specs.Selected.{innermost as spec_innermost};
ghost use Rattle.repo_loader.specs.File.{contents_of};
ghost use Rattle.repo_loader.specs.inner.LoadingSteps.{AreTexts};
ghost use Rattle.repo_loader.specs.inner.SelectionSteps.{HasLoaded, LoadsOn, HasItemTexts, HaveTexts, tags_told};

use crate::fault::LoadFault;
use crate::loading::Loading;
use crate::part::Part;
use crate::parts::part_in;
use crate::stop::Stop;
use markup::{Event, StartTag, TagAttribute, What, tag_attributes};
use repo_objects::Repository;
use std::alloc::{AllocError, Global};

/// What the events so far say, and which elements are open.
#[derive(Drop)]
pub struct Selection {
    alloc: Global,
    /// What the open elements are, the innermost the last.
    open_parts: Vec<Part>,
    loading: Loading,
}

impl Selection {
    /// Before the first event. It takes no memory.
    pub fn new(alloc: Global) -> Selection
        ensures { HasLoaded result [] }
    {
        Selection {
            alloc,
            open_parts: Vec::new(alloc),
            loading: Loading::new(alloc),
        }
    }

    /// What the next element stands in.
    fn innermost(&self) -> Part
        ensures { result ≡ spec_innermost (reverse self.now.open_parts.items) }
    {
        match self.open_parts.split_last() {
            Some((part, _)) => *part,
            None => Part::File,
        }
    }

    /// Takes the start of an element.
    fn take_start(
        &mut self,
        place: u64,
        ns: &[u8],
        local: &[u8],
        attributes: &[TagAttribute<'_>],
    ) -> Result<Option<LoadFault>, AllocError>
        requires loaded { (told : List Placed) × HasLoaded self.old told }
        requires texts { AreTexts (map tag_entry attributes.now) }
        ensures { (told : List Placed) → HasLoaded self.old told → IfOk result (λ o. LoadsOn self.new (told ++ (record { place = place; item = Starts (record { namespace = ns.now; local = local.now }) (map tag_entry attributes.now) }) ∷ []) o) }
    {
        let part = part_in(self.innermost(), ns, local, attributes);
        self.open_parts.push(part)?;
        if let Part::LeftOut = part {
            return Ok(None);
        }
        match self.loading.take_tag(part, attributes) {
            Ok(()) => Ok(None),
            Err(Stop::Rule(rule)) => Ok(Some(LoadFault {
                rule,
                markup: None,
                place,
            })),
            Err(Stop::Memory) => Err(AllocError),
        }
    }

    /// Takes the end of the innermost element.
    fn take_end(&mut self)
        ensures { (told : List Placed) (place : ℕ) (name : Expanded) → HasLoaded self.old told → HasLoaded self.new (told ++ (record { place = place; item = Ends name }) ∷ []) }
    {
        self.open_parts.pop();
    }

    /// Takes a start tag that was taken whole, and of an empty element the end.
    pub fn take_tag(
        &mut self,
        place: u64,
        tag: &StartTag<'_>,
    ) -> Result<Option<LoadFault>, AllocError>
        requires loaded { (told : List Placed) × HasLoaded self.old told }
        requires texts { AreTexts (map tag_entry tag.now.attributes.items) }
        ensures { (told : List Placed) → HasLoaded self.old told → IfOk result (λ o. LoadsOn self.new (told ++ placed_at place (start_tag_items (Some (record { namespace = tag.now.ns; local = tag.now.name.now })) (map tag_entry tag.now.attributes.items) tag.now.is_empty)) o) }
    {
        let fault = self.take_start(place, tag.ns.bytes(), tag.name, tag.attributes.as_slice())?;
        if fault.is_some() {
            return Ok(fault);
        }
        if tag.is_empty {
            self.take_end();
        }
        Ok(None)
    }

    /// Takes the next event.
    fn take_event(&mut self, event: &Event) -> Result<Option<LoadFault>, AllocError>
        requires loaded { (told : List Placed) × HasLoaded self.old told }
        requires texts { HasItemTexts (item_of event.now.what) }
        ensures { (told : List Placed) → HasLoaded self.old told → IfOk result (λ o. LoadsOn self.new (told ++ placed_event event.now ∷ []) o) }
    {
        match &event.what {
            What::Start { ns, local, attrs } => {
                let attributes = tag_attributes(attrs.as_slice(), self.alloc)?;
                self.take_start(
                    event.place,
                    ns.bytes(),
                    local.bytes(),
                    attributes.as_slice(),
                )
            }
            What::End { .. } => {
                self.take_end();
                Ok(None)
            }
            What::Char(_) => Ok(None),
            What::Skipped => Ok(None),
        }
    }

    /// Takes the next events, as far as the first whose element breaks a rule.
    pub fn take_events(&mut self, events: &[Event]) -> Result<Option<LoadFault>, AllocError>
        requires loaded { (told : List Placed) × HasLoaded self.old told }
        requires texts { HaveTexts events.now }
        ensures { (told : List Placed) → HasLoaded self.old told → IfOk result (λ o. LoadsOn self.new (told ++ map placed_event events.now) o) }
    {
        let mut rest = events;
        while let Some((event, after)) = rest.split_first() {
            if let Some(fault) = self.take_event(event)? {
                return Ok(Some(fault));
            }
            rest = after;
        }
        Ok(None)
    }

    /// The repository that the events say, which are all of a file.
    pub fn take_repository(&mut self) -> Result<Repository, AllocError>
        requires { (told : List Placed) × HasLoaded self.old told }
        ensures { (told : List Placed) → HasLoaded self.old told → IfOk result (λ r. r ≡ contents_of (tags_told told)) }
    {
        self.loading.take_repository()
    }
}
