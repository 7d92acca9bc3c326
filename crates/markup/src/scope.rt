//! The elements that are open, with the namespaces that their tags declare.
ghost use Rattle.std.specs.Prelude.{◌≡◌, ◌==◌, ◌≤◌, ◌++◌, ◌∷◌, List, [], ℕ, length, drop, IfOk, OnOk, OnErr, IfSome, IsSome, Some, None, Option, map, false, true, ◌&&◌, if◌then◌else◌};
ghost use Rattle.std.specs.Str.{bytes_eq};
ghost use Rattle.lexical_core.specs.declared.rule.Rule.TheVariants.{TagMismatch};
ghost use Rattle.markup.specs.Events.{namespace_of, start_tag_items, expanded_in, end_items};
ghost use Rattle.markup.specs.EventItems.{entry_of, Tells, TellsFront};
ghost use Rattle.markup.specs.inner.Bindings.{Binds};
ghost use Rattle.markup.specs.Marks.{tag_limit, begins_with};
ghost use Rattle.markup.specs.Faults.{end_rule};
ghost use Rattle.markup.specs.inner.OpenNames.{OpenName, KeepsNames};
ghost use Rattle.markup.specs.PlainTags.{joined_text, tag_text, may_be_named, IsInsideOf, tags_behind, IsTagAt, IsTagInside};
ghost use Rattle.markup.specs.Scopes.{open_name, placed_at};

use crate::attributes::{Declared, Expanded, TagAttribute, spelled_attributes};
use crate::bindings::Bindings;
use crate::event::Events;
use crate::namespace::Namespace;
use crate::open_names::{InnermostName, OpenNames};
use crate::plain_tag::{PlainTag, TagKind, tag_at};
use crate::tag::{Opening, Spelled};
use crate::telling::{tell_end, tell_start};
use lexical_core::{Rule, are_same};
use std::alloc::{AllocError, Global};

/// Why an element is not told.
pub(crate) enum Stop {
    /// A tag breaks this rule.
    Rule(Rule),
    /// There was no memory.
    Memory,
}

/// What a start tag says under the tags that are open before it.
#[derive(Drop)]
struct Resolved {
    /// The namespace of the element; `None` where its prefix is bound to nothing.
    namespace: Option<Namespace>,
    /// How many namespaces the tag declares.
    declared: usize,
    /// Whether two declarations or two attributes have one name.
    has_clash: bool,
    /// Whether a declaration may not be, or an attribute's prefix is bound to nothing.
    is_bad: bool,
}

/// The namespace of an element whose start tag breaks no rule.
#[derive(Drop)]
pub(crate) struct Opened {
    pub(crate) ns: Namespace,
    /// Whether the element round it has the same prefix, and the tag declares nothing.
    pub(crate) has_same_ns: bool,
}

/// The open elements, the outermost first.
#[derive(Drop)]
pub(crate) struct Scope {
    alloc: Global,
    names: OpenNames,
    /// The declarations of the open tags.
    pub(crate) bindings: Bindings,
}

impl Scope {
    ghost use Rattle.markup.specs.Scopes.{IsScope, IsStartAnswer, Closes};
    ghost use Rattle.markup.specs.inner.TagParts.{tag_given, spelled_opening, IsResolved};
    ghost use Rattle.markup.specs.inner.StartTags.{IsOpened};

    /// No element is open. It takes no memory.
    pub(crate) fn new(alloc: Global) -> Scope
        ensures { IsScope result [] }
    {
        Scope {
            alloc,
            names: OpenNames::new(alloc),
            bindings: Bindings::new(alloc),
        }
    }

    /// Whether no element is open.
    pub(crate) fn is_outside(&self) -> bool
        ensures { (tags : List Opening) → IsScope self.now tags → result ≡ (length tags == 0) }
    {
        self.names.is_empty()
    }

    /// How many elements are open.
    pub(crate) fn depth(&self) -> usize
        ensures { (tags : List Opening) → IsScope self.now tags → result ≡ length tags }
    {
        self.names.count()
    }

    /// A start tag at the place: tells its events, or the least rule that it breaks. `over`: the root
    /// has come and is closed. The tag of an empty element opens and closes it (XML 1.0 §3.1;
    /// Namespaces §6). Behind an error the scope is of no more use.
    pub(crate) fn begin(
        &mut self,
        tag: Opening,
        over: bool,
        place: u64,
        out: &mut Events,
    ) -> Result<(), Stop>
        ensures { (tags : List Opening) → IsScope self.old tags → IsStartAnswer over tags tag place out.old out.new self.new result }
    {
        let Opening {
            name,
            given,
            is_empty,
        } = tag;
        let Ok(mut attributes) = spelled_attributes(given.as_slice(), self.alloc) else {
            return Err(Stop::Memory);
        };
        let opened = match self.open(
            name.prefix.bytes(),
            name.local.bytes(),
            &mut attributes,
            is_empty,
            over,
        ) {
            Ok(opened) => opened,
            Err(stop) => return Err(stop),
        };
        match tell_start(
            out,
            place,
            opened.ns,
            name.local,
            attributes.as_slice(),
            is_empty,
            self.alloc,
        ) {
            Ok(()) => Ok(()),
            Err(_) => Err(Stop::Memory),
        }
    }

    /// A start tag of this name, whose attributes and declarations are these as they are spelled: gives the element's
    /// namespace and, in their order, the attributes that declare nothing with their expanded names, or the least rule
    /// that the tag breaks. The tag of an empty element opens and closes it. Behind an error the scope is of no more
    /// use.
    pub(crate) fn open(
        &mut self,
        prefix: &[u8],
        name: &[u8],
        attributes: &mut Vec<TagAttribute<'_>>,
        is_empty: bool,
        over: bool,
    ) -> Result<Opened, Stop>
        ensures { (tags : List Opening) → IsScope self.old tags → IsOpened over tags (spelled_opening prefix.now name.now attributes.old.items is_empty) attributes.new.items self.new result }
    {
        let Ok(resolved) = self.resolve(prefix, attributes) else {
            return Err(Stop::Memory);
        };
        let Resolved {
            namespace,
            declared,
            has_clash,
            is_bad,
        } = resolved;
        if has_clash {
            return Err(Stop::Rule(Rule::DuplicateAttribute));
        }
        let Some(ns) = namespace else {
            return Err(Stop::Rule(Rule::BadPrefix));
        };
        if is_bad {
            return Err(Stop::Rule(Rule::BadPrefix));
        }
        if over {
            return Err(Stop::Rule(Rule::AfterRoot));
        }
        let opened = Opened {
            ns,
            has_same_ns: self.has_same_ns(declared, prefix),
        };
        if is_empty {
            self.bindings.forget(declared);
            return Ok(opened);
        }
        match self.names.push(prefix, name, declared) {
            Ok(()) => Ok(opened),
            Err(_) => Err(Stop::Memory),
        }
    }

    /// Whether a tag that has this prefix and declares so many namespaces declares none, and the innermost element has
    /// its prefix.
    fn has_same_ns(&self, declared: usize, prefix: &[u8]) -> bool
        ensures { (tags : List Opening) → KeepsNames self.now.names (map open_name tags) → result ≡ true → (declared ≡ 0) × (opened : List ℕ) × IsInsideOf tags (record { prefix = prefix.now; local = opened }) }
    {
        if declared > 0 {
            return false;
        }
        match self.names.innermost() {
            Some(innermost) => are_same(innermost.prefix, prefix),
            None => false,
        }
    }

    /// Takes up the declarations of a start tag, and expands the names of its attributes.
    fn resolve(
        &mut self,
        prefix: &[u8],
        attributes: &mut Vec<TagAttribute<'_>>,
    ) -> Result<Resolved, AllocError>
        ensures { (tags : List Opening) (tag : Opening) → IsScope self.old tags → tag.name.prefix ≡ prefix.now → tag.given ≡ map tag_given attributes.old.items → IfOk result (λ r. IsResolved tags tag r attributes.new.items self.new) }
    {
        let parts = Declared::of(attributes.as_slice(), &mut self.bindings)?;
        let namespace = self.bindings.namespace_of(prefix)?;
        let expanded = Expanded::of(attributes, parts.count, &self.bindings)?;
        Ok(Resolved {
            namespace,
            declared: parts.count,
            has_clash: parts.has_clash | expanded.has_clash,
            is_bad: parts.is_bad | expanded.is_unbound,
        })
    }

    /// An end tag at the place: tells its event, or the rule that it breaks (XML 1.0 §3.1, Element
    /// Type Match). Behind an error the scope is of no more use.
    pub(crate) fn close(&mut self, name: Spelled, place: u64, out: &mut Events) -> Result<(), Stop>
        ensures { (tags : List Opening) → IsScope self.old tags → Closes tags name place out.old out.new self.new result }
    {
        if !self.is_innermost(&name) {
            return Err(Stop::Rule(Rule::TagMismatch));
        }
        match self.end(name, place, out) {
            Ok(()) => Ok(()),
            Err(_) => Err(Stop::Memory),
        }
    }

    /// Whether the innermost element is spelled so.
    fn is_innermost(&self, name: &Spelled) -> bool
        ensures { (tags : List Opening) → IsScope self.now tags → end_rule tags name.now ≡ (if result then None else Some TagMismatch) }
    {
        let Some(innermost) = self.names.innermost() else {
            return false;
        };
        is_spelled(&innermost, name)
    }

    /// Tells that the innermost element ends, which has this name, and forgets its declarations.
    fn end(&mut self, name: Spelled, place: u64, out: &mut Events) -> Result<(), AllocError>
        ensures ok { (tag : Opening) (tags : List Opening) → IsScope self.old (tag ∷ tags) → tag.name ≡ name → OnOk result (IsScope self.new tags) }
        ensures tells { (tag : Opening) (tags : List Opening) → IsScope self.old (tag ∷ tags) → tag.name ≡ name → OnOk result (Tells out.old out.new (placed_at place (end_items (tag ∷ tags)))) }
        ensures err { OnErr result (out.new ≡ out.old) }
    {
        let namespace = self.bindings.namespace_of(name.prefix.bytes())?;
        self.forget_innermost();
        tell_end(out, place, namespace, name.local)
    }

    /// Forgets the innermost element and its declarations.
    fn forget_innermost(&mut self)
        ensures { (tag : Opening) (tags : List Opening) → IsScope self.old (tag ∷ tags) → IsScope self.new tags }
    {
        let declared = self.names.pop();
        if declared > 0 {
            self.bindings.forget(declared);
        }
    }

    /// The plain tag at the front of the piece that breaks no rule, with the prefix of the innermost
    /// element.
    #[inline]
    pub(crate) fn tag_at<'a>(&self, piece: &'a [u8]) -> Option<PlainTag<'a>>
        ensures found { IfSome result (λ tag. (opened : List ℕ) × IsTagAt piece.now tag.prefix.now opened tag.kind tag.name.now tag.bytes) }
        ensures only { (tags : List Opening) → IsScope self.now tags → IfSome result (λ tag. IsTagInside piece.now tags tag.prefix.now tag.kind tag.name.now tag.bytes) }
        ensures all { (tags : List Opening) (prefix opened : List ℕ) (kind : TagKind) (name rest : List ℕ) → IsScope self.now tags → IsInsideOf tags (record { prefix = prefix; local = opened }) → begins_with 47 prefix ≡ false → may_be_named kind opened name → piece.now ≡ tag_text kind (joined_text prefix name) ++ rest → length (tag_text kind (joined_text prefix name)) ≤ tag_limit → IsSome result }
    {
        let Some(innermost) = self.names.innermost() else {
            return None;
        };
        tag_at(piece, innermost.prefix, innermost.local)
    }

    /// Takes a plain tag that breaks no rule, with the prefix of the innermost element. Where there is no
    /// memory the scope is of no more use.
    #[inline]
    pub(crate) fn take_plain(
        &mut self,
        kind: TagKind,
        prefix: &[u8],
        name: &[u8],
    ) -> Result<(), AllocError>
        ensures { (tags : List Opening) (opened : List ℕ) → IsScope self.old tags → IsInsideOf tags (record { prefix = prefix.now; local = opened }) → OnOk result (IsScope self.new (tags_behind kind (record { prefix = prefix.now; local = name.now }) tags)) }
    {
        match kind {
            TagKind::Start => self.names.push(prefix, name, 0),
            TagKind::Empty => Ok(()),
            TagKind::End => {
                self.forget_innermost();
                Ok(())
            }
        }
    }
}

/// Whether the two names are spelled alike.
fn is_spelled(left: &InnermostName<'_>, right: &Spelled) -> bool
    ensures { result ≡ (bytes_eq left.now.prefix.now right.now.prefix && bytes_eq left.now.local.now right.now.local) }
{
    left.prefix == right.prefix.bytes() && left.local == right.local.bytes()
}
