//! The declarations of the open tags, with a look-up by the prefix (Namespaces in XML 1.0 §6.1).
ghost use Rattle.std.specs.Prelude.{◌≡◌, ◌∷◌, ◌++◌, List, [], ℕ, length, drop, Some, OnOk, IfSome, IsSome, if◌then◌else◌, Option, IfOk};
ghost use Rattle.std.specs.List.{list_any};
ghost use Rattle.std.specs.Option.{option_copied, option_map, unwrap_or};
ghost use Rattle.std.specs.Str.{bytes_eq};
ghost use Rattle.std.specs.Cmp.Lexicographic.{slice_cmp};
ghost use Rattle.std.specs.Ordering.{nat_cmp};
ghost use Rattle.markup.specs.Events.{declared_prefix, namespace_of};
ghost use Rattle.markup.specs.inner.Bindings.{Binds, place_in, declares};
ghost use Rattle.markup.specs.inner.Origins.{declared_namespace, namespace_from};
ghost use Rattle.markup.specs.Scopes.{all_declarations};

use crate::names::XML_NAMESPACE;
use crate::namespace::Namespace;
use crate::open_bindings::{Binding, OpenBindings};
use crate::origin::{Origin, is_one, origin_ahead};
use crate::tag::{Given, Opening};
use lexical_core::Text;
use std::alloc::{AllocError, Global};
use std::cmp::Ordering;
use std::collections::BTreeMap;

/// The declarations of the open tags. Of those of one prefix the latest binds it.
#[derive(Drop)]
pub(crate) struct Bindings {
    alloc: Global,
    /// The outermost tag's first, and those of one tag in reverse.
    open: OpenBindings,
    /// The place of each prefix's latest declaration.
    latest: BTreeMap<Vec<u8>, usize>,
}

impl Bindings {
    /// Nothing is declared. It takes no memory.
    pub(crate) fn new(alloc: Global) -> Bindings
        ensures { Binds result [] }
    {
        Bindings {
            alloc,
            open: OpenBindings::new(alloc),
            latest: BTreeMap::new(alloc),
        }
    }

    /// How many declarations are open.
    pub(crate) fn count(&self) -> usize
        ensures { (declared : List Given) → Binds self.now declared → result ≡ length declared }
    {
        self.open.len()
    }

    /// Whether a declaration of the prefix is open behind the outermost ones, which are this many.
    pub(crate) fn is_declared_behind(&self, outer: usize, prefix: &[u8]) -> bool
        ensures { (own before : List Given) → Binds self.now (own ++ before) → outer ≡ length before → result ≡ list_any (declares prefix.now) own }
    {
        match self.latest.get(prefix) {
            Some(place) => *place >= outer,
            None => false,
        }
    }

    /// Opens a declaration that binds the prefix to the namespace. Behind an error the declarations are
    /// of no more use.
    pub(crate) fn declare(&mut self, prefix: &[u8], namespace: &[u8]) -> Result<(), AllocError>
        ensures { (declared : List Given) (given : Given) → Binds self.old declared → declared_prefix given.name ≡ Some prefix.now → given.value ≡ namespace.now → OnOk result (Binds self.new (given ∷ declared)) }
    {
        let key = Vec::from_slice(self.alloc, prefix)?;
        let prefix = Text::from_vec(Vec::from_slice(self.alloc, prefix)?);
        let namespace = Namespace::from_slice(namespace, self.alloc)?;
        let former = self.latest.insert(key, self.open.len())?;
        self.open.push(Binding {
            prefix,
            namespace,
            former,
        })?;
        Ok(())
    }

    /// Closes this many declarations, the latest ones.
    pub(crate) fn forget(&mut self, count: usize)
        ensures { (declared : List Given) → Binds self.old declared → Binds self.new (drop count declared) }
    {
        for _closed in 0..count {
            self.forget_latest();
        }
    }

    /// Closes the latest declaration, so that its prefix is bound as before.
    fn forget_latest(&mut self)
        ensures { (declared : List Given) → Binds self.old declared → Binds self.new (drop 1 declared) }
    {
        let Some(last) = self.open.pop() else {
            return;
        };
        match last.former {
            Some(place) => set_place(&mut self.latest, last.prefix.bytes(), place),
            None => {
                let _ = self.latest.remove(last.prefix.bytes());
            }
        }
    }

    /// What gives the prefix its namespace, the empty one for the default; `None` where it is not
    /// bound (Namespaces §6.1, §6.2).
    pub(crate) fn origin_of(&self, prefix: &[u8]) -> Option<Origin>
        ensures { (tags : List Opening) → Binds self.now (all_declarations tags) → option_map (namespace_from self.now) result ≡ namespace_of tags prefix.now }
    {
        match self.latest.get(prefix) {
            Some(place) => Some(Origin::Declared(*place)),
            None => origin_ahead(prefix),
        }
    }

    /// The namespace of the declaration at the place.
    fn declared_at(&self, place: usize) -> Option<&Namespace>
        ensures { unwrap_or (option_copied result) [] ≡ declared_namespace self.now place }
    {
        self.open.namespace(place)
    }

    /// The bytes of a namespace.
    fn bytes_of(&self, origin: Origin) -> &[u8]
        ensures { result.now ≡ namespace_from self.now origin }
    {
        match origin {
            Origin::Nothing => b"",
            Origin::Xml => XML_NAMESPACE,
            Origin::Declared(place) => match self.declared_at(place) {
                Some(namespace) => namespace.bytes(),
                None => b"",
            },
        }
    }

    /// How two namespaces stand by their bytes. Those of one origin are the same, however long.
    pub(crate) fn namespace_cmp(&self, left: Origin, right: Origin) -> Ordering
        ensures { result ≡ slice_cmp nat_cmp (namespace_from self.now left) (namespace_from self.now right) }
    {
        if is_one(left, right) {
            return Ordering::Equal;
        }
        match self.ranked_cmp(left, right) {
            Some(found) => found,
            None => self.bytes_of(left).cmp(self.bytes_of(right)),
        }
    }

    /// How the namespaces of two declarations stand, where both are long.
    fn ranked_cmp(&self, left: Origin, right: Origin) -> Option<Ordering>
        ensures { IfSome result (λ o. o ≡ slice_cmp nat_cmp (namespace_from self.now left) (namespace_from self.now right)) }
    {
        let Origin::Declared(lower) = left else {
            return None;
        };
        let Origin::Declared(upper) = right else {
            return None;
        };
        self.open.ranked_cmp(lower, upper)
    }

    /// The namespace of an origin, shared with its declaration.
    pub(crate) fn share(&self, origin: Origin) -> Result<Namespace, AllocError>
        ensures { IfOk result (λ n. n ≡ namespace_from self.now origin) }
    {
        match origin {
            Origin::Nothing => Ok(Namespace::none()),
            Origin::Xml => Namespace::from_slice(XML_NAMESPACE, self.alloc),
            Origin::Declared(place) => match self.declared_at(place) {
                Some(namespace) => namespace.share(),
                None => Ok(Namespace::none()),
            },
        }
    }

    /// The namespace of a prefix, the empty one for the default; `None` where it is not bound
    /// (Namespaces §6.1, §6.2).
    pub(crate) fn namespace_of(&self, prefix: &[u8]) -> Result<Option<Namespace>, AllocError>
        ensures { (tags : List Opening) → Binds self.now (all_declarations tags) → IfOk result (λ (n : Option (List ℕ)). n ≡ namespace_of tags prefix.now) }
    {
        match self.origin_of(prefix) {
            Some(origin) => Ok(Some(self.share(origin)?)),
            None => Ok(None),
        }
    }
}

/// Changes the place of a prefix that has one.
fn set_place(places: &mut BTreeMap<Vec<u8>, usize>, prefix: &[u8], place: usize)
    ensures { IsSome (place_in places.old prefix.now) → (q : List ℕ) → place_in places.new q ≡ (if bytes_eq prefix.now q then Some place else place_in places.old q) }
{
    if let Some(kept) = places.get_mut(prefix) {
        *kept = place;
    }
}
