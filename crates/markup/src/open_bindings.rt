//! The open declarations as a stack. Long namespaces among them are kept in order, so that two of them are
//! compared by two numbers, however long they are and however often that is asked.
ghost use Rattle.std.specs.Prelude.{◌≡◌, ◌<◌, ◌≤◌, ◌++◌, ◌∷◌, ◌↔◌, List, [], Some, length, get_or, IfSome, IfNone, IsTrue, OnOk, OnErr};
ghost use Rattle.std.specs.List.{insert};
ghost use Rattle.std.specs.Option.{option_copied, option_to_list, unwrap_or};
ghost use Rattle.std.specs.Cmp.Lexicographic.{slice_cmp};
ghost use Rattle.std.specs.Ordering.{nat_cmp};
ghost use Rattle.markup.specs.inner.Ranks.{no_binding, kept_namespace, like_at, IsRanked, HasRank, IsRankedAt, IsAboveLower, IsBelowUpper, FitsOrder, IsWithout};

use crate::namespace::Namespace;
use lexical_core::Text;
use std::alloc::{AllocError, Global};
use std::cmp::Ordering;
use std::marker::Model;

/// How many bytes a namespace has at least that is kept in order. Shorter ones are compared by their bytes, which
/// costs less than to keep many of them in order.
const LONG: usize = 2048;

/// A declaration that is open.
#[derive(Drop)]
pub(crate) struct Binding {
    pub(crate) prefix: Text,
    pub(crate) namespace: Namespace,
    /// The place of the latest declaration of the prefix before this one.
    pub(crate) former: Option<usize>,
}

/// A declaration with the place of the first one of its namespace, where that is long.
#[derive(Drop)]
struct Kept {
    binding: Binding,
    like: Option<usize>,
}

/// The open declarations.
#[derive(Drop)]
pub(crate) struct OpenBindings {
    kept: Vec<Kept>,
    /// The places of long namespaces, of each the first, by their bytes.
    order: Vec<usize>,
    /// Under such a place, where it stands in the order; what else is in it says nothing.
    ranks: Vec<usize>,
}

impl Model for OpenBindings {
    ghost use Rattle.std.specs.Prelude.{List, map};
    ghost use Rattle.markup.specs.declared.open_bindings.Kept.{Kept};
    ghost use Rattle.markup.specs.declared.open_bindings.Binding.{Binding};
    ghost use Rattle.markup.specs.inner.Ranks.{IsRanked};

    ghost Value = { List Binding };

    ghost view = { λ o. map (λ (k : Kept). k.binding) o.kept.items };

    ghost invariant = { λ o. IsRanked o.kept.items o.order.items };
}

impl OpenBindings {
    /// None is open. It takes no memory.
    pub(crate) fn new(alloc: Global) -> OpenBindings
        ensures { result ≡ [] }
    {
        OpenBindings {
            kept: Vec::new(alloc),
            order: Vec::new(alloc),
            ranks: Vec::new(alloc),
        }
    }

    /// How many are open.
    pub(crate) fn len(&self) -> usize
        ensures { result ≡ length self.now }
    {
        self.kept.len()
    }

    /// The namespace of the declaration at the place.
    pub(crate) fn namespace(&self, place: usize) -> Option<&Namespace>
        ensures { unwrap_or (option_copied result) [] ≡ (get_or self.now place no_binding).namespace }
    {
        match self.kept.get(place) {
            Some(kept) => Some(&kept.binding.namespace),
            None => None,
        }
    }

    /// How two long namespaces stand by their bytes, without a look at them.
    pub(crate) fn ranked_cmp(&self, left: usize, right: usize) -> Option<Ordering>
        ensures { IfSome result (λ o. o ≡ slice_cmp nat_cmp (get_or self.now left no_binding).namespace (get_or self.now right no_binding).namespace) }
    {
        let lower = rank_of(&self.kept, &self.order, &self.ranks, left)?;
        let upper = rank_of(&self.kept, &self.order, &self.ranks, right)?;
        Some(lower.cmp(&upper))
    }

    /// Opens a declaration. Behind an error they are of no more use.
    pub(crate) fn push(&mut self, binding: Binding) -> Result<(), AllocError>
        ensures { OnOk result (self.new ≡ self.old ++ binding ∷ []) }
    {
        if !is_long(binding.namespace.bytes(), self.order.len()) {
            self.kept.push(Kept {
                binding,
                like: None,
            })?;
            return Ok(());
        }
        self.push_long(binding)
    }

    /// Opens a declaration of a long namespace.
    fn push_long(&mut self, binding: Binding) -> Result<(), AllocError>
        ensures { OnOk result (self.new ≡ self.old ++ binding ∷ []) }
    {
        let place = self.kept.len();
        let spot = spot_of(&self.kept, &self.order, binding.namespace.bytes());
        if let Some(like) = same_at(&self.kept, &self.order, spot, binding.namespace.bytes()) {
            self.kept.push(Kept {
                binding,
                like: Some(like),
            })?;
            return Ok(());
        }
        let fits = fits(&self.kept, &self.order, spot, binding.namespace.bytes());
        self.kept.push(Kept {
            binding,
            like: Some(place),
        })?;
        if fits {
            put_at(&mut self.order, &mut self.ranks, spot, place)?;
        }
        Ok(())
    }

    /// Closes the latest declaration.
    pub(crate) fn pop(&mut self) -> Option<Binding>
        ensures items { self.old ≡ self.new ++ option_to_list result }
        ensures none { IfNone result (self.old ≡ []) }
    {
        let Some(last) = self.kept.pop() else {
            return None;
        };
        let place = self.kept.len();
        let Kept { binding, like } = last;
        if is_at(like, place) {
            take_out(&mut self.order, self.ranks.as_mut_slice(), place);
        }
        Some(binding)
    }
}

/// Whether a namespace is kept in order, beside so many others. It has as many bytes as there are places to renumber, so
/// that these steps are no more than bytes that were read.
fn is_long(namespace: &[u8], others: usize) -> bool {
    namespace.len() >= LONG.max(others)
}

/// Whether the first place of a namespace is this one.
fn is_at(like: Option<usize>, place: usize) -> bool
    ensures { IsTrue result ↔ (like ≡ Some place) }
{
    like == Some(place)
}

/// Where the namespace of the place stands in the order, if it stands there.
fn rank_of(kept: &[Kept], order: &[usize], ranks: &[usize], place: usize) -> Option<usize>
    ensures { IfSome result (HasRank kept.now order.now place) }
{
    let Some(like) = like_of(kept, place) else {
        return None;
    };
    let Some(rank) = ranks.get(like) else {
        return None;
    };
    let rank = *rank;
    if stands_at(order, rank, like) {
        Some(rank)
    } else {
        None
    }
}

/// The first place of the namespace of the place, where it is long.
fn like_of(kept: &[Kept], place: usize) -> Option<usize>
    ensures { result ≡ like_at kept.now place }
{
    match kept.get(place) {
        Some(kept) => kept.like,
        None => None,
    }
}

/// Whether the place stands there in the order.
fn stands_at(order: &[usize], rank: usize, place: usize) -> bool
    ensures { IsTrue result → IsRankedAt order.now rank place }
{
    match order.get(rank) {
        Some(other) => *other == place,
        None => false,
    }
}

/// How the namespace of the place stands to this one.
fn cmp_at(kept: &[Kept], place: usize, namespace: &[u8]) -> Ordering
    ensures { result ≡ slice_cmp nat_cmp (kept_namespace kept.now place) namespace.now }
{
    match kept.get(place) {
        Some(kept) => kept.binding.namespace.bytes().cmp(namespace),
        None => b"".as_slice().cmp(namespace),
    }
}

/// Where a namespace stands in the order, or may be put into it. What it answers is looked at.
fn spot_of(kept: &[Kept], order: &[usize], namespace: &[u8]) -> usize {
    match order.binary_search_by(|place| cmp_at(kept, *place, namespace)) {
        Ok(spot) => spot,
        Err(spot) => spot,
    }
}

/// The place at the spot, where it has the namespace.
fn same_at(kept: &[Kept], order: &[usize], spot: usize, namespace: &[u8]) -> Option<usize>
    ensures { IfSome result (λ like. (like < length kept.now) × (kept_namespace kept.now like ≡ namespace.now)) }
{
    let Some(place) = order.get(spot) else {
        return None;
    };
    let Some(other) = kept.get(*place) else {
        return None;
    };
    if other.binding.namespace.bytes() == namespace {
        Some(*place)
    } else {
        None
    }
}

/// Whether what stands before the spot is below the namespace.
fn is_above(kept: &[Kept], order: &[usize], spot: usize, namespace: &[u8]) -> bool
    ensures { IsTrue result → IsAboveLower kept.now order.now spot namespace.now }
{
    if spot == 0 {
        return true;
    }
    match order.get(spot - 1) {
        Some(place) => cmp_at(kept, *place, namespace) == Ordering::Less,
        None => false,
    }
}

/// Whether what stands at the spot is above the namespace.
fn is_below(kept: &[Kept], order: &[usize], spot: usize, namespace: &[u8]) -> bool
    ensures { IsTrue result → IsBelowUpper kept.now order.now spot namespace.now }
{
    match order.get(spot) {
        Some(place) => cmp_at(kept, *place, namespace) == Ordering::Greater,
        None => true,
    }
}

/// Whether the namespace may be put into the order at the spot.
fn fits(kept: &[Kept], order: &[usize], spot: usize, namespace: &[u8]) -> bool
    ensures { IsTrue result → FitsOrder kept.now order.now spot namespace.now }
{
    is_above(kept, order, spot, namespace) && is_below(kept, order, spot, namespace)
}

/// Notes where places stand in the order, from this one on.
fn renumber(ranks: &mut [usize], order: &[usize], from: usize) {
    for rank in from..order.len() {
        if let Some(noted) = ranks.get_mut(order[rank]) {
            *noted = rank;
        }
    }
}

/// Puts a place into the order.
fn put_at(
    order: &mut Vec<usize>,
    ranks: &mut Vec<usize>,
    spot: usize,
    place: usize,
) -> Result<(), AllocError>
    requires { spot ≤ length order.old.items }
    ensures ok { OnOk result (order.new.items ≡ insert order.old.items spot place) }
    ensures err { OnErr result (order.new.items ≡ order.old.items) }
{
    if ranks.len() <= place {
        ranks.resize(place.saturating_add(1), 0)?;
    }
    if order.insert(spot, place).is_err() {
        return Err(AllocError);
    }
    renumber(ranks.as_mut_slice(), order.as_slice(), spot);
    Ok(())
}

/// Takes the place out of the order.
fn take_out(order: &mut Vec<usize>, ranks: &mut [usize], place: usize)
    ensures { (kept : List Kept) → IsRanked kept order.old.items → IsRanked kept order.new.items × IsWithout order.new.items place }
{
    let Some(noted) = ranks.get(place) else {
        order.clear();
        return;
    };
    let rank = *noted;
    if !stands_at(order.as_slice(), rank, place) {
        order.clear();
        return;
    }
    order.remove(rank);
    renumber(ranks, order.as_slice(), rank);
}
