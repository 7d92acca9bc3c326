//! The text of a code, which may stand in a set that its own set is traced to.
ghost use Rattle.std.specs.Prelude.{◌≡◌, IfOk, IfSome};
ghost use Rattle.std.specs.Option.{option_copied, option_map};
ghost use Rattle.std.specs.Str.{bytes_eq};
ghost use Rattle.reference_check.specs.Graph.{find_entry};
ghost use Rattle.reference_check.specs.CodeTexts.{find_code, text_at, text_of_code};
ghost use Rattle.reference_check.specs.inner.Ranks.{StandsAt};
ghost use Rattle.reference_check.specs.inner.Traces.{code_traced};

use crate::code_index::NamedCodes;
use crate::tail_rules::object_in;
use repo_objects::{CodeDef, Object, Repository};
use std::alloc::{AllocError, Global};
use std::collections::HashMap;
use std::marker::Model;

/// How many traces are followed at most.
const MOST_TRACES: u8 = 16;

/// The text of the code of that number, counted from 0, of the object at that place in file order.
/// A code without a text of its own has that of the first code of its name in the set that its set
/// is traced to, and so on through at most 16 traces. `None` where there is no such code, or where
/// it has no text. It takes no memory.
pub fn code_text(repository: &Repository, at: usize, code: usize) -> Option<&[u8]>
    ensures { option_map (λ t. t.now) result ≡ text_at repository.now.objects at code }
{
    let (_, object) = repository.object_at(at)?;
    let definition = object.codes.get(code)?;
    text_of(repository, object, definition)
}

/// The text of a code of the object.
fn text_of<'a>(
    repository: &'a Repository,
    object: &'a Object,
    definition: &'a CodeDef,
) -> Option<&'a [u8]>
    ensures { option_map (λ t. t.now) result ≡ text_of_code repository.now.objects object.now definition.now }
{
    let mut set = object;
    let mut code = definition;
    for _trace in 0..MOST_TRACES {
        if let Some(text) = own_text(code) {
            return Some(text);
        }
        let (traced_set, namesake) = traced(repository, set, code)?;
        set = traced_set;
        code = namesake;
    }
    own_text(code)
}

/// The texts of the codes of a repository, for many questions: the codes of a set that a trace comes
/// to are put under their names once. Contracts see the repository.
#[derive(Drop)]
pub struct CodeTexts<'a> {
    alloc: Global,
    repository: &'a Repository,
    /// The codes of the sets that traces came to, by the places of the sets.
    sets: HashMap<usize, NamedCodes<'a>>,
}

impl<'a> Model for CodeTexts<'a> {
    ghost use Rattle.repo_objects.specs.Repository.{Contents};
    ghost use Rattle.reference_check.specs.NamedCodes.{HoldsSets};

    ghost Value = { Contents };

    ghost view = { λ texts. texts.repository.now };

    ghost invariant = { λ texts. HoldsSets texts.repository.now texts.sets };
}

impl<'a> CodeTexts<'a> {
    /// The texts of the codes of that repository. It takes no memory.
    pub fn new(alloc: Global, repository: &'a Repository) -> CodeTexts<'a>
        ensures { result ≡ repository.now }
    {
        CodeTexts {
            alloc,
            repository,
            sets: HashMap::new(alloc),
        }
    }

    /// The text of the code of that number of the object at that place, as `code_text` gives it.
    pub fn text(&mut self, at: usize, code: usize) -> Result<Option<&'a [u8]>, AllocError>
        ensures stays { self.new ≡ self.old }
        ensures text { IfOk result (λ found. option_map (λ t. t.now) found ≡ text_at self.old.objects at code) }
    {
        let Some((_, object)) = self.repository.object_at(at) else {
            return Ok(None);
        };
        let Some(definition) = object.codes.get(code) else {
            return Ok(None);
        };
        self.text_of(object, definition)
    }

    /// The text of a code of the object.
    pub(crate) fn text_of(
        &mut self,
        object: &'a Object,
        definition: &'a CodeDef,
    ) -> Result<Option<&'a [u8]>, AllocError>
        ensures stays { self.new ≡ self.old }
        ensures text { IfOk result (λ found. option_map (λ t. t.now) found ≡ text_of_code self.old.objects object.now definition.now) }
    {
        let mut set = object;
        let mut code = definition;
        for _trace in 0..MOST_TRACES {
            if let Some(text) = own_text(code) {
                return Ok(Some(text));
            }
            let Some((traced_set, namesake)) = self.traced(set, code)? else {
                return Ok(None);
            };
            set = traced_set;
            code = namesake;
        }
        Ok(own_text(code))
    }

    /// The code that has this one's name in the set that the object is traced to, with that set.
    fn traced(
        &mut self,
        object: &Object,
        definition: &CodeDef,
    ) -> Result<Option<(&'a Object, &'a CodeDef)>, AllocError>
        ensures stays { self.new ≡ self.old }
        ensures traced { IfOk result (λ found. option_map (λ p. (p.0.now, p.1.now)) found ≡ code_traced self.old.objects definition.now.name object.now.trace) }
    {
        let Some(id) = &object.trace else {
            return Ok(None);
        };
        let Some((place, set)) = set_named(self.repository, id.bytes()) else {
            return Ok(None);
        };
        let Some(namesake) = self.named(place, set, definition.name.bytes())? else {
            return Ok(None);
        };
        Ok(Some((set, namesake)))
    }

    /// The first code of that name in the set at that place.
    fn named(
        &mut self,
        place: usize,
        set: &'a Object,
        name: &[u8],
    ) -> Result<Option<&'a CodeDef>, AllocError>
        requires { StandsAt self.old place set.now }
        ensures stays { self.new ≡ self.old }
        ensures named { IfOk result (λ found. option_copied found ≡ find_code name.now set.now.codes) }
    {
        if let Some(codes) = self.sets.get(&place) {
            return Ok(codes.find(name));
        }
        let codes = NamedCodes::new(self.alloc, set.codes.as_slice())?;
        let found = codes.find(name);
        self.sets.insert(place, codes)?;
        Ok(found)
    }
}

/// The text that the code itself has.
fn own_text(definition: &CodeDef) -> Option<&[u8]>
    ensures { option_map (λ t. t.now) result ≡ definition.now.code }
{
    match &definition.code {
        Some(text) => Some(text.bytes()),
        None => None,
    }
}

/// The code that has this one's name in the set that the object is traced to, with that set.
fn traced<'a>(
    repository: &'a Repository,
    object: &Object,
    definition: &CodeDef,
) -> Option<(&'a Object, &'a CodeDef)>
    ensures { option_map (λ p. (p.0.now, p.1.now)) result ≡ code_traced repository.now.objects definition.now.name object.now.trace }
{
    let id = object.trace.as_ref()?;
    let (_, set) = set_named(repository, id.bytes())?;
    let namesake = code_named(set, definition.name.bytes())?;
    Some((set, namesake))
}

/// The object with that id, behind its place.
fn set_named<'a>(repository: &'a Repository, id: &[u8]) -> Option<(usize, &'a Object)>
    ensures found { option_map (λ p. p.1.now) result ≡ find_entry id.now repository.now.objects }
    ensures there { IfSome result (λ p. StandsAt repository.now p.0 p.1.now) }
{
    let place = repository.place(id)?;
    Some((place, object_in(repository, place)))
}

/// The first code of that name.
fn code_named<'a>(set: &'a Object, name: &[u8]) -> Option<&'a CodeDef>
    ensures { option_copied result ≡ find_code name.now set.now.codes }
{
    for code in set.codes.as_slice() {
        if is_named(code, name) {
            return Some(code);
        }
    }
    None
}

/// Whether the code has that name.
fn is_named(code: &CodeDef, name: &[u8]) -> bool
    ensures { result ≡ bytes_eq code.now.name name.now }
{
    code.name.bytes() == name
}
