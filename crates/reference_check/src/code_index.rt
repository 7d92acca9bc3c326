//! The codes of a set by their names.
ghost use Rattle.std.specs.Prelude.{◌≡◌, IfOk};
ghost use Rattle.std.specs.Option.{option_copied};
ghost use Rattle.reference_check.specs.CodeTexts.{find_code};

use repo_objects::CodeDef;
use std::alloc::{AllocError, Global};
use std::collections::HashMap;
use std::marker::Model;

/// The codes of a set, with a look-up of the first of each name.
#[derive(Drop)]
pub(crate) struct NamedCodes<'a> {
    definitions: &'a [CodeDef],
    firsts: HashMap<&'a [u8], &'a CodeDef>,
}

impl<'a> Model for NamedCodes<'a> {
    ghost use Rattle.std.specs.Prelude.{List};
    ghost use Rattle.repo_objects.specs.declared.objects.CodeDef.{CodeDef};
    ghost use Rattle.reference_check.specs.NamedCodes.{FindsCodes};

    ghost Value = { List CodeDef };

    ghost view = { λ named. named.definitions.now };

    ghost invariant = { λ named. FindsCodes named.firsts named.definitions.now };
}

impl<'a> NamedCodes<'a> {
    /// Puts the codes under their names.
    pub(crate) fn new(
        alloc: Global,
        definitions: &'a [CodeDef],
    ) -> Result<NamedCodes<'a>, AllocError>
        ensures { IfOk result (λ named. named ≡ definitions.now) }
    {
        let mut firsts: HashMap<&[u8], &CodeDef> = HashMap::new(alloc);
        let mut left = definitions;
        // From the last to the first, so that the first of a name stays.
        while let Some((last, others)) = left.split_last() {
            firsts.insert(last.name.bytes(), last)?;
            left = others;
        }
        Ok(NamedCodes {
            definitions,
            firsts,
        })
    }

    /// The first code of that name.
    pub(crate) fn find(&self, name: &[u8]) -> Option<&'a CodeDef>
        ensures { option_copied result ≡ find_code name.now self.now }
    {
        let definition = self.firsts.get(name)?;
        Some(*definition)
    }
}
