//! The names of a repository file (profile).
ghost use Rattle.std.specs.Prelude.{◌≡◌, ◌||◌, []};
ghost use Rattle.std.specs.Str.{bytes_eq};
ghost use Rattle.lexical_core.specs.Names.{same_name};
ghost use Rattle.repo_loader.specs.FileNames.{is_own as spec_is_own, root_name, ecore};

use lexical_core::are_same;

/// Whether the namespace is none or the root's.
fn is_file_namespace(ns: &[u8]) -> bool
    ensures { result ≡ (bytes_eq ns.now [] || bytes_eq ns.now ecore) }
{
    ns.is_empty() || are_same(ns, b"urn:iso:std:iso:20022:2013:ecore")
}

/// Whether the name is this one, in no namespace or the root's.
pub fn is_own(ns: &[u8], local: &[u8], name: &[u8]) -> bool
    ensures { result ≡ spec_is_own name.now (record { namespace = ns.now; local = local.now }) }
{
    are_same(local, name) && is_file_namespace(ns)
}

/// Whether the name is the root's.
pub fn is_root(ns: &[u8], local: &[u8]) -> bool
    ensures { result ≡ same_name (record { namespace = ns.now; local = local.now }) root_name }
{
    ns == b"urn:iso:std:iso:20022:2013:ecore".as_slice() && local == b"Repository".as_slice()
}
