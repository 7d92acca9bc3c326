//! Names of tags: which ones declare a namespace, and what a prefix stands for (Namespaces in XML 1.0).
ghost use Rattle.std.specs.Prelude.{◌≡◌, ℕ, List, [], Some, codes, not, if◌then◌else◌};
ghost use Rattle.std.specs.Str.{bytes_eq};
ghost use Rattle.std.specs.Option.{option_copied};
ghost use Rattle.lexical_core.specs.Names.{xml_namespace};
ghost use Rattle.markup.specs.Events.{declared_prefix};
ghost use Rattle.markup.specs.Faults.{is_bad_declaration};

use lexical_core::are_same;

/// The name and prefix of declarations (Namespaces §3).
const XMLNS: &[u8] = b"xmlns";

/// The prefix that is bound without a declaration (Namespaces §3).
pub(crate) const XML: &[u8] = b"xml";

/// The namespace that the prefix `xml` is bound to (Namespaces §3).
pub(crate) const XML_NAMESPACE: &[u8] = b"http://www.w3.org/XML/1998/namespace";

/// The namespace that the prefix `xmlns` stands for (Namespaces §3).
const XMLNS_NAMESPACE: &[u8] = b"http://www.w3.org/2000/xmlns/";

/// Whether there is no letter.
pub(crate) fn is_empty(text: &[u8]) -> bool
    ensures { result ≡ bytes_eq text.now [] }
{
    text.is_empty()
}

/// The prefix that an attribute of this name declares, the empty one for the default; `None` where
/// it is no declaration (Namespaces §3).
#[inline]
pub(crate) fn declared_prefix<'a>(prefix: &[u8], local: &'a [u8]) -> Option<&'a [u8]>
    ensures { option_copied result ≡ declared_prefix (record { prefix = prefix.now; local = local.now }) }
{
    if are_same(prefix, XMLNS) {
        Some(local)
    } else if is_empty(prefix) && are_same(local, XMLNS) {
        Some(b"")
    } else {
        None
    }
}

/// Whether of the prefix `xml` and its namespace one is bound without the other (Namespaces §3).
fn is_xml_apart(prefix: &[u8], namespace: &[u8]) -> bool
    ensures { result ≡ (if bytes_eq prefix.now (codes "xml") then not (bytes_eq namespace.now xml_namespace) else bytes_eq namespace.now xml_namespace) }
{
    if prefix == XML {
        namespace != XML_NAMESPACE
    } else {
        namespace == XML_NAMESPACE
    }
}

/// Whether a prefix may not be bound to the namespace: `xmlns`, `xml` to another one, any to a
/// reserved one, or one that is not the default to none (Namespaces §3, §5).
pub(crate) fn is_bad_declaration(prefix: &[u8], namespace: &[u8]) -> bool
    ensures { result ≡ is_bad_declaration (Some prefix.now) namespace.now }
{
    if prefix == XMLNS || is_xml_apart(prefix, namespace) || namespace == XMLNS_NAMESPACE {
        return true;
    }
    !is_empty(prefix) && is_empty(namespace)
}
