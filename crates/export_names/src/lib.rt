// The lookup of member names, for C and Rust to call. The header is export_names.h.
#![tactic(auto)]

ghost use Rattle.std.specs.Prelude.{◌≡◌};
ghost use Rattle.sigmf_names.specs.declared.Object.TheVariants.{Global, Capture, Annotation};
ghost use Rattle.sigmf_names.specs.Lookup.{lookup_answer};

use sigmf_names::names::look_up;
use sigmf_names::{NameLookup, Object};

// The field of the global object with a name, and how many names were compared.
#[unsafe(no_mangle)]
pub extern "C" fn global_lookup(name: &[u8]) -> NameLookup
    ensures { result ≡ lookup_answer Global name.now }
{
    look_up(Object::Global, name)
}

// The same of a capture.
#[unsafe(no_mangle)]
pub extern "C" fn capture_lookup(name: &[u8]) -> NameLookup
    ensures { result ≡ lookup_answer Capture name.now }
{
    look_up(Object::Capture, name)
}

// The same of an annotation.
#[unsafe(no_mangle)]
pub extern "C" fn annotation_lookup(name: &[u8]) -> NameLookup
    ensures { result ≡ lookup_answer Annotation name.now }
{
    look_up(Object::Annotation, name)
}
