//! Types of which no more is said than a name and a kind.

ghost use Rattle.std.specs.Prelude.{◌≡◌, IfOk};
ghost use Rattle.gql_registry_meta.specs.Views.{meta_of};
ghost use Rattle.gql_registry.specs.Placeholders.{plain_interface, plain_union, plain_input_object, placeholder};

use crate::plain::{enumeration, object, scalar};
use gql_registry_meta::{MetaType, MetaTypeId};
use gql_text_lexer::OutOfMemory;
use indexmap::{IndexMap, IndexSet};
use std::alloc::Global;

fn interface(alloc: Global, name: &str) -> Result<MetaType, OutOfMemory>
    ensures { IfOk result (λ made. meta_of made ≡ plain_interface name.now) }
{
    Ok(MetaType::Interface {
        name: String::from_str(alloc, name)?,
        description: None,
        fields: IndexMap::new(alloc),
        possible_types: IndexSet::new(alloc),
        extends: false,
        keys: None,
        visible: None,
        inaccessible: false,
        tags: Vec::new(alloc),
        directive_invocations: Vec::new(alloc),
        requires_scopes: Vec::new(alloc),
    })
}

fn union_(alloc: Global, name: &str) -> Result<MetaType, OutOfMemory>
    ensures { IfOk result (λ made. meta_of made ≡ plain_union name.now) }
{
    Ok(MetaType::Union {
        name: String::from_str(alloc, name)?,
        description: None,
        possible_types: IndexSet::new(alloc),
        visible: None,
        inaccessible: false,
        tags: Vec::new(alloc),
        directive_invocations: Vec::new(alloc),
    })
}

fn input_object(alloc: Global, name: &str) -> Result<MetaType, OutOfMemory>
    ensures { IfOk result (λ made. meta_of made ≡ plain_input_object name.now) }
{
    Ok(MetaType::InputObject {
        name: String::from_str(alloc, name)?,
        description: None,
        input_fields: IndexMap::new(alloc),
        visible: None,
        inaccessible: false,
        tags: Vec::new(alloc),
        oneof: false,
        directive_invocations: Vec::new(alloc),
    })
}

/// The empty type of a kind.
pub(crate) fn empty_type(
    alloc: Global,
    name: &str,
    kind: MetaTypeId,
) -> Result<MetaType, OutOfMemory>
    ensures { IfOk result (λ made. meta_of made ≡ placeholder name.now kind) }
{
    match kind {
        MetaTypeId::Scalar => scalar(alloc, name),
        MetaTypeId::Object => object(alloc, name, IndexMap::new(alloc)),
        MetaTypeId::Interface => interface(alloc, name),
        MetaTypeId::Union => union_(alloc, name),
        MetaTypeId::Enum => enumeration(alloc, name, &[]),
        MetaTypeId::InputObject => input_object(alloc, name),
    }
}
