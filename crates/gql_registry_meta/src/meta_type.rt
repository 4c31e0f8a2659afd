//! Types: section 3.4 of the GraphQL specification, October 2021.

use crate::cache_control::CacheControl;
use crate::directive_invocation::MetaDirectiveInvocation;
use crate::enum_value::MetaEnumValue;
use crate::field::MetaField;
use crate::input_value::MetaInputValue;
use crate::scalar_validator::ScalarValidator;
use indexmap::{IndexMap, IndexSet};

/// A type of a schema. Maps and sets keep the order in which their entries came. `visible` is the rule that shows a
/// type, and None where it is always shown. `shareable`, `resolvable`, `keys`, `inaccessible`, `interface_object` and
/// `tags` are for federation.
#[derive(Drop)]
pub enum MetaType {
    /// Section 3.5.
    Scalar {
        name: String,
        description: Option<String>,
        is_valid: Option<ScalarValidator>,
        visible: Option<u32>,
        inaccessible: bool,
        tags: Vec<String>,
        specified_by_url: Option<String>,
        directive_invocations: Vec<MetaDirectiveInvocation>,
        requires_scopes: Vec<String>,
    },
    /// Section 3.6.
    Object {
        name: String,
        description: Option<String>,
        fields: IndexMap<String, MetaField>,
        cache_control: CacheControl,
        extends: bool,
        shareable: bool,
        resolvable: bool,
        keys: Option<Vec<String>>,
        visible: Option<u32>,
        inaccessible: bool,
        interface_object: bool,
        tags: Vec<String>,
        is_subscription: bool,
        directive_invocations: Vec<MetaDirectiveInvocation>,
        requires_scopes: Vec<String>,
    },
    /// Section 3.7.
    Interface {
        name: String,
        description: Option<String>,
        fields: IndexMap<String, MetaField>,
        possible_types: IndexSet<String>,
        extends: bool,
        keys: Option<Vec<String>>,
        visible: Option<u32>,
        inaccessible: bool,
        tags: Vec<String>,
        directive_invocations: Vec<MetaDirectiveInvocation>,
        requires_scopes: Vec<String>,
    },
    /// Section 3.8.
    Union {
        name: String,
        description: Option<String>,
        possible_types: IndexSet<String>,
        visible: Option<u32>,
        inaccessible: bool,
        tags: Vec<String>,
        directive_invocations: Vec<MetaDirectiveInvocation>,
    },
    /// Section 3.9.
    Enum {
        name: String,
        description: Option<String>,
        enum_values: IndexMap<String, MetaEnumValue>,
        visible: Option<u32>,
        inaccessible: bool,
        tags: Vec<String>,
        directive_invocations: Vec<MetaDirectiveInvocation>,
        requires_scopes: Vec<String>,
    },
    /// Section 3.10.
    InputObject {
        name: String,
        description: Option<String>,
        input_fields: IndexMap<String, MetaInputValue>,
        visible: Option<u32>,
        inaccessible: bool,
        tags: Vec<String>,
        oneof: bool,
        directive_invocations: Vec<MetaDirectiveInvocation>,
    },
}
