//! The possible types of interfaces and unions: section 4.2.2 of the GraphQL specification, October 2021.

ghost use Rattle.std.specs.Prelude.{◌≡◌, OnOk, OnErr};
ghost use Rattle.gql_registry_meta.specs.Parts.{name_of};
ghost use Rattle.gql_registry_meta.specs.Views.{text_of, meta_of};
ghost use Rattle.gql_registry.specs.Registry.{registry_of, types_of, IsUnchanged, with_possible, with_possible_type};

use crate::lists::add_name;
use crate::registry::Registry;
use gql_registry_meta::MetaType;
use gql_text_lexer::OutOfMemory;

/// Adds a possible type to an interface or a union, and leaves any other type as it is.
fn add_possible(ty: &mut MetaType, object: String) -> Result<(), OutOfMemory>
    ensures possible { OnOk result (meta_of ty.new
        ≡ with_possible (text_of object) (meta_of ty.old)) }
    ensures name { name_of (meta_of ty.new) ≡ name_of (meta_of ty.old) }
    ensures err { OnErr result (meta_of ty.new ≡ meta_of ty.old) }
{
    match ty {
        MetaType::Interface { possible_types, .. } => add_name(possible_types, object),
        MetaType::Union { possible_types, .. } => add_name(possible_types, object),
        MetaType::Scalar { .. } => Ok(()),
        MetaType::Object { .. } => Ok(()),
        MetaType::Enum { .. } => Ok(()),
        MetaType::InputObject { .. } => Ok(()),
    }
}

impl Registry {
    /// Notes that an object is a possible type of the interface or union of that name: a new one goes last among its
    /// possible types, and one that is among them keeps its place. Where the name is that of no interface and no union,
    /// nothing changes.
    pub fn add_possible_type(&mut self, interface: &str, object: &str) -> Result<(), OutOfMemory>
        ensures contents { OnOk result (registry_of self.new ≡ record (registry_of self.old) {
          types = with_possible_type interface.now (types_of self.old) object.now;
        }) }
        ensures err { OnErr result (IsUnchanged self.old self.new) }
    {
        let object = String::from_str(self.allocator(), object)?;
        match self.types.get_mut(interface) {
            Some(ty) => add_possible(ty, object),
            None => Ok(()),
        }
    }
}
