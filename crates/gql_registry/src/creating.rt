//! Types that are made where they are missing.

ghost use Rattle.std.specs.Prelude.{◌≡◌, None, IfOk, OnOk, OnErr, IsSome};
ghost use Rattle.std.specs.Option.{option_map, option_copied};
ghost use Rattle.gql_registry_meta.specs.Parts.{Meta, at_text, name_of};
ghost use Rattle.gql_registry_meta.specs.Views.{meta_of};
ghost use Rattle.gql_registry_meta.specs.declared.type_id.MetaTypeId.TheVariants as kind;
ghost use Rattle.gql_registry.specs.Registry.{Contents, registry_of, types_of};
ghost use Rattle.gql_registry.specs.Placeholders.{placeholder};
ghost use Rattle.gql_registry.specs.Created.{Created, Begun, Ended, Kept, with_made, without};
ghost use Rattle.gql_registry.specs.Created.{name_mismatch, refusal_of, answer_of, begun_of, made_by, makes};

use crate::placeholders::empty_type;
use crate::registry::Registry;
use crate::registry_error::RegistryError;
use gql_registry_meta::{MetaType, MetaTypeId};
use gql_text_lexer::OutOfMemory;
use std::alloc::Global;

/// A registry in which types are made on demand: [`Registry`], whose calls `create_output_type`, `create_input_type` and
/// `create_subscription_type` these are. A maker is a closure that is called on the registry, may create other types in
/// it, and answers the type that was asked for.
///
/// Where a type of the name and kind stands, each of the three answers Ok, and nothing changes. Where one of another kind
/// stands, they answer `KindConflict`, and nothing changes. Else an empty type of the kind stands under the name while
/// the maker runs, so that a type may lead back to itself. A made type of the name then stands there, and all else is as
/// the maker left it. An error of the maker is passed on, and a made type of another name is `NameMismatch`. After these,
/// and after `OutOfMemory`, no type stands under the name if none did before.
pub trait CreatesTypes {
    type Type: Drop;

    ghost contents: { Self → Contents };

    ghost stands_for: { Self.Type → Meta };

    /// Whether a type has to be made: an empty one then stands under the name.
    fn begin_type(&mut self, name: &str, kind: MetaTypeId) -> Result<bool, RegistryError>
        ensures { Begun name.now kind (contents self.old) (begun_of result) (contents self.new) };

    /// Puts the type that was made in the place of the empty one, or takes that out.
    fn end_type(
        &mut self,
        name: &str,
        made: Result<Self::Type, RegistryError>,
    ) -> Result<(), RegistryError>
        ensures { Ended name.now (made_by stands_for made) (contents self.old) (answer_of result)
            (contents self.new) };

    /// Makes a type of that name and kind where none stands, as the next three calls do.
    final fn create_type<F>(
        &mut self,
        name: &str,
        kind: MetaTypeId,
        mut maker: F,
    ) -> Result<(), RegistryError>
    where
        F: FnMut(&mut Self) -> Result<Self::Type, RegistryError>,
        requires { at_text name.now (contents self.old).types ≡ None → (at : _)
            → contents at.now ≡ with_made (contents self.old) (placeholder name.now kind)
            → F.pre maker at }
        ensures { Created (makes contents stands_for F.FnMut maker) name.now kind
            (contents self.old) (answer_of result) (contents self.new) }
    {
        match self.begin_type(name, kind) {
            Ok(true) => {
                let made = maker(self);
                self.end_type(name, made)
            }
            Ok(false) => Ok(()),
            Err(e) => Err(e),
        }
    }

    /// Makes an output type of that name and kind where none stands: section 3.4.2 of the GraphQL specification, October
    /// 2021.
    final fn create_output_type<F>(
        &mut self,
        name: &str,
        kind: MetaTypeId,
        maker: F,
    ) -> Result<(), RegistryError>
    where
        F: FnMut(&mut Self) -> Result<Self::Type, RegistryError>,
        requires { at_text name.now (contents self.old).types ≡ None → (at : _)
            → contents at.now ≡ with_made (contents self.old) (placeholder name.now kind)
            → F.pre maker at }
        ensures created { Created (makes contents stands_for F.FnMut maker) name.now kind
            (contents self.old) (answer_of result) (contents self.new) }
        ensures stands { OnOk result (IsSome (at_text name.now (contents self.new).types)) }
        ensures gone { OnErr result (at_text name.now (contents self.old).types ≡ None
            → at_text name.now (contents self.new).types ≡ None) }
    {
        self.create_type(name, kind, maker)
    }

    /// Makes an input type of that name and kind where none stands: section 3.4.2 of the GraphQL specification, October
    /// 2021.
    final fn create_input_type<F>(
        &mut self,
        name: &str,
        kind: MetaTypeId,
        maker: F,
    ) -> Result<(), RegistryError>
    where
        F: FnMut(&mut Self) -> Result<Self::Type, RegistryError>,
        requires { at_text name.now (contents self.old).types ≡ None → (at : _)
            → contents at.now ≡ with_made (contents self.old) (placeholder name.now kind)
            → F.pre maker at }
        ensures created { Created (makes contents stands_for F.FnMut maker) name.now kind
            (contents self.old) (answer_of result) (contents self.new) }
        ensures stands { OnOk result (IsSome (at_text name.now (contents self.new).types)) }
        ensures gone { OnErr result (at_text name.now (contents self.old).types ≡ None
            → at_text name.now (contents self.new).types ≡ None) }
    {
        self.create_type(name, kind, maker)
    }

    /// Makes an object of that name where none stands, whose fields are event streams: section 3.3.1 of the GraphQL
    /// specification, October 2021.
    final fn create_subscription_type<F>(
        &mut self,
        name: &str,
        maker: F,
    ) -> Result<(), RegistryError>
    where
        F: FnMut(&mut Self) -> Result<Self::Type, RegistryError>,
        requires { at_text name.now (contents self.old).types ≡ None → (at : _)
            → contents at.now ≡ with_made (contents self.old) (placeholder name.now kind.Object)
            → F.pre maker at }
        ensures created { Created (makes contents stands_for F.FnMut maker) name.now kind.Object
            (contents self.old) (answer_of result) (contents self.new) }
        ensures stands { OnOk result (IsSome (at_text name.now (contents self.new).types)) }
        ensures gone { OnErr result (at_text name.now (contents self.old).types ≡ None
            → at_text name.now (contents self.new).types ≡ None) }
    {
        self.create_type(name, MetaTypeId::Object, maker)
    }
}

impl Registry {
    /// The type under a name.
    pub(crate) fn type_at(&self, name: &str) -> Option<&MetaType>
        ensures { option_map meta_of (option_copied result) ≡ at_text name.now (types_of self.now) }
    {
        self.types.get(name)
    }

    /// Takes out what stands under a name.
    pub(crate) fn take_out(&mut self, name: &str)
        ensures { registry_of self.new ≡ without (registry_of self.old) name.now }
    {
        self.types.remove(name);
    }

    /// Puts a type where one of that name was asked for.
    fn keep_made(&mut self, name: &str, ty: MetaType) -> Result<(), RegistryError>
        ensures { Kept name.now (meta_of ty) (registry_of self.old) (answer_of result)
            (registry_of self.new) }
    {
        if ty.name() == name {
            return self.put_made(name, ty);
        }
        self.take_out(name);
        let refused = mismatch(self.allocator(), name, ty.name());
        discard(ty);
        Err(refused?)
    }

    /// Puts a type of that name; where the memory for it is refused, nothing stands there.
    fn put_made(&mut self, name: &str, ty: MetaType) -> Result<(), RegistryError>
        requires { name_of (meta_of ty) ≡ name.now }
        ensures { Kept name.now (meta_of ty) (registry_of self.old) (answer_of result)
            (registry_of self.new) }
    {
        match self.put_type(ty) {
            Ok(()) => Ok(()),
            Err(e) => {
                self.take_out(name);
                Err(RegistryError::from(e))
            }
        }
    }
}

fn discard(_ty: MetaType) {}

/// The refusal of a type that has another name than the one that was asked for.
fn mismatch(alloc: Global, name: &str, made: &str) -> Result<RegistryError, OutOfMemory>
    ensures { IfOk result (λ e. refusal_of e ≡ name_mismatch name.now made.now) }
{
    let made = String::from_str(alloc, made)?;
    let name = String::from_str(alloc, name)?;
    Ok(RegistryError::NameMismatch { name, made })
}

impl CreatesTypes for Registry {
    type Type = MetaType;

    ghost contents = { registry_of };

    ghost stands_for = { meta_of };

    fn begin_type(&mut self, name: &str, kind: MetaTypeId) -> Result<bool, RegistryError>
        ensures { Begun name.now kind (registry_of self.old) (begun_of result)
            (registry_of self.new) }
    {
        if let Some(there) = self.type_at(name) {
            let kept = there.type_id();
            if kept == kind {
                return Ok(false);
            }
            let name = String::from_str(self.allocator(), name)?;
            return Err(RegistryError::KindConflict {
                name,
                kept,
                asked: kind,
            });
        }
        let empty = empty_type(self.allocator(), name, kind)?;
        self.put_type(empty)?;
        Ok(true)
    }

    fn end_type(
        &mut self,
        name: &str,
        made: Result<MetaType, RegistryError>,
    ) -> Result<(), RegistryError>
        ensures { Ended name.now (made_by meta_of made) (registry_of self.old) (answer_of result)
            (registry_of self.new) }
    {
        match made {
            Ok(ty) => self.keep_made(name, ty),
            Err(e) => {
                self.take_out(name);
                Err(e)
            }
        }
    }
}
