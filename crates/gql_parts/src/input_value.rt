//! Arguments and input fields: sections 3.6.1 and 3.10 of the GraphQL specification, October 2021.

ghost use Rattle.std.specs.Prelude.{◌≡◌, ◌++◌, ◌∷◌, [], Some, true, IfOk, OnOk, IsOkAnd, map};
ghost use Rattle.std.specs.Option.{option_map, option_copied};
ghost use Rattle.gql_text_values.specs.ConstValues.{value_text};
ghost use Rattle.gql_registry_meta.specs.Parts.{deprecated_for, with_entry_in_place};
ghost use Rattle.gql_registry_meta.specs.Views.{text_of, input_value_of, inputs_in};
ghost use Rattle.gql_parts.specs.Builders.{new_input_value, input_value_meta, arguments_meta};
ghost use Rattle.gql_parts.specs.Builders.{with_argument};
ghost use Rattle.gql_parts.specs.BuilderViews.{input_value_parts, inputs_built, directive_use};

use crate::deprecation::deprecated;
use crate::directive::Directive;
use gql_registry_meta::{
    ConstValue, Deprecation, MetaDirectiveInvocation, MetaInputValue, OutOfMemory,
    copy_invocations, copy_optional, copy_texts, owned_texts,
};
use gql_text_values::TypeRef;
use indexmap::IndexMap;
use std::alloc::Global;

/// An argument of a field, or a field of an input object.
#[derive(Debug, Drop)]
pub struct InputValue {
    alloc: Global,
    name: String,
    ty: TypeRef,
    default_value: Option<ConstValue>,
    description: Option<String>,
    deprecation: Deprecation,
    inaccessible: bool,
    tags: Vec<String>,
    directives: Vec<MetaDirectiveInvocation>,
}

impl InputValue {
    /// The input value of that name and type, of which no more is said.
    pub fn new(alloc: Global, name: &str, ty: TypeRef) -> Result<InputValue, OutOfMemory>
        ensures { IfOk result (λ input. input_value_parts input ≡ new_input_value name.now ty) }
    {
        Ok(InputValue {
            alloc,
            name: String::from_str(alloc, name)?,
            ty,
            default_value: None,
            description: None,
            deprecation: Deprecation::NoDeprecated,
            inaccessible: false,
            tags: Vec::new(alloc),
            directives: Vec::new(alloc),
        })
    }

    /// Gives it a default. The last call counts. It takes no memory.
    pub fn default_value(mut self, value: ConstValue) -> Result<InputValue, OutOfMemory>
        ensures { IsOkAnd result (λ input. input_value_parts input
            ≡ record (input_value_parts self) { default_value = Some value }) }
    {
        self.default_value = Some(value);
        Ok(self)
    }

    /// Describes it. The last call counts.
    pub fn description(mut self, text: &str) -> Result<InputValue, OutOfMemory>
        ensures { IfOk result (λ input. input_value_parts input
            ≡ record (input_value_parts self) { description = Some text.now }) }
    {
        self.description = Some(String::from_str(self.alloc, text)?);
        Ok(self)
    }

    /// Deprecates it, with a reason or without one. The last call counts.
    pub fn deprecation(mut self, reason: Option<&str>) -> Result<InputValue, OutOfMemory>
        ensures { IfOk result (λ input. input_value_parts input
            ≡ record (input_value_parts self) { deprecation = deprecated_for (option_copied reason.entry) }) }
    {
        self.deprecation = deprecated(self.alloc, reason)?;
        Ok(self)
    }

    /// Marks it as inaccessible, for federation.
    pub fn inaccessible(mut self) -> InputValue
        ensures { input_value_parts result
            ≡ record (input_value_parts self) { inaccessible = true } }
    {
        self.inaccessible = true;
        self
    }

    /// Tags it, for federation. The last call counts.
    pub fn tags(mut self, tags: &[String]) -> Result<InputValue, OutOfMemory>
        ensures { IfOk result (λ input. input_value_parts input
            ≡ record (input_value_parts self) { tags = map text_of tags.now }) }
    {
        self.tags = owned_texts(self.alloc, tags)?;
        Ok(self)
    }

    /// Uses a directive on it, after those that are used on it.
    pub fn directive(mut self, directive: Directive) -> Result<InputValue, OutOfMemory>
        ensures { IfOk result (λ input. input_value_parts input ≡ record (input_value_parts self) {
          directives = (input_value_parts self).directives ++ directive_use directive ∷ [];
        }) }
    {
        let invocation = MetaDirectiveInvocation::from(directive);
        self.directives.push(invocation)?;
        Ok(self)
    }

    /// The name of the argument or of the input field.
    pub fn name(&self) -> &str
        ensures { result.now ≡ (input_value_parts self.now).name }
    {
        self.name.as_str()
    }

    /// The type of its values.
    pub fn ty(&self) -> &TypeRef
        ensures { result.now ≡ (input_value_parts self.now).ty }
    {
        &self.ty
    }

    /// Its default, where it has one.
    pub fn default(&self) -> Option<&ConstValue>
        ensures { option_copied result ≡ (input_value_parts self.now).default_value }
    {
        self.default_value.as_ref()
    }

    /// The input value that is registered. Its type is the text of `ty`, and its default that of `ConstValue::text`.
    pub fn meta(&self, alloc: Global) -> Result<MetaInputValue, OutOfMemory>
        ensures { IfOk result (λ input.
            input_value_of input ≡ input_value_meta (input_value_parts self.now)) }
    {
        Ok(MetaInputValue {
            name: String::from_str(alloc, self.name.as_str())?,
            description: copy_optional(&self.description)?,
            ty: format!(in alloc; "{}", self.ty)?,
            deprecation: self.deprecation.try_clone(alloc)?,
            default_value: default_text(alloc, &self.default_value)?,
            visible: None,
            inaccessible: self.inaccessible,
            tags: copy_texts(&self.tags)?,
            is_secret: false,
            directive_invocations: copy_invocations(&self.directives)?,
        })
    }
}

/// The text of a default, where there is one.
fn default_text(alloc: Global, value: &Option<ConstValue>) -> Result<Option<String>, OutOfMemory>
    ensures { IfOk result (λ text. option_map text_of text ≡ option_map value_text value.now) }
{
    match value {
        None => Ok(None),
        Some(value) => Ok(Some(value.text(alloc)?)),
    }
}

/// Registers an argument under a name.
#[tactic(auto, using(gql_registry_meta::proofs::Entries::entries_with_insertion))]
fn put_argument_meta(
    alloc: Global,
    args: &mut IndexMap<String, MetaInputValue>,
    name: &str,
    argument: &InputValue,
) -> Result<(), OutOfMemory>
    ensures { OnOk result (inputs_in args.new ≡ with_entry_in_place
        (inputs_in args.old) name.now (input_value_meta (input_value_parts argument.now))) }
{
    let key = String::from_str(alloc, name)?;
    args.insert(key, argument.meta(alloc)?)?;
    Ok(())
}

/// The arguments or input fields that are registered, each under its name and in their order.
pub fn arguments_meta(
    alloc: Global,
    arguments: &IndexMap<String, InputValue>,
) -> Result<IndexMap<String, MetaInputValue>, OutOfMemory>
    ensures { IfOk result (λ args.
        inputs_in args ≡ arguments_meta (inputs_built arguments.now)) }
{
    let mut args = IndexMap::new(alloc);
    for (name, argument) in arguments {
        put_argument_meta(alloc, &mut args, name.as_str(), argument)?;
    }
    // it is whole, and small maps have room for several entries more
    args.shrink_to_fit();
    Ok(args)
}

/// The arguments with one more: one of its name is replaced at its place, and a new one goes last.
#[tactic(auto, using(gql_registry_meta::proofs::Entries::entries_with_insertion))]
pub(crate) fn set_argument(
    alloc: Global,
    arguments: &mut IndexMap<String, InputValue>,
    argument: InputValue,
) -> Result<(), OutOfMemory>
    ensures { OnOk result (inputs_built arguments.new
        ≡ with_argument (inputs_built arguments.old) (input_value_parts argument)) }
{
    let key = String::from_str(alloc, argument.name())?;
    arguments.insert(key, argument)?;
    Ok(())
}
