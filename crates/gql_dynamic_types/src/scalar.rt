//! Scalars: section 3.5 of the GraphQL specification, October 2021.

ghost use Rattle.std.specs.Prelude.{◌≡◌, ◌++◌, ◌∷◌, [], Some, None, true, IfOk, IfSome, IfNone, map};
ghost use Rattle.std.specs.Fn.{FnReturnsAt};
ghost use Rattle.gql_registry_meta.specs.Validators.{asked};
ghost use Rattle.gql_registry_meta.specs.Views.{text_of, meta_of, validator_of};
ghost use Rattle.gql_parts.specs.BuilderViews.{directive_use};
ghost use Rattle.gql_dynamic_types.specs.Types.{new_scalar, scalar_meta};
ghost use Rattle.gql_dynamic_types.specs.TypeViews.{scalar_parts, scalar_validator};

use gql_parts::Directive;
use gql_registry_meta::{
    ConstValue, MetaDirectiveInvocation, MetaType, OutOfMemory, ScalarValidator, copy_invocations,
    copy_optional, copy_texts, owned_texts,
};
use std::alloc::Global;
use std::fmt;

type Test = fn(&ConstValue) -> bool;

/// A scalar.
#[derive(Drop)]
pub struct Scalar {
    alloc: Global,
    name: String,
    description: Option<String>,
    is_valid: Option<ScalarValidator>,
    specified_by_url: Option<String>,
    inaccessible: bool,
    tags: Vec<String>,
    directives: Vec<MetaDirectiveInvocation>,
}

impl Scalar {
    /// The scalar of that name, of which no more is said.
    pub fn new(alloc: Global, name: &str) -> Result<Scalar, OutOfMemory>
        ensures recorded { IfOk result (λ scalar. scalar_parts scalar ≡ new_scalar name.now) }
        ensures validator { IfOk result (λ scalar. scalar_validator scalar ≡ None) }
    {
        Ok(Scalar {
            alloc,
            name: String::from_str(alloc, name)?,
            description: None,
            is_valid: None,
            specified_by_url: None,
            inaccessible: false,
            tags: Vec::new(alloc),
            directives: Vec::new(alloc),
        })
    }

    /// Says which values it takes. The last call counts.
    pub fn validator(mut self, v: ScalarValidator) -> Scalar
        ensures recorded { scalar_parts result
            ≡ record (scalar_parts self) { is_validated = true } }
        ensures validator { scalar_validator result ≡ Some v }
    {
        self.is_valid = Some(v);
        self
    }

    /// Whether it takes a value: what its validator says, and `true` where it has none.
    pub fn validate(&self, value: &ConstValue) -> bool
        ensures asked { IfSome (scalar_validator self.now) (λ v.
            FnReturnsAt Test.Fn (asked v) value.now result) }
        ensures taken { IfNone (scalar_validator self.now) (result ≡ true) }
    {
        match &self.is_valid {
            None => true,
            Some(v) => v.check(value),
        }
    }

    /// Tells the URL of its specification, section 3.5.5. The last call counts.
    pub fn specified_by_url(mut self, url: &str) -> Result<Scalar, OutOfMemory>
        ensures recorded { IfOk result (λ scalar. scalar_parts scalar
            ≡ record (scalar_parts self) { specified_by_url = Some url.now }) }
        ensures kept { IfOk result (λ scalar. scalar_validator scalar ≡ scalar_validator self) }
    {
        self.specified_by_url = Some(String::from_str(self.alloc, url)?);
        Ok(self)
    }

    /// Describes it. The last call counts.
    pub fn description(mut self, text: &str) -> Result<Scalar, OutOfMemory>
        ensures recorded { IfOk result (λ scalar. scalar_parts scalar
            ≡ record (scalar_parts self) { description = Some text.now }) }
        ensures kept { IfOk result (λ scalar. scalar_validator scalar ≡ scalar_validator self) }
    {
        self.description = Some(String::from_str(self.alloc, text)?);
        Ok(self)
    }

    /// Marks it as inaccessible, for federation.
    pub fn inaccessible(mut self) -> Scalar
        ensures recorded { scalar_parts result
            ≡ record (scalar_parts self) { inaccessible = true } }
        ensures kept { scalar_validator result ≡ scalar_validator self }
    {
        self.inaccessible = true;
        self
    }

    /// Tags it, for federation. The last call counts.
    pub fn tags(mut self, tags: &[String]) -> Result<Scalar, OutOfMemory>
        ensures recorded { IfOk result (λ scalar. scalar_parts scalar
            ≡ record (scalar_parts self) { tags = map text_of tags.now }) }
        ensures kept { IfOk result (λ scalar. scalar_validator scalar ≡ scalar_validator self) }
    {
        self.tags = owned_texts(self.alloc, tags)?;
        Ok(self)
    }

    /// Uses a directive on it, after those that are used on it.
    pub fn directive(mut self, directive: Directive) -> Result<Scalar, OutOfMemory>
        ensures recorded { IfOk result (λ scalar. scalar_parts scalar
            ≡ record (scalar_parts self) { directives = (scalar_parts self).directives ++ directive_use directive ∷ [] }) }
        ensures kept { IfOk result (λ scalar. scalar_validator scalar ≡ scalar_validator self) }
    {
        let invocation = MetaDirectiveInvocation::from(directive);
        self.directives.push(invocation)?;
        Ok(self)
    }

    /// The name of the scalar.
    pub fn type_name(&self) -> &str
        ensures { result.now ≡ (scalar_parts self.now).name }
    {
        self.name.as_str()
    }

    /// The type that is registered, with the same validator.
    pub fn meta(&self, alloc: Global) -> Result<MetaType, OutOfMemory>
        ensures registered { IfOk result (λ ty. meta_of ty ≡ scalar_meta (scalar_parts self.now)) }
        ensures validator { IfOk result (λ ty. validator_of ty ≡ scalar_validator self.now) }
    {
        Ok(MetaType::Scalar {
            name: String::from_str(alloc, self.name.as_str())?,
            description: copy_optional(&self.description)?,
            is_valid: self.is_valid,
            visible: None,
            inaccessible: self.inaccessible,
            tags: copy_texts(&self.tags)?,
            specified_by_url: copy_optional(&self.specified_by_url)?,
            directive_invocations: copy_invocations(&self.directives)?,
            requires_scopes: Vec::new(alloc),
        })
    }
}

impl fmt::Debug for Scalar {
    fn fmt<W: fmt::Write>(&self, f: &mut fmt::Formatter<W>) -> fmt::Result {
        f.debug_struct("Scalar")
            .field("name", &self.name)
            .field("description", &self.description)
            .field("specified_by_url", &self.specified_by_url)
            .field("inaccessible", &self.inaccessible)
            .field("tags", &self.tags)
            .field("directives", &self.directives)
            .finish()
    }
}
