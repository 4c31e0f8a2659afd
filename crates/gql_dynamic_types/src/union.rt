//! Unions: section 3.8 of the GraphQL specification, October 2021.

ghost use Rattle.std.specs.Prelude.{◌≡◌, ◌++◌, ◌∷◌, [], Some, true, IfOk, map};
ghost use Rattle.gql_registry_meta.specs.Views.{text_of, meta_of, names_of};
ghost use Rattle.gql_parts.specs.BuilderViews.{directive_use};
ghost use Rattle.gql_registry_meta.specs.Parts.{with_name};
ghost use Rattle.gql_dynamic_types.specs.Types.{new_union, union_meta};
ghost use Rattle.gql_dynamic_types.specs.TypeViews.{union_parts};

use gql_parts::Directive;
use gql_registry_meta::{
    MetaDirectiveInvocation, MetaType, OutOfMemory, copy_invocations, copy_names, copy_optional,
    copy_texts, owned_texts,
};
use indexmap::IndexSet;
use std::alloc::Global;

/// A union.
#[derive(Debug, Drop)]
pub struct Union {
    alloc: Global,
    name: String,
    description: Option<String>,
    possible_types: IndexSet<String>,
    inaccessible: bool,
    tags: Vec<String>,
    directives: Vec<MetaDirectiveInvocation>,
}

impl Union {
    /// The union of that name, of which no more is said.
    pub fn new(alloc: Global, name: &str) -> Result<Union, OutOfMemory>
        ensures { IfOk result (λ union. union_parts union ≡ new_union name.now) }
    {
        Ok(Union {
            alloc,
            name: String::from_str(alloc, name)?,
            description: None,
            possible_types: IndexSet::new(alloc),
            inaccessible: false,
            tags: Vec::new(alloc),
            directives: Vec::new(alloc),
        })
    }

    /// Gives it a member: one that it has keeps its place, and a new one goes last.
    #[tactic(auto, using(gql_registry_meta::proofs::Names::names_with))]
    pub fn possible_type(mut self, ty: &str) -> Result<Union, OutOfMemory>
        ensures { IfOk result (λ union. union_parts union
            ≡ record (union_parts self) { possible_types = with_name (union_parts self).possible_types ty.now }) }
    {
        self.possible_types
            .insert(String::from_str(self.alloc, ty)?)?;
        Ok(self)
    }

    /// Describes it. The last call counts.
    pub fn description(mut self, text: &str) -> Result<Union, OutOfMemory>
        ensures { IfOk result (λ union. union_parts union
            ≡ record (union_parts self) { description = Some text.now }) }
    {
        self.description = Some(String::from_str(self.alloc, text)?);
        Ok(self)
    }

    /// Marks it as inaccessible, for federation.
    pub fn inaccessible(mut self) -> Union
        ensures { union_parts result ≡ record (union_parts self) { inaccessible = true } }
    {
        self.inaccessible = true;
        self
    }

    /// Tags it, for federation. The last call counts.
    pub fn tags(mut self, tags: &[String]) -> Result<Union, OutOfMemory>
        ensures { IfOk result (λ union. union_parts union
            ≡ record (union_parts self) { tags = map text_of tags.now }) }
    {
        self.tags = owned_texts(self.alloc, tags)?;
        Ok(self)
    }

    /// Uses a directive on it, after those that are used on it.
    pub fn directive(mut self, directive: Directive) -> Result<Union, OutOfMemory>
        ensures { IfOk result (λ union. union_parts union
            ≡ record (union_parts self) { directives = (union_parts self).directives ++ directive_use directive ∷ [] }) }
    {
        let invocation = MetaDirectiveInvocation::from(directive);
        self.directives.push(invocation)?;
        Ok(self)
    }

    /// The name of the union.
    pub fn type_name(&self) -> &str
        ensures { result.now ≡ (union_parts self.now).name }
    {
        self.name.as_str()
    }

    /// The names of its members, in the order in which they came.
    pub fn possible_types(&self) -> &IndexSet<String>
        ensures { names_of result.now ≡ (union_parts self.now).possible_types }
    {
        &self.possible_types
    }

    /// Gives back the memory that its list of possible types does not need.
    pub fn shrink_to_fit(&mut self)
        ensures { union_parts self.new ≡ union_parts self.old }
    {
        self.possible_types.shrink_to_fit();
    }

    /// The type that is registered.
    pub fn meta(&self, alloc: Global) -> Result<MetaType, OutOfMemory>
        ensures { IfOk result (λ ty. meta_of ty ≡ union_meta (union_parts self.now)) }
    {
        Ok(MetaType::Union {
            name: String::from_str(alloc, self.name.as_str())?,
            description: copy_optional(&self.description)?,
            possible_types: copy_names(&self.possible_types)?,
            visible: None,
            inaccessible: self.inaccessible,
            tags: copy_texts(&self.tags)?,
            directive_invocations: copy_invocations(&self.directives)?,
        })
    }
}
