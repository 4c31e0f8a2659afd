//! Broken rules of a schema: section 3 of the GraphQL specification, October 2021.

ghost use Rattle.std.specs.Prelude.{◌≡◌, ◌∷◌, [], Some, codes, flat_map, IfOk};
ghost use Rattle.std.specs.List.{concat};
ghost use Rattle.std.specs.Fmt.{WritesOnOk};
ghost use Rattle.gql_registry_meta.specs.Views.{text_of};
ghost use Rattle.gql_check_rules.specs.Faults.{sentence, missing_field_sentence};
ghost use Rattle.gql_check_rules.specs.Faults.{missing_argument, arg_type, field_type, member_not_object};
ghost use Rattle.gql_dynamic.specs.Errors.{message_of};
ghost use Rattle.gql_dynamic.specs.declared.schema_error.SchemaError.TheVariants.{OutOfMemory as out_of_memory};

use gql_registry_meta::{MetaTypeId, OutOfMemory};
use std::alloc::{AllocError, AllocFailed, Global};
use std::fmt;

// What is wrong, as the end of a sentence that names it.

const RESERVED: &str =
    "\" must not have a name which begins with the characters \"__\" (two underscores)";

const NO_SUBSCRIPTION: &str = "The subscription root must be a subscription object";

const NO_FIELD: &str = "\" must define one or more fields";

const NO_OUTPUT: &str = "\" must return a output type";

const NO_INPUT: &str = "\" must accept a input type";

const HAS_DEFAULT: &str = "\" must not have a default value";

const ITSELF: &str = "\" may not implement itself";

const CYCLE: &str =
    "\" references itself either directly or through referenced Input Objects, at least one of the \
    fields in the chain of references must be either a nullable or a List type.";

/// The first broken rule of a schema, with the names that it reports. `ty` names the type that breaks it.
#[derive(Debug, Drop)]
pub enum SchemaError {
    /// A type of this name is there already, or it is the name of a system scalar.
    AlreadyExists {
        name: String,
    },
    /// No type of this name is registered.
    NotFound {
        name: String,
    },
    /// The type of the query root is not an object.
    QueryRoot,
    /// The type of the mutation root is not an object.
    MutationRoot,
    /// The type of the subscription root is not a subscription.
    SubscriptionRoot,
    /// An object has no field.
    EmptyObject {
        ty: String,
    },
    /// The name of a field begins with two underscores, which is reserved.
    FieldUnderscores {
        ty: String,
        field: String,
    },
    /// The name of an argument begins with two underscores, which is reserved.
    ArgUnderscores {
        ty: String,
        field: String,
        arg: String,
    },
    /// The type of a field is no output type.
    FieldOutput {
        ty: String,
        field: String,
    },
    /// The type of an argument is no input type.
    ArgInput {
        ty: String,
        field: String,
        arg: String,
    },
    /// The type of a field of an input object is no input type.
    FieldInput {
        ty: String,
        field: String,
    },
    /// A field of an input object that has exactly one of its fields is not nullable.
    OneOfNullable {
        ty: String,
        field: String,
    },
    /// A field of an input object that has exactly one of its fields has a default.
    OneOfDefault {
        ty: String,
        field: String,
    },
    /// An input object needs itself.
    InputCycle {
        ty: String,
    },
    /// A type that is implemented is no interface.
    NotInterface {
        name: String,
    },
    /// A type of the kind lacks a field of an interface that it implements.
    MissingField {
        kind: MetaTypeId,
        ty: String,
        field: String,
        interface: String,
    },
    /// A field lacks an argument that the field of the interface has.
    MissingArgument {
        ty: String,
        field: String,
        arg: String,
        interface: String,
    },
    /// The type of an argument does not take what that of the interface takes.
    ArgType {
        ty: String,
        field: String,
        arg: String,
        interface: String,
    },
    /// The type of a field is no sub-type of that of the interface.
    FieldType {
        ty: String,
        field: String,
        interface: String,
    },
    /// An interface implements itself.
    ImplementsItself {
        ty: String,
    },
    /// A member of a union is no object.
    MemberNotObject {
        ty: String,
        member: String,
    },
    OutOfMemory,
}

impl SchemaError {
    /// The sentence that reports the error.
    pub fn message(&self, alloc: Global) -> Result<String, OutOfMemory>
        ensures { IfOk result (λ text. text_of text ≡ message_of self.now) }
    {
        Ok(format!(in alloc; "{self}")?)
    }
}

impl fmt::Display for SchemaError {
    ghost output = { λ error. Some (message_of error) };

    fn fmt<W: fmt::Write>(&self, f: &mut fmt::Formatter<W>) -> fmt::Result {
        match self {
            Self::AlreadyExists { name } => of_name(f, "Type \"", name, "\" already exists"),
            Self::NotFound { name } => of_name(f, "Type \"", name, "\" not found"),
            Self::QueryRoot => f.write_str("The query root must be an object"),
            Self::MutationRoot => f.write_str("The mutation root must be an object"),
            Self::SubscriptionRoot => f.write_str(NO_SUBSCRIPTION),
            Self::EmptyObject { ty } => of_name(f, "Object \"", ty, NO_FIELD),
            Self::FieldUnderscores { ty, field } => of_field(f, ty, field, RESERVED),
            Self::ArgUnderscores { ty, field, arg } => of_argument(f, ty, field, arg, RESERVED),
            Self::FieldOutput { ty, field } => of_field(f, ty, field, NO_OUTPUT),
            Self::ArgInput { ty, field, arg } => of_argument(f, ty, field, arg, NO_INPUT),
            Self::FieldInput { ty, field } => of_field(f, ty, field, NO_INPUT),
            Self::OneOfNullable { ty, field } => of_field(f, ty, field, "\" must be nullable"),
            Self::OneOfDefault { ty, field } => of_field(f, ty, field, HAS_DEFAULT),
            Self::InputCycle { ty } => of_name(f, "\"", ty, CYCLE),
            Self::NotInterface { name } => of_name(f, "Type \"", name, "\" is not interface"),
            Self::MissingField {
                kind,
                ty,
                field,
                interface,
            } => missing_field(f, kind.as_str(), ty, field, interface),
            Self::MissingArgument {
                ty,
                field,
                arg,
                interface,
            } => missing_argument(f, ty, field, arg, interface),
            Self::ArgType {
                ty,
                field,
                arg,
                interface,
            } => argument_type(f, ty, field, arg, interface),
            Self::FieldType {
                ty,
                field,
                interface,
            } => field_type(f, ty, field, interface),
            Self::ImplementsItself { ty } => of_name(f, "Interface \"", ty, ITSELF),
            Self::MemberNotObject { ty, member } => member_not_object(f, ty, member),
            Self::OutOfMemory => f.write_str("out of memory"),
        }
    }
}

/// Writes the parts, one after another.
fn joined<W: fmt::Write>(f: &mut fmt::Formatter<W>, parts: &[&str]) -> fmt::Result
    ensures { WritesOnOk W.write_str_gives f.old result
        (flat_map (λ part. part.now) parts.now) f.new }
{
    for part in parts {
        f.write_str(part)?;
    }
    Ok(())
}

/// What is wrong with what has a name.
fn of_name<W: fmt::Write>(
    f: &mut fmt::Formatter<W>,
    before: &str,
    name: &String,
    after: &str,
) -> fmt::Result
    ensures { WritesOnOk W.write_str_gives f.old result
        (concat (before.now ∷ text_of name.now ∷ after.now ∷ [])) f.new }
{
    joined(f, &[before, name.as_str(), after])
}

/// What is wrong with a field.
fn of_field<W: fmt::Write>(
    f: &mut fmt::Formatter<W>,
    ty: &String,
    field: &String,
    what: &str,
) -> fmt::Result
    ensures { WritesOnOk W.write_str_gives f.old result
        (concat (codes "Field \"" ∷ text_of ty.now ∷ codes "." ∷ text_of field.now ∷ what.now ∷ [])) f.new }
{
    joined(f, &["Field \"", ty.as_str(), ".", field.as_str(), what])
}

/// What is wrong with an argument.
fn of_argument<W: fmt::Write>(
    f: &mut fmt::Formatter<W>,
    ty: &String,
    field: &String,
    arg: &String,
    what: &str,
) -> fmt::Result
    ensures { WritesOnOk W.write_str_gives f.old result
        (concat (codes "Argument \"" ∷ text_of ty.now ∷ codes "." ∷ text_of field.now ∷ codes "." ∷ text_of arg.now ∷ what.now ∷ [])) f.new }
{
    let (ty, field, arg) = (ty.as_str(), field.as_str(), arg.as_str());
    joined(f, &["Argument \"", ty, ".", field, ".", arg, what])
}

/// A type of the kind that the word names lacks a field.
fn missing_field<W: fmt::Write>(
    f: &mut fmt::Formatter<W>,
    word: &str,
    ty: &String,
    field: &String,
    interface: &String,
) -> fmt::Result
    ensures { WritesOnOk W.write_str_gives f.old result
        (missing_field_sentence word.now (text_of ty.now) (text_of field.now) (text_of interface.now)) f.new }
{
    let (ty, field, interface) = (ty.as_str(), field.as_str(), interface.as_str());
    joined(
        f,
        &[
            word,
            " \"",
            ty,
            "\" requires field \"",
            field,
            "\" defined by interface \"",
            interface,
            "\"",
        ],
    )
}

fn missing_argument<W: fmt::Write>(
    f: &mut fmt::Formatter<W>,
    ty: &String,
    field: &String,
    arg: &String,
    interface: &String,
) -> fmt::Result
    ensures { WritesOnOk W.write_str_gives f.old result
        (sentence (missing_argument (text_of ty.now) (text_of field.now) (text_of arg.now) (text_of interface.now))) f.new }
{
    let (ty, field, arg, interface) = (
        ty.as_str(),
        field.as_str(),
        arg.as_str(),
        interface.as_str(),
    );
    joined(
        f,
        &[
            "Field \"",
            ty,
            ".",
            field,
            "\" requires argument \"",
            arg,
            "\" defined by interface \"",
            interface,
            ".",
            field,
            "\"",
        ],
    )
}

fn argument_type<W: fmt::Write>(
    f: &mut fmt::Formatter<W>,
    ty: &String,
    field: &String,
    arg: &String,
    interface: &String,
) -> fmt::Result
    ensures { WritesOnOk W.write_str_gives f.old result
        (sentence (arg_type (text_of ty.now) (text_of field.now) (text_of arg.now) (text_of interface.now))) f.new }
{
    joined(
        f,
        &[
            "Argument \"",
            interface.as_str(),
            ".",
            field.as_str(),
            ".",
            arg.as_str(),
            "\" is not sub-type of \"",
            ty.as_str(),
            ".",
            field.as_str(),
            ".",
            arg.as_str(),
            "\"",
        ],
    )
}

fn field_type<W: fmt::Write>(
    f: &mut fmt::Formatter<W>,
    ty: &String,
    field: &String,
    interface: &String,
) -> fmt::Result
    ensures { WritesOnOk W.write_str_gives f.old result
        (sentence (field_type (text_of ty.now) (text_of field.now) (text_of interface.now))) f.new }
{
    let (ty, field, interface) = (ty.as_str(), field.as_str(), interface.as_str());
    joined(
        f,
        &[
            "Field \"",
            ty,
            ".",
            field,
            "\" is not sub-type of \"",
            interface,
            ".",
            field,
            "\"",
        ],
    )
}

fn member_not_object<W: fmt::Write>(
    f: &mut fmt::Formatter<W>,
    ty: &String,
    member: &String,
) -> fmt::Result
    ensures { WritesOnOk W.write_str_gives f.old result
        (sentence (member_not_object (text_of ty.now) (text_of member.now))) f.new }
{
    joined(
        f,
        &[
            "Member \"",
            member.as_str(),
            "\" of union \"",
            ty.as_str(),
            "\" is not an object",
        ],
    )
}

impl From<OutOfMemory> for SchemaError {
    ghost from_gives = { λ _ e. e ≡ out_of_memory };

    fn from(_: OutOfMemory) -> SchemaError {
        SchemaError::OutOfMemory
    }
}

impl From<AllocError> for SchemaError {
    ghost from_gives = { λ _ e. e ≡ out_of_memory };

    fn from(_: AllocError) -> SchemaError {
        SchemaError::OutOfMemory
    }
}

impl<T: Drop> From<AllocFailed<T>> for SchemaError {
    ghost from_gives = { λ _ e. e ≡ out_of_memory };

    fn from(_: AllocFailed<T>) -> SchemaError {
        SchemaError::OutOfMemory
    }
}
