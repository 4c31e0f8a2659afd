//! A registry with hidden parts: which of its types a reader may see.

use gql_check::{BuildError, Field, Object, Schema, Type, TypeRef};
use gql_registry::{Context, MetaType, OutOfMemory, Registry};
use std::alloc::Global;

/// The rule that holds for the staff alone.
const STAFF: u32 = 1;

/// A reader, who is of the staff or not.
#[derive(Drop)]
struct Reader {
    is_staff: bool,
}

impl Context for Reader {
    ghost use Rattle.std.specs.Prelude.{◌&&◌, nat_eq};

    ghost rules = { λ reader rule. reader.is_staff && nat_eq rule 1 };

    fn holds(&self, rule: u32) -> bool {
        self.is_staff && rule == STAFF
    }
}

/// `type Query { salary: Salary }`
fn query(alloc: Global) -> Result<Object, BuildError> {
    let salary = Field::new(alloc, "salary", TypeRef::named(alloc, "Salary")?)?;
    Object::new(alloc, "Query")?.field(salary)
}

/// `type Salary { amount: Int }`
fn salary(alloc: Global) -> Result<Object, BuildError> {
    let amount = Field::new(alloc, "amount", TypeRef::named(alloc, "Int")?)?;
    Object::new(alloc, "Salary")?.field(amount)
}

/// Shows an object where the rule of the staff holds.
fn hide(ty: &mut MetaType) {
    if let MetaType::Object { visible, .. } = ty {
        *visible = Some(STAFF);
    }
}

/// Adds a line that says whether a reader may see the type `Salary`.
fn push_seen(out: &mut String, registry: &Registry, is_staff: bool) -> Result<(), OutOfMemory> {
    let who = if is_staff { "the staff" } else { "a guest" };
    let names = registry.find_visible_types(&Reader { is_staff })?;
    let sees = if names.contains("Salary") {
        "sees"
    } else {
        "does not see"
    };
    out.push_str(who)?;
    out.push_str(" ")?;
    out.push_str(sees)?;
    out.push_str(" Salary\n")?;
    Ok(())
}

/// What a guest and the staff may see of a registry, where the rule of the staff hides a type.
fn seen(mut registry: Registry, mut hidden: MetaType) -> Option<String> {
    hide(&mut hidden);
    registry.insert_type(hidden).ok()?;
    let mut out = String::new(registry.allocator());
    push_seen(&mut out, &registry, false).ok()?;
    push_seen(&mut out, &registry, true).ok()?;
    Some(out)
}

pub(crate) fn example(alloc: Global) -> Option<String> {
    let builder = Schema::build(alloc, "Query", None, None).ok()?;
    let builder = builder.register(Type::from(query(alloc).ok()?)).ok()?;
    let builder = builder.register(Type::from(salary(alloc).ok()?)).ok()?;
    match builder.finish() {
        Ok(schema) => seen(
            schema.into_registry(),
            salary(alloc).ok()?.meta(alloc).ok()?,
        ),
        Err(_) => None,
    }
}
