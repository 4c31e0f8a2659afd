//! Where directives of code may be used: the places of type systems of section 3.13 of the GraphQL specification, October
//! 2021. A directive that may be used in a place has the trait of that place, so that a use elsewhere is no code.

/// A directive that may be used on a field of an object or an interface.
pub trait Directive_At_FIELD_DEFINITION {
    fn check() {}
}

/// A directive that may be used on an object.
pub trait Directive_At_OBJECT {
    fn check() {}
}

/// A directive that may be used on a field of an input object.
pub trait Directive_At_INPUT_FIELD_DEFINITION {
    fn check() {}
}

/// A directive that may be used on an argument.
pub trait Directive_At_ARGUMENT_DEFINITION {
    fn check() {}
}

/// A directive that may be used on an input object.
pub trait Directive_At_INPUT_OBJECT {
    fn check() {}
}

/// A directive that may be used on an interface.
pub trait Directive_At_INTERFACE {
    fn check() {}
}

/// A directive that may be used on an enum.
pub trait Directive_At_ENUM {
    fn check() {}
}

/// A directive that may be used on a value of an enum.
pub trait Directive_At_ENUM_VALUE {
    fn check() {}
}
