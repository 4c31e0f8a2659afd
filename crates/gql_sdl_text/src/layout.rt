//! What a caller chooses of a text.

/// How a text is laid out: one indent, and whether a description without a line feed is written on a single line. An
/// indent is of spaces and tabs where the text is to be read again.
#[derive(Debug, Drop)]
pub struct Layout {
    pub indent: String,
    pub single: bool,
}

/// What is taken of a schema, and in which order. `sorted_fields`: fields and input fields by name; `sorted_arguments`:
/// the arguments of fields by name; `sorted_enum_items`: enum values by name; `with_reserved`: also fields whose names
/// begin with `__`; `with_url`: also the URLs of scalars.
#[derive(Clone, Copy, Debug)]
pub struct Choice {
    pub sorted_fields: bool,
    pub sorted_arguments: bool,
    pub sorted_enum_items: bool,
    pub with_reserved: bool,
    pub with_url: bool,
}
