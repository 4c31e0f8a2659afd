//! The options of a text that words ask for.

ghost use Rattle.std.specs.Prelude.{◌≡◌, false, is_some, unwrap_or};
ghost use Rattle.gql_sdl.specs.Values.{options_of};
ghost use Rattle.clap.specs.Matches.{found_of};
ghost use Rattle.clap.specs.Walk.{rows_of};
ghost use Rattle.gql_publish_words.specs.Words.{options_with};

use crate::command::is_there;
use clap::ArgMatches;
use gql_sdl::SDLExportOptions;

fn sorted_fields(options: SDLExportOptions, is_asked: bool) -> SDLExportOptions
    requires { (options_of options).sorted_fields ≡ false }
    ensures { options_of result ≡ record (options_of options) { sorted_fields = is_asked } }
{
    if is_asked {
        options.sorted_fields()
    } else {
        options
    }
}

fn sorted_arguments(options: SDLExportOptions, is_asked: bool) -> SDLExportOptions
    requires { (options_of options).sorted_arguments ≡ false }
    ensures { options_of result ≡ record (options_of options) { sorted_arguments = is_asked } }
{
    if is_asked {
        options.sorted_arguments()
    } else {
        options
    }
}

fn sorted_enum_items(options: SDLExportOptions, is_asked: bool) -> SDLExportOptions
    requires { (options_of options).sorted_enum_items ≡ false }
    ensures { options_of result ≡ record (options_of options) { sorted_enum_items = is_asked } }
{
    if is_asked {
        options.sorted_enum_items()
    } else {
        options
    }
}

fn single_lines(options: SDLExportOptions, is_asked: bool) -> SDLExportOptions
    requires { (options_of options).prefer_single_line_descriptions ≡ false }
    ensures { options_of result ≡ record (options_of options) {
      prefer_single_line_descriptions = is_asked;
    } }
{
    if is_asked {
        options.prefer_single_line_descriptions()
    } else {
        options
    }
}

/// The options with an indent of this number of spaces, where it is asked for.
fn indented(options: SDLExportOptions, width: Option<u8>) -> SDLExportOptions
    requires tab { (options_of options).use_space_ident ≡ false }
    requires two { (options_of options).indent_width ≡ 2 }
    ensures { options_of result ≡ record (options_of options) {
      use_space_ident = is_some width;
      indent_width = unwrap_or width 2;
    } }
{
    match width {
        Some(width) => options.use_space_ident().indent_width(width),
        None => options,
    }
}

/// The options of a text by what the command found, with an indent of this number of spaces, where it is asked for.
pub(crate) fn options(found: &ArgMatches<'_>, width: Option<u8>) -> SDLExportOptions
    ensures { options_of result ≡ options_with (rows_of (found_of found.now)) width }
{
    let options = SDLExportOptions::new().include_specified_by();
    let options = sorted_fields(options, is_there(found, "sorted-fields"));
    let options = sorted_arguments(options, is_there(found, "sorted-arguments"));
    let options = sorted_enum_items(options, is_there(found, "sorted-enum-items"));
    let options = single_lines(options, is_there(found, "single-line"));
    indented(options, width)
}
