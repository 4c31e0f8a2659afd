//! Examples of the library, as a caller writes them: each module is one, and the program prints what each answers.
//!
//! A function of a caller's crate that hands out a `Scalar`, a `SchemaBuilder` or a `Schema`, which may hold a test of
//! values, is refused by the gate: its contract would say nothing of that test. The examples make and use such a value in
//! one function, and hand out what they ask of it.
#![tactic(auto)]

mod building;
mod publishing;
mod reading;
mod rules;
mod scalars;
mod visible;

use std::process::ExitCode;

/// Writes a heading and what an example answers.
fn write_part(rt: &HostRuntime, heading: &str, text: &str) -> Option<()> {
    let part = format!(in rt.alloc(); "# {}\n{}\n", heading, text).ok()?;
    rt.stdout().write_all(part.as_bytes()).ok()
}

/// Writes what each example answers.
fn write_parts(rt: &HostRuntime) -> Option<()> {
    let alloc = rt.alloc();
    write_part(
        rt,
        "A document that is published",
        publishing::example(alloc)?.as_str(),
    )?;
    write_part(
        rt,
        "A schema that is built in code",
        building::example(alloc)?.as_str(),
    )?;
    write_part(rt, "A rule that is broken", rules::example(alloc)?.as_str())?;
    write_part(
        rt,
        "A document that is walked",
        reading::example(alloc)?.as_str(),
    )?;
    write_part(
        rt,
        "A scalar that tests its values",
        scalars::example(alloc)?.as_str(),
    )?;
    write_part(
        rt,
        "A registry with hidden parts",
        visible::example(alloc)?.as_str(),
    )
}

fn main(rt: HostRuntime) -> ExitCode {
    match write_parts(&rt) {
        Some(()) => ExitCode::from(0),
        None => ExitCode::from(1),
    }
}
