// What the tool answers, as text.
ghost use Rattle.std.specs.Prelude.{◌≡◌, ◌++◌, length, IfOk, string_bytes, OnOk};
ghost use Rattle.ksyms.specs.Answers.{end_lines, told_lines, answer_text, Answers};
ghost use Rattle.ksyms.specs.Tells.{Finds, Tells};

use crate::summary::{Summary, Told, found};
use kallsyms::ends::End;
use kallsyms::text::Text;
use lookup::indexed::asked;
use lookup::scan::{Reading, look_up};
use lookup::sighting::Sighting;
use std::alloc::{AllocError, Global};
use std::fmt::Write;

// The line for a list that is broken, or nothing.
fn end_lines(heap: Global, end: End) -> Result<String, AllocError>
    ensures { IfOk result (λ s. string_bytes s ≡ end_lines end) }
{
    match end {
        Ok(()) => Ok(String::new(heap)),
        Err(fault) => {
            format!(in heap; "the list is broken: {fault}; only the lines before it were read\n")
        }
    }
}

// What is said of each of the names, in their order.
fn told_of<'a>(
    heap: Global,
    names: &'a [String],
    sightings: &[Sighting],
) -> Result<Vec<Told<'a>>, AllocError>
    requires { length sightings.now ≡ length names.now }
    ensures { IfOk result (λ v. Tells names.now sightings.now v.items) }
{
    let mut tolds = Vec::with_capacity(heap, names.len())?;
    for (i, name) in names.iter().enumerate() {
        tolds.push(Told {
            name: name.as_str(),
            sighting: sightings[i],
        })?;
    }
    Ok(tolds)
}

// What a list of these bytes says of each of the names, in their order, and what the reading took.
fn found_of<'a>(
    heap: Global,
    bytes: &[u8],
    names: &'a [String],
) -> Result<(Vec<Told<'a>>, Reading), AllocError>
    ensures { IfOk result (λ r. Finds bytes.now names.now r.0.items r.1) }
{
    let mut rows = asked(heap, names)?;
    let reading = look_up(&mut Text::new(bytes), &mut rows);
    // The index is let go first, so that it takes no memory beside what is told.
    let sightings = rows.into_sightings();
    let tolds = told_of(heap, names, &sightings)?;
    Ok((tolds, reading))
}

// Adds the line for each name to a text.
fn add_names(text: &mut String, tolds: &[Told]) -> Result<(), AllocError>
    ensures { OnOk result (string_bytes text.new ≡ string_bytes text.old ++ told_lines tolds.now) }
{
    for told in tolds {
        writeln!(text, "{told}")?;
    }
    Ok(())
}

// What is told of the names, as text.
fn answer_text(heap: Global, tolds: &[Told], reading: Reading) -> Result<String, AllocError>
    ensures { IfOk result (λ s. string_bytes s ≡ answer_text tolds.now reading.lines reading.end) }
{
    let mut text = end_lines(heap, reading.end)?;
    add_names(&mut text, tolds)?;
    let summary = Summary {
        lines: reading.lines,
        found: found(tolds),
        asked: tolds.len(),
    };
    writeln!(text, "{summary}")?;
    Ok(text)
}

/// What the tool writes for a list of these bytes and these names.
// A list's bytes and the names are two arguments: they come from two places.
pub fn answer(heap: Global, bytes: &[u8], names: &[String]) -> Result<String, AllocError>
    ensures { IfOk result (λ s. Answers bytes.now names.now (string_bytes s)) }
{
    let (tolds, reading) = found_of(heap, bytes, names)?;
    answer_text(heap, &tolds, reading)
}
