//! The text of the graph.
ghost use Rattle.std.specs.Prelude.{◌≡◌, ◌++◌, ◌<◌, IfOk, IfSome, OnOk, flat_map, length, string_bytes};
ghost use Rattle.std.specs.Option.{option_copied};
ghost use Rattle.session_text.specs.SessionGraph.{IsDotText, edge_line, drawn_lines, record_lines};

use crate::drawing::label::write_label;
use crate::drawing::shade::Shade;
use crate::drawing::within::drawn;
use sessions::{Finder, Record, Session};
use std::alloc::{AllocError, Global};
use std::fmt::Write;

/// The graph of a session as Graphviz reads it: for each record a node, and an edge to each that it has read. The colours
/// show what has changed since the session before, if there is one. With the index of a record it is the graph of just
/// what lies within that record: it, what it has read, what that has read, and so on.
pub fn dot_text(
    alloc: Global,
    past: Option<&Session>,
    session: &Session,
    of: Option<usize>,
) -> Result<String, AllocError>
    requires { IfSome of (λ root. root < length session.now.records) }
    ensures { IfOk result
        (λ text. IsDotText (option_copied past.entry) session.now of (string_bytes text)) }
{
    let records = session.records();
    let drawn = drawn(alloc, records, of)?;
    let mut text = String::new(alloc);
    text.push_str("digraph session {\n  node [shape=box, style=filled];\n")?;
    write_records(alloc, &mut text, past, records, &drawn)?;
    text.push_str("}\n")?;
    Ok(text)
}

fn write_records(
    alloc: Global,
    text: &mut String,
    past: Option<&Session>,
    records: &[Record],
    drawn: &[bool],
) -> Result<(), AllocError>
    requires { length drawn.now ≡ length records.now }
    ensures { OnOk result (string_bytes text.new
        ≡ string_bytes text.old ++ drawn_lines (option_copied past.entry) 0 drawn.now records.now) }
{
    let mut finder = Finder::new();
    for (i, item) in records.iter().enumerate() {
        if drawn[i] {
            write_record(alloc, text, i, Shade::of(&mut finder, past, item), item)?;
        }
    }
    Ok(())
}

fn write_record(
    alloc: Global,
    text: &mut String,
    i: usize,
    shade: Shade,
    item: &Record,
) -> Result<(), AllocError>
    ensures { OnOk result
        (string_bytes text.new ≡ string_bytes text.old ++ record_lines shade i item.now) }
{
    write!(text, "  n{i} [label=\"")?;
    write_label(alloc, text, item.key())?;
    let (class, fill) = (shade.class(), shade.fill());
    writeln!(text, "\", class=\"{class}\", fillcolor=\"{fill}\"];")?;
    write_edges(text, i, item.edges())
}

fn write_edges(text: &mut String, i: usize, edges: &[usize]) -> Result<(), AllocError>
    ensures { OnOk result
        (string_bytes text.new ≡ string_bytes text.old ++ flat_map (edge_line i) edges.now) }
{
    for edge in edges {
        writeln!(text, "  n{i} -> n{edge};")?;
    }
    Ok(())
}
