//! Why a chain is refused, in words.
ghost use Rattle.std.specs.Prelude.{◌≡◌, ◌≢◌, ◌++◌, IfOk, OnOk, string_bytes};
ghost use Rattle.commands.specs.ChainWords.{chain_words, one_argument, three_arguments, two_arguments};
ghost use Rattle.commands.specs.Refusals.{refused_line};

use audit_graph::AuditFault;
use session_text::write_fault;
use std::alloc::{AllocError, Global};
use std::fmt::Write;

/// Why a chain is refused. Out of memory has no text.
pub fn chain_refusal(alloc: Global, fault: AuditFault) -> Result<String, AllocError>
    ensures text { IfOk result (λ text. string_bytes text ≡ refused_line (chain_words fault)) }
    ensures other { IfOk result (λ _. fault ≢ AuditFault.OutOfMemory) }
{
    let mut text = String::from_str(alloc, "refused: ")?;
    add_chain_fault(&mut text, fault)?;
    text.push_str("\n")?;
    Ok(text)
}

// Adds why a chain is refused.
fn add_chain_fault(text: &mut String, fault: AuditFault) -> Result<(), AllocError>
    ensures added { OnOk result
        (string_bytes text.new ≡ string_bytes text.old ++ chain_words fault) }
    ensures other { OnOk result (fault ≢ AuditFault.OutOfMemory) }
{
    match fault {
        AuditFault::EmptyChain => text.push_str("14.1 EmptyChain"),
        AuditFault::File(k, why) => {
            write!(text, "14.2 File({k}, ")?;
            write_fault(text, why)?;
            text.push_str(")")
        }
        AuditFault::BrokenLink(k) => add_one(text, "14.3 BrokenLink", k),
        AuditFault::NoFiles(k) => add_one(text, "14.4 NoFiles", k),
        AuditFault::MissingSource(k, f) => add_two(text, "14.5 MissingSource", k, f),
        AuditFault::StraySource(k, f) => add_two(text, "14.6 StraySource", k, f),
        AuditFault::GreenWithoutPast(k, n) => add_two(text, "14.7 GreenWithoutPast", k, n),
        AuditFault::OtherEdges(k, n) => add_two(text, "14.8 OtherEdges", k, n),
        AuditFault::GreenOverRed(k, n, i) => add_three(text, "14.9 GreenOverRed", k, n, i),
        AuditFault::GreenPrint(k, n) => add_two(text, "14.10 GreenPrint", k, n),
        AuditFault::OtherRead(k, n, i) => add_three(text, "14.11 OtherRead", k, n, i),
        AuditFault::UnreadEdges(k, n) => add_two(text, "14.12 UnreadEdges", k, n),
        AuditFault::OtherResult(k, n) => add_two(text, "14.13 OtherResult", k, n),
        AuditFault::NoAnswer => text.push_str("14.14 NoAnswer"),
        AuditFault::GreenAcrossProfiles(k, n) => add_two(text, "14.17 GreenAcrossProfiles", k, n),
        AuditFault::SourcesDiffer => text.push_str("14.15 SourcesDiffer"),
        AuditFault::OutOfMemory => Err(AllocError),
    }
}

// Adds a name and its argument.
fn add_one(text: &mut String, name: &str, a: usize) -> Result<(), AllocError>
    ensures { OnOk result
        (string_bytes text.new ≡ string_bytes text.old ++ name.now ++ one_argument a) }
{
    write!(text, "{name}({a})")
}

// Adds a name and its two arguments.
fn add_two(text: &mut String, name: &str, a: usize, b: usize) -> Result<(), AllocError>
    ensures { OnOk result
        (string_bytes text.new ≡ string_bytes text.old ++ name.now ++ two_arguments a b) }
{
    write!(text, "{name}({a}, {b})")
}

// Adds a name and its three arguments.
fn add_three(text: &mut String, name: &str, a: usize, b: usize, c: usize) -> Result<(), AllocError>
    ensures { OnOk result
        (string_bytes text.new ≡ string_bytes text.old ++ name.now ++ three_arguments a b c) }
{
    write!(text, "{name}({a}, {b}, {c})")
}
