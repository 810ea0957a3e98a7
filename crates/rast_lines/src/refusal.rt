// The line of a refusal.
ghost use Rattle.std.specs.Prelude.{◌≡◌, ◌++◌, OnOk, IfOk, slice_get, [], codes};
ghost use Rattle.std.specs.Fmt.{decimal};
ghost use Rattle.rast_lines.specs.Lines.{line, type_line, decl_line, equation_line, equation_bound, equation_refused, node_text, rule_of, rule_word, rule_text, premise_text, valued};

use crate::evidence::{put_evidence, put_same};
use crate::names::{decl_names, def_names, names_at};
use crate::place::{decl_of, nodes_above};
use crate::scopes::Sought;
use crate::shown::Printed;
use crate::valuation::put_values;
use crate::write::{put, put_number};
use rast_check::CheckErr;
use rast_equal::{SameErr, TypeErr};
use rast_rules::Evidence;
use rast_terms::{Node, Program, put_decl, put_def};
use std::alloc::{AllocError, Global};

fn rule_word(node: &Node) -> &'static [u8]
    ensures { result.now ≡ rule_word node.now }
{
    match node {
        Node::Label { .. } => b"label",
        Node::Case { .. } => b"case",
        Node::Send { .. } => b"send",
        Node::Recv { .. } => b"recv",
        Node::Index { .. } => b"index",
        Node::Bind { .. } => b"bind",
        Node::Assert { .. } => b"assert",
        Node::Assume { .. } => b"assume",
        Node::Pay { .. } => b"pay",
        Node::Get { .. } => b"get",
        Node::Close { .. } => b"close",
        Node::Wait { .. } => b"wait",
        Node::Forward { .. } => b"forward",
        Node::Spawn { .. } => b"spawn",
        Node::Call { .. } => b"call",
        Node::Impossible => b"impossible",
        Node::Work { .. } => b"work",
        Node::Delay { .. } => b"delay",
    }
}

fn put_rule(text: &mut Vec<u8>, program: &Program, node: u32) -> Result<(), AllocError>
    ensures { OnOk result (text.new.items ≡ text.old.items ++ rule_of (slice_get program.now.nodes node)) }
{
    match program.nodes.get(node as usize) {
        Some(node) => put(text, rule_word(node)),
        None => Ok(()),
    }
}

// Its declaration, its number and the word of its rule.
fn put_node(
    alloc: Global,
    text: &mut Vec<u8>,
    program: &Program,
    node: u32,
) -> Result<(), AllocError>
    ensures { OnOk result (text.new.items ≡ text.old.items ++ node_text program.now node) }
{
    let above = nodes_above(alloc, program, node)?;
    put_decl(text, program, decl_of(program, node, above.as_slice()))?;
    put(text, b" node ")?;
    put_number(alloc, text, node as u128)?;
    put(text, b" ")?;
    put_rule(text, program, node)
}

fn put_premise(alloc: Global, text: &mut Vec<u8>, premise: u8) -> Result<(), AllocError>
    ensures { OnOk result (text.new.items ≡ text.old.items ++ premise_text premise) }
{
    put(text, b" premise ")?;
    put_number(alloc, text, premise as u128)
}

fn put_rule_number(alloc: Global, text: &mut Vec<u8>, rule: u8) -> Result<(), AllocError>
    ensures { OnOk result (text.new.items ≡ text.old.items ++ rule_text rule) }
{
    put(text, b" rule ")?;
    put_number(alloc, text, rule as u128)
}

fn put_valued(
    alloc: Global,
    text: &mut Vec<u8>,
    names: &[Printed],
    vars: u8,
    values: &Option<[u128; 16]>,
) -> Result<(), AllocError>
    ensures { OnOk result (text.new.items ≡ text.old.items ++ valued names.now vars values.now) }
{
    match values {
        Some(values) => put_values(alloc, text, names, vars, values),
        None => Ok(()),
    }
}

fn type_line(alloc: Global, program: &Program, why: &TypeErr) -> Result<Vec<u8>, AllocError>
    ensures { IfOk result (λ text. text.items ≡ type_line program.now why.now) }
{
    let mut text = Vec::new(alloc);
    match why {
        TypeErr::Invalid {
            def,
            rule,
            vars,
            values,
        } => {
            let sought = Sought {
                rule: *rule,
                vars: *vars,
            };
            let names = def_names(alloc, program, *def, &sought)?;
            put(&mut text, b"refused: type ")?;
            put_def(&mut text, program, *def)?;
            put_rule_number(alloc, &mut text, *rule)?;
            put_valued(alloc, &mut text, names.as_slice(), *vars, values)?;
            put(&mut text, b"\n")?;
        }
        TypeErr::Bound { def, .. } => {
            put(&mut text, b"bound: search in type ")?;
            put_def(&mut text, program, *def)?;
            put(&mut text, b"\n")?;
        }
        TypeErr::Memory => {}
    }
    Ok(text)
}

fn decl_line(
    alloc: Global,
    program: &Program,
    decl: u32,
    why: &TypeErr,
) -> Result<Vec<u8>, AllocError>
    ensures { IfOk result (λ text. text.items ≡ decl_line program.now decl why.now) }
{
    let mut text = Vec::new(alloc);
    match why {
        TypeErr::Invalid {
            rule,
            vars,
            values,
            ..
        } => {
            let sought = Sought {
                rule: *rule,
                vars: *vars,
            };
            let names = decl_names(alloc, program, decl, &sought)?;
            put(&mut text, b"refused: decl ")?;
            put_decl(&mut text, program, decl as usize)?;
            put_rule_number(alloc, &mut text, *rule)?;
            put_valued(alloc, &mut text, names.as_slice(), *vars, values)?;
            put(&mut text, b"\n")?;
        }
        TypeErr::Bound { .. } => {
            put(&mut text, b"bound: search in decl ")?;
            put_decl(&mut text, program, decl as usize)?;
            put(&mut text, b"\n")?;
        }
        TypeErr::Memory => {}
    }
    Ok(text)
}

fn equation_bound(alloc: Global, number: u32) -> Result<Vec<u8>, AllocError>
    ensures { IfOk result (λ text. text.items ≡ equation_bound number) }
{
    let mut text = Vec::new(alloc);
    put(&mut text, b"bound: search in equation ")?;
    put_number(alloc, &mut text, number as u128)?;
    put(&mut text, b"\n")?;
    Ok(text)
}

fn equation_refused(
    alloc: Global,
    program: &Program,
    number: u32,
    premise: u8,
    why: &SameErr,
) -> Result<Vec<u8>, AllocError>
    ensures { IfOk result (λ text. text.items ≡ equation_refused program.now number premise why.now) }
{
    let mut text = Vec::new(alloc);
    put(&mut text, b"refused: equation ")?;
    put_number(alloc, &mut text, number as u128)?;
    put_premise(alloc, &mut text, premise)?;
    put(&mut text, b": ")?;
    put_same(alloc, &mut text, program, &[], why)?;
    put(&mut text, b"\n")?;
    Ok(text)
}

fn equation_line(
    alloc: Global,
    program: &Program,
    number: u32,
    premise: u8,
    why: &SameErr,
) -> Result<Vec<u8>, AllocError>
    ensures { IfOk result (λ text. text.items ≡ equation_line program.now number premise why.now) }
{
    match why {
        SameErr::Bound { .. } => equation_bound(alloc, number),
        SameErr::Memory => Ok(Vec::new(alloc)),
        SameErr::Fails { .. } => equation_refused(alloc, program, number, premise, why),
        SameErr::Wanted { .. } => equation_refused(alloc, program, number, premise, why),
        SameErr::Left => equation_refused(alloc, program, number, premise, why),
    }
}

fn refused_line(
    alloc: Global,
    program: &Program,
    node: u32,
    premise: u8,
    evidence: &Evidence,
) -> Result<Vec<u8>, AllocError>
    ensures { IfOk result (λ text. (e : CheckErr) → e ≡ CheckErr.Refused node premise evidence.now → text.items ≡ line program.now e) }
{
    let names = names_at(alloc, program, node)?;
    let mut text = Vec::new(alloc);
    put(&mut text, b"refused: ")?;
    put_node(alloc, &mut text, program, node)?;
    put_premise(alloc, &mut text, premise)?;
    put(&mut text, b": ")?;
    put_evidence(alloc, &mut text, program, &names, evidence)?;
    put(&mut text, b"\n")?;
    Ok(text)
}

/// The line that is printed for a program that isn't accepted, with its line feed; nothing for want of memory.
///
/// `program` is the one that `check` refused. Channels and index variables have the names that the program's text has where
/// these are printed: see [`names_at`](crate::names_at). Variables of equations, and those that a walk adds at a quantifier,
/// are `q` and their number.
pub fn line(alloc: Global, program: &Program, refusal: &CheckErr) -> Result<Vec<u8>, AllocError>
    ensures { IfOk result (λ text. text.items ≡ line program.now refusal.now) }
{
    match refusal {
        CheckErr::BadType { why } => type_line(alloc, program, why),
        CheckErr::BadDecl { decl, why } => decl_line(alloc, program, *decl, why),
        CheckErr::BadEquation { why } => {
            equation_line(alloc, program, why.number, why.premise, &why.why)
        }
        CheckErr::Refused {
            node,
            premise,
            evidence,
        } => refused_line(alloc, program, *node, *premise, evidence),
        CheckErr::Bound { node, premise, .. } => bound_line(alloc, *node, *premise),
        CheckErr::Limit { node, .. } => limit_line(alloc, *node),
        CheckErr::Memory => Ok(Vec::new(alloc)),
    }
}

fn bound_line(alloc: Global, node: u32, premise: u8) -> Result<Vec<u8>, AllocError>
    ensures { IfOk result (λ text. text.items ≡ codes "bound: search at node " ++ (decimal node ++ (premise_text premise ++ codes "\n"))) }
{
    let mut text = Vec::new(alloc);
    put(&mut text, b"bound: search at node ")?;
    put_number(alloc, &mut text, node as u128)?;
    put_premise(alloc, &mut text, premise)?;
    put(&mut text, b"\n")?;
    Ok(text)
}

fn limit_line(alloc: Global, node: u32) -> Result<Vec<u8>, AllocError>
    ensures { IfOk result (λ text. text.items ≡ codes "bound: limit at node " ++ (decimal node ++ codes "\n")) }
{
    let mut text = Vec::new(alloc);
    put(&mut text, b"bound: limit at node ")?;
    put_number(alloc, &mut text, node as u128)?;
    put(&mut text, b"\n")?;
    Ok(text)
}
