ghost use Rattle.std.specs.Prelude.{◌≡◌, ◌++◌, [], List, codes, OnOk, OnErr, IfOk};
ghost use Rattle.st_lex.specs.Pieces.{print, piece_bytes};
ghost use Rattle.st_base.specs.Errno.{word_of_error};
ghost use Rattle.st_emulation.specs.Words.{word_of};
ghost use Rattle.st_printing.specs.Canon.{word_of_op, index_pieces, test_pieces, needs_no_parens, in_parens, expression_pieces, condition_pieces, deny_pieces, action_pieces, user_pieces, group_pieces, grant_pieces, log_pieces, word_of_who, cmp_piece, predicate_pieces, call_word, filter_pieces, row_pieces, rows_pieces, canon_filter, header_pieces, binary_piece, canon};
ghost use Rattle.st_filter.specs.Formula.{formula, Operand, Conjunction};

use st_base::{Errno, Text};
use st_calls::append_index;
use st_emulation::Emulation;
use st_filter::{
    Action, Cmp, Expr, Filter, FilterName, Grant, Op, Policy, PolicySet, Predicate, Who,
};
use st_lex::{is_word_text, quote};
use std::alloc::{AllocError, Global};

// The word for an operator in a policy.
fn word_of_op(op: Op) -> &'static [u8]
    ensures { result.now ≡ word_of_op op }
{
    match op {
        Op::Match => b"match",
        Op::Eq => b"eq",
        Op::Neq => b"neq",
        Op::Sub => b"sub",
        Op::Nsub => b"nsub",
        Op::Inpath => b"inpath",
    }
}

// Appends a test.
#[tactic(auto, using(crate::proofs::Indices::index_text_printed))]
fn append_test(
    label: &[u8],
    index: u32,
    op: Op,
    text: &[u8],
    out: &mut Text,
) -> Result<(), AllocError>
    ensures { OnOk result (out.new ≡ out.old ++ print (test_pieces label.now index op text.now)) }
{
    out.append(label)?;
    append_index(index, out)?;
    out.push(b' ')?;
    out.append(word_of_op(op))?;
    out.push(b' ')?;
    quote(text, out)
}

// Whether an expression needs no parentheses as an operand.
fn is_operand(expr: &Expr) -> bool
    ensures { result ≡ needs_no_parens Operand (formula expr.now) }
{
    !matches!(expr, Expr::And(_, _) | Expr::Or(_, _))
}

// Whether an expression needs no parentheses to the left of `and` or to the right of `or`.
fn is_conjunction(expr: &Expr) -> bool
    ensures { result ≡ needs_no_parens Conjunction (formula expr.now) }
{
    !matches!(expr, Expr::Or(_, _))
}

// Appends an expression with parentheses or without.
#[cycle(expression)]
fn append_in(expr: &Expr, bare: bool, out: &mut Text) -> Result<(), AllocError>
    ensures { OnOk result (out.new ≡ out.old ++ print (in_parens bare (expression_pieces (formula expr.now)))) }
{
    if bare {
        return append_expression(expr, out);
    }
    out.push(b'(')?;
    append_expression(expr, out)?;
    out.push(b')')
}

// Appends an expression without parentheses around it.
#[cycle(expression)]
fn append_expression(expr: &Expr, out: &mut Text) -> Result<(), AllocError>
    ensures { OnOk result (out.new ≡ out.old ++ print (expression_pieces (formula expr.now))) }
{
    match expr {
        Expr::True => out.append(b"true"),
        Expr::Test {
            label,
            index,
            op,
            text,
        } => append_test(label.bytes(), *index, *op, text.bytes(), out),
        Expr::Not(operand) => {
            out.append(b"not ")?;
            append_in(operand, is_operand(operand), out)
        }
        Expr::And(left, right) => {
            append_in(left, is_conjunction(left), out)?;
            out.append(b" and ")?;
            append_in(right, is_operand(right), out)
        }
        Expr::Or(left, right) => {
            append_in(left, true, out)?;
            out.append(b" or ")?;
            append_in(right, is_conjunction(right), out)
        }
    }
}

// Appends an expression and `then`; nothing if the filter is for every call.
fn append_condition(expr: &Expr, out: &mut Text) -> Result<(), AllocError>
    ensures { OnOk result (out.new ≡ out.old ++ print (condition_pieces (formula expr.now))) }
{
    if matches!(expr, Expr::True) {
        return Ok(());
    }
    append_expression(expr, out)?;
    out.append(b" then ")
}

// Appends the name of an error in small letters.
fn append_error(errno: Errno, out: &mut Text) -> Result<(), AllocError>
    ensures { OnOk result (out.new ≡ out.old ++ word_of_error errno) }
{
    for byte in errno.name() {
        out.push(byte.to_ascii_lowercase())?;
    }
    Ok(())
}

fn append_denial(errno: Errno, out: &mut Text) -> Result<(), AllocError>
    ensures { OnOk result (out.new ≡ out.old ++ print (deny_pieces errno)) }
{
    out.append(b"deny")?;
    if matches!(errno, Errno::EPERM) {
        return Ok(());
    }
    out.push(b'[')?;
    append_error(errno, out)?;
    out.push(b']')
}

fn append_action(action: Action, out: &mut Text) -> Result<(), AllocError>
    ensures { OnOk result (out.new ≡ out.old ++ print (action_pieces action)) }
{
    match action {
        Action::Permit => out.append(b"permit"),
        Action::Deny(errno) => append_denial(errno, out),
        Action::Ask => out.append(b"ask"),
    }
}

fn append_user(user: Option<u32>, out: &mut Text) -> Result<(), AllocError>
    ensures { OnOk result (out.new ≡ out.old ++ print (user_pieces user)) }
{
    match user {
        Some(id) => out.append_number(u64::from(id)),
        None => Ok(()),
    }
}

fn append_group(group: Option<u32>, out: &mut Text) -> Result<(), AllocError>
    ensures { OnOk result (out.new ≡ out.old ++ print (group_pieces group)) }
{
    match group {
        Some(id) => {
            out.push(b':')?;
            out.append_number(u64::from(id))
        }
        None => Ok(()),
    }
}

fn append_grant(grant: Option<Grant>, out: &mut Text) -> Result<(), AllocError>
    ensures { OnOk result (out.new ≡ out.old ++ print (grant_pieces grant)) }
{
    match grant {
        Some(grant) => {
            out.append(b" as ")?;
            append_user(grant.user, out)?;
            append_group(grant.group, out)
        }
        None => Ok(()),
    }
}

fn append_log(log: bool, out: &mut Text) -> Result<(), AllocError>
    ensures { OnOk result (out.new ≡ out.old ++ print (log_pieces log)) }
{
    if log { out.append(b" log") } else { Ok(()) }
}

fn append_predicate(predicate: Option<Predicate>, out: &mut Text) -> Result<(), AllocError>
    ensures { OnOk result (out.new ≡ out.old ++ print (predicate_pieces predicate)) }
{
    let Some(predicate) = predicate else {
        return Ok(());
    };
    out.append(b", if ")?;
    match predicate.who {
        Who::User => out.append(b"user ")?,
        Who::Group => out.append(b"group ")?,
    }
    match predicate.cmp {
        Cmp::Same => out.append(b"= ")?,
        Cmp::Other => out.append(b"!= ")?,
        Cmp::Below => out.append(b"< ")?,
        Cmp::Above => out.append(b"> ")?,
    }
    out.append_number(u64::from(predicate.id))
}

// A filter's name after the emulation's prefix.
fn word_of_name(name: &FilterName) -> &[u8]
    ensures { result.now ≡ call_word name.now }
{
    match name {
        FilterName::Rule(rule) => rule.word(),
        FilterName::Other(word) => word.bytes(),
    }
}

// Appends a filter's row without its newline.
fn append_filter(filter: &Filter, out: &mut Text, emulation: Emulation) -> Result<(), AllocError>
    ensures { OnOk result (out.new ≡ out.old ++ canon_filter filter.now emulation) }
{
    out.append(emulation.prefix())?;
    out.append(word_of_name(filter.name()))?;
    out.append(b": ")?;
    append_condition(filter.expr(), out)?;
    append_action(filter.action(), out)?;
    append_grant(filter.grant(), out)?;
    append_log(filter.log(), out)?;
    append_predicate(filter.predicate(), out)
}

/// Appends the canonical text of a filter, by the names of an emulation. If memory runs out, the text stays as it was.
pub fn print_filter(
    alloc: Global,
    filter: &Filter,
    out: &mut Text,
    emulation: Emulation,
) -> Result<(), AllocError>
    ensures ok { OnOk result (out.new ≡ out.old ++ canon_filter filter.now emulation) }
    ensures err { OnErr result (out.new ≡ out.old) }
{
    let mut row = Text::new(alloc);
    append_filter(filter, &mut row, emulation)?;
    out.append(row.bytes())
}

// Appends a binary: as a Word if its bytes allow that, otherwise in quotes.
fn append_binary(binary: &[u8], out: &mut Text) -> Result<(), AllocError>
    ensures { OnOk result (out.new ≡ out.old ++ piece_bytes (binary_piece binary.now)) }
{
    if is_word_text(binary) {
        out.append(binary)
    } else {
        quote(binary, out)
    }
}

// Appends what follows the binary in a header's row, with the newline.
fn append_emulation(out: &mut Text, emulation: Emulation) -> Result<(), AllocError>
    ensures { OnOk result (out.new ≡ out.old ++ codes ", Emulation: " ++ word_of emulation ++ codes "\n") }
{
    out.append(b", Emulation: ")?;
    out.append(emulation.word())?;
    out.append(b"\n")
}

// Appends a header's row with its newline.
fn append_header(binary: &[u8], out: &mut Text, emulation: Emulation) -> Result<(), AllocError>
    ensures { OnOk result (out.new ≡ out.old ++ print (row_pieces (header_pieces binary.now emulation))) }
{
    out.append(b"Policy: ")?;
    append_binary(binary, out)?;
    append_emulation(out, emulation)
}

// Appends the rows of filters.
fn append_filters(filters: &Policy, out: &mut Text, emulation: Emulation) -> Result<(), AllocError>
    ensures { OnOk result (out.new ≡ out.old ++ print (rows_pieces filters.now emulation)) }
{
    for filter in filters.as_slice() {
        append_filter(filter, out, emulation)?;
        out.push(b'\n')?;
    }
    Ok(())
}

/// The canonical text of policies, by the names of an emulation: for each a header and its filters in order, each in a row.
pub fn print_policies(
    alloc: Global,
    set: &PolicySet,
    emulation: Emulation,
) -> Result<Text, AllocError>
    ensures { IfOk result (λ text. text ≡ canon set.now emulation) }
{
    let mut out = Text::new(alloc);
    for i in 0..set.len() {
        append_header(set.binary(i), &mut out, emulation)?;
        append_filters(set.policy(i), &mut out, emulation)?;
    }
    Ok(out)
}
