//! Expressions. Go specification, "Expressions".

ghost use Rattle.std.specs.Prelude.{◌≡◌, map};
ghost use Rattle.tree_roles.specs.Roles.{roles_of_element, roles_of_expr, roles_of_listed_expr};
ghost use Rattle.tree_roles.specs.Tokens.{held_by, in_turn};

use crate::stmts::has_block_roles;
use crate::tokens::{
    are_braces, are_brackets, are_call_marks, are_full_slice_marks, are_parens, are_slice_marks,
    ends_item, is, is_between, is_binary, is_if, is_sign,
};
use crate::types::{has_signature_roles, has_type_roles, has_type_roles_if};
use go_ast::Kind;
use go_syntax::{Element, Expr, ListedExpr};
use std::alloc::Global;

#[cycle(roles)]
#[tactic(auto, using(crate::proofs::Forms::expr_forms))]
pub fn has_expr_roles(expr: &Expr) -> bool
    ensures { result ≡ roles_of_expr expr.now }
{
    match expr {
        Expr::Int(token) => is(*token, Kind::Int),
        Expr::Rune(token) => is(*token, Kind::Rune),
        Expr::Text(token) => is(*token, Kind::Text),
        Expr::Name(token) => is(*token, Kind::Name),
        Expr::Paren { open, inner, close } => are_parens(*open, *close) & has_expr_roles(inner),
        Expr::Function {
            word,
            signature,
            body,
        } => { is(*word, Kind::FuncWord) & has_signature_roles(signature) & has_block_roles(body) }
        Expr::TypeForm(form) => has_type_roles(form),
        Expr::Composite {
            form,
            open,
            elements,
            close,
        } => { has_type_roles_if(form) & are_braces(*open, *close) & have_element_roles(elements) }
        Expr::Selector { operand, dot, name } => {
            has_expr_roles(operand) & is(*dot, Kind::Dot) & is(*name, Kind::Name)
        }
        Expr::Assertion {
            operand,
            dot,
            open,
            form,
            close,
        } => {
            has_expr_roles(operand)
                & is(*dot, Kind::Dot)
                & are_parens(*open, *close)
                & has_type_roles(form)
        }
        Expr::Index {
            operand,
            open,
            index,
            close,
        } => { has_expr_roles(operand) & are_brackets(*open, *close) & has_expr_roles(index) }
        Expr::Slice {
            operand,
            open,
            low,
            colon,
            high,
            close,
        } => {
            has_expr_roles(operand)
                & are_slice_marks(*open, *colon, *close)
                & has_expr_roles_if(low)
                & has_expr_roles_if(high)
        }
        Expr::FullSlice {
            operand,
            open,
            low,
            colon,
            high,
            second_colon,
            max,
            close,
        } => {
            has_expr_roles(operand)
                & are_full_slice_marks(*open, *colon, *second_colon, *close)
                & (has_expr_roles_if(low) & has_expr_roles(high) & has_expr_roles(max))
        }
        Expr::Call {
            callee,
            open,
            arguments,
            ellipsis,
            comma,
            close,
        } => {
            has_expr_roles(callee)
                & are_call_marks(*open, *ellipsis, *comma, *close)
                & have_expr_roles(arguments)
        }
        Expr::Unary { operator, operand } => is_sign(*operator) & has_expr_roles(operand),
        Expr::Binary {
            left,
            operator,
            right,
        } => { has_expr_roles(left) & is_binary(*operator) & has_expr_roles(right) }
    }
}

/// Whether an expression is left out, or its tokens have their roles.
#[cycle(roles)]
pub fn has_expr_roles_if(expr: &Option<Box<Expr>>) -> bool
    ensures { result ≡ held_by roles_of_expr expr.now }
{
    match expr {
        Some(expr) => has_expr_roles(expr),
        None => true,
    }
}

#[cycle(roles)]
pub fn have_expr_roles(exprs: &[ListedExpr]) -> bool
    ensures { result ≡ in_turn (map roles_of_listed_expr exprs.now) }
{
    for (index, listed) in exprs.iter().enumerate() {
        if !has_listed_roles(listed, index + 1 < exprs.len()) {
            return false;
        }
    }
    true
}

#[cycle(roles)]
#[tactic(auto, using(crate::proofs::Forms::expr_forms))]
fn has_listed_roles(listed: &ListedExpr, more: bool) -> bool
    ensures { result ≡ roles_of_listed_expr listed.now more }
{
    has_expr_roles(&listed.expr) & is_between(listed.comma, more)
}

#[cycle(roles)]
fn have_element_roles(elements: &[Element]) -> bool
    ensures { result ≡ in_turn (map roles_of_element elements.now) }
{
    for (index, element) in elements.iter().enumerate() {
        if !has_element_roles(element, index + 1 < elements.len()) {
            return false;
        }
    }
    true
}

#[cycle(roles)]
#[tactic(auto, using(crate::proofs::Forms::expr_forms))]
fn has_element_roles(element: &Element, more: bool) -> bool
    ensures { result ≡ roles_of_element element.now more }
{
    has_expr_roles_if(&element.key)
        & is_if(element.colon, Kind::Colon)
        & has_expr_roles(&element.value)
        & ends_item(element.comma, more)
}
