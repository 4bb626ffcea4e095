//! Types and signatures. Go specification, "Types".

ghost use Rattle.std.specs.Prelude.{◌≡◌, map};
ghost use Rattle.tree_roles.specs.Roles.{roles_of_element_line, roles_of_field_line, roles_of_param, roles_of_params, roles_of_result_form, roles_of_signature, roles_of_type_expr};
ghost use Rattle.tree_roles.specs.Tokens.{given_by, held_by, in_turn};

use crate::exprs::has_expr_roles;
use crate::tokens::{
    are_braces, are_brackets, are_names, are_parens, ends_item, ends_line, is, is_if, is_named,
    is_semicolon,
};
use go_ast::Kind;
use go_syntax::{ElementLine, FieldLine, Param, Params, ResultForm, Signature, TypeExpr};
use std::alloc::Global;

#[cycle(roles)]
#[tactic(auto, using(crate::proofs::Forms::type_forms))]
pub fn has_type_roles(form: &TypeExpr) -> bool
    ensures { result ≡ roles_of_type_expr form.now }
{
    match form {
        TypeExpr::Name(name) => is_named(*name),
        TypeExpr::Paren { open, inner, close } => are_parens(*open, *close) & has_type_roles(inner),
        TypeExpr::Pointer { star, base } => is(*star, Kind::Star) & has_type_roles(base),
        TypeExpr::Slice {
            open,
            close,
            element,
        } => are_brackets(*open, *close) & has_type_roles(element),
        TypeExpr::Array {
            open,
            length,
            close,
            element,
        } => { are_brackets(*open, *close) & has_expr_roles(length) & has_type_roles(element) }
        TypeExpr::OpenArray {
            open,
            ellipsis,
            close,
            element,
        } => {
            are_brackets(*open, *close) & is(*ellipsis, Kind::Ellipsis) & has_type_roles(element)
        }
        TypeExpr::Map {
            word,
            open,
            key,
            close,
            element,
        } => {
            is(*word, Kind::MapWord)
                & are_brackets(*open, *close)
                & has_type_roles(key)
                & has_type_roles(element)
        }
        TypeExpr::Chan {
            word,
            arrow,
            element,
        } => { is(*word, Kind::ChanWord) & is_if(*arrow, Kind::Arrow) & has_type_roles(element) }
        TypeExpr::ReceiveChan {
            arrow,
            word,
            element,
        } => { is(*arrow, Kind::Arrow) & is(*word, Kind::ChanWord) & has_type_roles(element) }
        TypeExpr::Function { word, signature } => is(*word, Kind::FuncWord)
            & has_signature_roles(signature),
        TypeExpr::Struct {
            word,
            open,
            fields,
            close,
        } => { is(*word, Kind::StructWord) & are_braces(*open, *close) & have_field_roles(fields) }
        TypeExpr::Interface {
            word,
            open,
            elements,
            close,
        } => {
            is(*word, Kind::InterfaceWord)
                & are_braces(*open, *close)
                & have_element_roles(elements)
        }
    }
}

/// Whether a type is left out, or its tokens have their roles.
#[cycle(roles)]
pub fn has_type_roles_if(form: &Option<Box<TypeExpr>>) -> bool
    ensures { result ≡ held_by roles_of_type_expr form.now }
{
    match form {
        Some(form) => has_type_roles(form),
        None => true,
    }
}

#[cycle(roles)]
#[tactic(auto, using(crate::proofs::Forms::type_forms))]
pub fn has_signature_roles(signature: &Signature) -> bool
    ensures { result ≡ roles_of_signature signature.now }
{
    has_params_roles(&signature.params) & has_result_roles(&signature.result)
}

#[cycle(roles)]
#[tactic(auto, using(crate::proofs::Forms::type_forms))]
fn has_result_roles(result_form: &ResultForm) -> bool
    ensures { result ≡ roles_of_result_form result_form.now }
{
    match result_form {
        ResultForm::None => true,
        ResultForm::Params(params) => has_params_roles(params),
        ResultForm::TypeForm(form) => has_type_roles(form),
    }
}

#[cycle(roles)]
#[tactic(auto, using(crate::proofs::Forms::type_forms))]
fn has_params_roles(params: &Params) -> bool
    ensures { result ≡ roles_of_params params.now }
{
    are_parens(params.open, params.close) & have_param_roles(&params.params)
}

/// Whether a receiver is left out, or its tokens have their roles.
#[cycle(roles)]
pub fn has_receiver_roles(receiver: &Option<Params>) -> bool
    ensures { result ≡ given_by roles_of_params receiver.now }
{
    match receiver {
        Some(params) => has_params_roles(params),
        None => true,
    }
}

#[cycle(roles)]
fn have_param_roles(params: &[Param]) -> bool
    ensures { result ≡ in_turn (map roles_of_param params.now) }
{
    for (index, param) in params.iter().enumerate() {
        if !has_param_roles(param, index + 1 < params.len()) {
            return false;
        }
    }
    true
}

#[cycle(roles)]
#[tactic(auto, using(crate::proofs::Forms::type_forms))]
fn has_param_roles(param: &Param, more: bool) -> bool
    ensures { result ≡ roles_of_param param.now more }
{
    are_names(&param.names)
        & is_if(param.ellipsis, Kind::Ellipsis)
        & has_type_roles(&param.form)
        & ends_item(param.comma, more)
}

#[cycle(roles)]
fn have_field_roles(fields: &[FieldLine]) -> bool
    ensures { result ≡ in_turn (map roles_of_field_line fields.now) }
{
    for (index, line) in fields.iter().enumerate() {
        if !has_field_roles(line, index + 1 < fields.len()) {
            return false;
        }
    }
    true
}

#[cycle(roles)]
#[tactic(auto, using(crate::proofs::Forms::type_forms))]
fn has_field_roles(line: &FieldLine, more: bool) -> bool
    ensures { result ≡ roles_of_field_line line.now more }
{
    match line {
        FieldLine::Empty(token) => is_semicolon(*token),
        FieldLine::Named {
            names,
            form,
            tag,
            semicolon,
        } => {
            are_names(names)
                & has_type_roles(form)
                & is_if(*tag, Kind::Text)
                & ends_line(*semicolon, more)
        }
        FieldLine::Embedded {
            star,
            name,
            tag,
            semicolon,
        } => {
            is_if(*star, Kind::Star)
                & is_named(*name)
                & is_if(*tag, Kind::Text)
                & ends_line(*semicolon, more)
        }
    }
}

#[cycle(roles)]
fn have_element_roles(elements: &[ElementLine]) -> bool
    ensures { result ≡ in_turn (map roles_of_element_line elements.now) }
{
    for (index, line) in elements.iter().enumerate() {
        if !has_element_roles(line, index + 1 < elements.len()) {
            return false;
        }
    }
    true
}

#[cycle(roles)]
#[tactic(auto, using(crate::proofs::Forms::type_forms))]
fn has_element_roles(line: &ElementLine, more: bool) -> bool
    ensures { result ≡ roles_of_element_line line.now more }
{
    match line {
        ElementLine::Empty(token) => is_semicolon(*token),
        ElementLine::Method {
            name,
            signature,
            semicolon,
        } => {
            is(*name, Kind::Name) & has_signature_roles(signature) & ends_line(*semicolon, more)
        }
        ElementLine::Embedded { name, semicolon } => is_named(*name) & ends_line(*semicolon, more),
    }
}
