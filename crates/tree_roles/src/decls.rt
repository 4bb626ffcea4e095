//! Declarations. Go specification, "Declarations and scope".

ghost use Rattle.std.specs.Prelude.{◌≡◌, map};
ghost use Rattle.go_ast.specs.declared.token.Kind.{Kind};
ghost use Rattle.tree_roles.specs.Roles.{roles_of_decl, roles_of_func_decl, roles_of_type_spec, roles_of_value_spec};
ghost use Rattle.tree_roles.specs.Tokens.{group, in_turn};

use crate::exprs::have_expr_roles;
use crate::stmts::has_body_roles;
use crate::tokens::{are_names, ends_line, is, is_if};
use crate::types::{has_receiver_roles, has_signature_roles, has_type_roles, has_type_roles_if};
use go_ast::{Kind, Token};
use go_syntax::{Decl, FuncDecl, TypeSpec, ValueSpec};
use std::alloc::Global;

#[cycle(roles)]
#[tactic(auto, using(crate::proofs::Forms::decl_forms))]
pub fn has_decl_roles(decl: &Decl) -> bool
    ensures { result ≡ roles_of_decl decl.now }
{
    match decl {
        Decl::Const {
            word,
            open,
            specs,
            close,
        } => {
            is(*word, Kind::ConstWord)
                & is_if(*open, Kind::OpenParen)
                & have_value_roles(specs)
                & is_if(*close, Kind::CloseParen)
        }
        Decl::TypeDecl {
            word,
            open,
            specs,
            close,
        } => {
            is(*word, Kind::TypeWord)
                & is_if(*open, Kind::OpenParen)
                & have_type_spec_roles(specs)
                & is_if(*close, Kind::CloseParen)
        }
        Decl::Var {
            word,
            open,
            specs,
            close,
        } => {
            is(*word, Kind::VarWord)
                & is_if(*open, Kind::OpenParen)
                & have_value_roles(specs)
                & is_if(*close, Kind::CloseParen)
        }
        Decl::Func(func) => has_func_roles(func),
    }
}

#[cycle(roles)]
fn have_value_roles(specs: &[ValueSpec]) -> bool
    ensures { result ≡ in_turn (map roles_of_value_spec specs.now) }
{
    for (index, spec) in specs.iter().enumerate() {
        if !has_value_roles(spec, index + 1 < specs.len()) {
            return false;
        }
    }
    true
}

#[cycle(roles)]
#[tactic(auto, using(crate::proofs::Forms::decl_forms))]
fn has_value_roles(spec: &ValueSpec, more: bool) -> bool
    ensures { result ≡ roles_of_value_spec spec.now more }
{
    are_names(&spec.names)
        & has_type_roles_if(&spec.form)
        & is_if(spec.assign, Kind::Assign)
        & have_expr_roles(&spec.values)
        & ends_line(spec.semicolon, more)
}

#[cycle(roles)]
fn have_type_spec_roles(specs: &[TypeSpec]) -> bool
    ensures { result ≡ in_turn (map roles_of_type_spec specs.now) }
{
    for (index, spec) in specs.iter().enumerate() {
        if !has_type_spec_roles(spec, index + 1 < specs.len()) {
            return false;
        }
    }
    true
}

#[cycle(roles)]
#[tactic(auto, using(crate::proofs::Forms::decl_forms))]
fn has_type_spec_roles(spec: &TypeSpec, more: bool) -> bool
    ensures { result ≡ roles_of_type_spec spec.now more }
{
    is(spec.name, Kind::Name)
        & is_if(spec.assign, Kind::Assign)
        & has_type_roles(&spec.form)
        & ends_line(spec.semicolon, more)
}

#[cycle(roles)]
#[tactic(auto, using(crate::proofs::Forms::decl_forms))]
fn has_func_roles(func: &FuncDecl) -> bool
    ensures { result ≡ roles_of_func_decl func.now }
{
    is(func.word, Kind::FuncWord)
        & has_receiver_roles(&func.receiver)
        & is(func.name, Kind::Name)
        & has_signature_roles(&func.signature)
        & has_body_roles(&func.body)
}
