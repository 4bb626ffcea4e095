//! Declarations, signatures and parameters, put together of the parts that were read.

ghost use Rattle.std.specs.Prelude.{◌≡◌, ◌∷◌, [], IfOk, IfErr, Some};
ghost use Rattle.go_grammar.specs.Forests.{append, empty, leaf};
ghost use Rattle.go_grammar.specs.Forests as forms;
ghost use Rattle.go_grammar.specs.TypeReading.{type_name_in};
ghost use Rattle.go_grammar.specs.View.{view_func_decl, view_type_spec, view_value_spec, view_listed_name, view_type_expr, view_param, view_params, view_result_form, view_signature, view_block, each, if_some, token_if, tree, one};
ghost use Rattle.go_fragments.specs.Giving.{Gives};
ghost use Rattle.go_fragments.specs.Specs.{view_values, view_named_form, receiver_name_in};
ghost use Rattle.go_fragments.specs.declared.stop.Stop.TheVariants as stops;

use crate::boxes::boxed;
use crate::groups::param_name;
use crate::stop::Stop;
use crate::tokens::type_name;
use go_ast::Token;
use go_syntax::{
    Block, FuncDecl, ListedExpr, ListedName, Param, Params, ResultForm, Signature, TypeExpr,
    TypeSpec, ValueSpec,
};
use std::alloc::Global;

/// One item and no other.
pub fn alone<T: Drop>(alloc: Global, item: T) -> Result<Vec<T>, Stop>
    ensures listed { IfOk result (λ x. x.items ≡ item ∷ []) }
    ensures memory { IfErr result (λ stop. stop ≡ stops.Memory) }
{
    let mut items = Vec::with_capacity(alloc, 1)?;
    items.push(item)?;
    Ok(items)
}

/// A function of its parts.
#[tactic(auto, using(go_grammar::proofs::Views::view_func_decl_made))]
pub fn func_of(
    word: Token,
    receiver: Option<Params>,
    name: Token,
    signature: Signature,
    body: Option<Block>,
) -> FuncDecl
    ensures { view_func_decl result ≡ tree forms.FuncForm (append (one word) (append (if_some view_params receiver) (append (one name) (append (view_signature signature) (if_some view_block body))))) }
{
    FuncDecl {
        word,
        receiver,
        name,
        signature,
        body,
    }
}

/// The name of a receiver, where it has one.
pub fn receiver_name(tokens: &[Token]) -> (Option<Token>, &[Token])
    ensures { receiver_name_in tokens.now ≡ Some (token_if result.0, result.1.now) }
{
    param_name(tokens)
}

/// A list of one name, or of none.
pub fn listed_names(alloc: Global, name: Option<Token>) -> Result<Vec<ListedName>, Stop>
    ensures listed { IfOk result (λ x. each view_listed_name x.items ≡ token_if name) }
    ensures memory { IfErr result (λ stop. stop ≡ stops.Memory) }
{
    match name {
        Some(name) => alone(alloc, ListedName { name, comma: None }),
        None => Ok(Vec::new(alloc)),
    }
}

/// A parameter that is not variadic.
#[tactic(auto, using(go_grammar::proofs::Views::view_param_made))]
pub fn receiver_param(names: Vec<ListedName>, form: Box<TypeExpr>, comma: Option<Token>) -> Param
    ensures { view_param result ≡ append (tree forms.ParamForm (append (each view_listed_name names.items) (view_type_expr form.value))) (token_if comma) }
{
    Param {
        names,
        ellipsis: None,
        form,
        comma,
    }
}

/// Names of constants or variables with their type and values.
#[derive(Drop)]
pub struct ValueParts {
    pub names: Vec<ListedName>,
    pub form: Option<Box<TypeExpr>>,
    pub assign: Option<Token>,
    pub values: Vec<ListedExpr>,
}

/// The specification, with the semicolon behind it.
#[tactic(auto, using(go_grammar::proofs::Views::view_value_spec_made))]
pub fn value_spec_of(spec: ValueParts, semicolon: Option<Token>) -> ValueSpec
    ensures { view_value_spec result ≡ append (view_values spec) (token_if semicolon) }
{
    ValueSpec {
        names: spec.names,
        form: spec.form,
        assign: spec.assign,
        values: spec.values,
        semicolon,
    }
}

/// A name and its type, with `=` where it is an alias.
#[derive(Drop)]
pub struct NamedForm {
    pub name: Token,
    pub assign: Option<Token>,
    pub form: Box<TypeExpr>,
}

/// The specification, with the semicolon behind it.
#[tactic(auto, using(go_grammar::proofs::Views::view_type_spec_made))]
pub fn type_spec_of(spec: NamedForm, semicolon: Option<Token>) -> TypeSpec
    ensures { view_type_spec result ≡ append (view_named_form spec) (token_if semicolon) }
{
    TypeSpec {
        name: spec.name,
        assign: spec.assign,
        form: spec.form,
        semicolon,
    }
}

/// A name of a type.
#[tactic(auto, using(go_grammar::proofs::Views::view_type_expr_name))]
pub fn named_type(alloc: Global, tokens: &[Token]) -> Result<(Box<TypeExpr>, &[Token]), Stop>
    ensures { Gives (λ x. (view_type_expr x.0.value, x.1.now)) result (type_name_in tokens.now) }
{
    let Some((name, rest)) = type_name(tokens) else {
        return Err(Stop::Unexpected);
    };
    Ok((boxed(alloc, TypeExpr::Name(name))?, rest))
}

/// A signature of its parts.
#[tactic(auto, using(go_grammar::proofs::Views::view_signature_made))]
pub fn signature_of(params: Params, results: ResultForm) -> Signature
    ensures { view_signature result ≡ tree forms.SignatureForm (append (view_params params) (view_result_form results)) }
{
    Signature {
        params,
        result: results,
    }
}

/// Parameters in their parentheses.
#[tactic(auto, using(go_grammar::proofs::Views::view_params_made))]
pub fn params_of(bracket: Token, params: Vec<Param>, close: Token) -> Params
    ensures { view_params result ≡ tree forms.ParamsForm (append (leaf bracket empty) (append (each view_param params.items) (leaf close empty))) }
{
    Params {
        open: bracket,
        params,
        close,
    }
}
