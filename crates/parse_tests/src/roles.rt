//! That the tree of a text has each token in a field of its kind, and that a tree of the same tokens with one of them in
//! another field has not.

use go_ast::{Kind, Token};
use go_parse::parse;
use go_scan::scan;
use go_syntax::{
    Block, Decl, DeclLine, Expr, FileTree, FuncDecl, IfArm, ListedExpr, ListedName, NamedType,
    Param, Params, RangeStmt, ResultForm, Signature, Stmt, StmtLine, TypeExpr, ValueSpec,
};
use std::alloc::Global;
use std::test::Fail;
use tree_roles::has_roles;

/// Texts with the tokens of the trees below.
const TEXTS: &[&str] = &[
    "package p; func f() { a, b = c, d }",
    "package p; func f() { for k := range m {} }",
    "package p; func f() { f(x...) }",
    "package p; func f() { f(x,) }",
    "package p; var a = 1",
    "package p; func f(a ...int) {}",
    "package p; var (a int)",
    "package p; func f() { if ; a {} }",
];

#[test]
fn of_what_is_read(rt: HostRuntime) -> Result<(), Fail> {
    for text in TEXTS {
        assert!(rt; text.len() < 1_000);
        let tokens = scan(rt.alloc(), 0, text.as_bytes())?;
        let tree = parse(rt.alloc(), &tokens)?;
        assert!(rt; has_roles(&tree), "{text}");
    }
    Ok(())
}

const COMMA: Option<Kind> = Some(Kind::Comma);

const ELLIPSIS: Option<Kind> = Some(Kind::Ellipsis);

fn token(kind: Kind) -> Token {
    Token {
        kind,
        start: 0,
        end: 0,
    }
}

fn alone<T: Drop>(alloc: Global, item: T) -> Result<Vec<T>, Fail> {
    let mut items = Vec::new(alloc);
    items.push(item)?;
    Ok(items)
}

/// Whether the tokens of a file with one declaration have their roles.
fn has_decl(alloc: Global, decl: Decl) -> Result<bool, Fail> {
    let line = DeclLine {
        decl,
        semicolon: token(Kind::Inserted),
    };
    let tree = FileTree {
        word: token(Kind::PackageWord),
        name: token(Kind::Name),
        semicolon: token(Kind::Semicolon),
        imports: Vec::new(alloc),
        decls: alone(alloc, line)?,
    };
    Ok(has_roles(&tree))
}

fn block(statements: Vec<StmtLine>) -> Block {
    Block {
        open: token(Kind::OpenBrace),
        statements,
        close: token(Kind::CloseBrace),
    }
}

/// Whether the tokens of a function with these parameters and statements have their roles.
fn has_function(
    alloc: Global,
    params: Vec<Param>,
    statements: Vec<StmtLine>,
) -> Result<bool, Fail> {
    let params = Params {
        open: token(Kind::OpenParen),
        params,
        close: token(Kind::CloseParen),
    };
    let decl = FuncDecl {
        word: token(Kind::FuncWord),
        receiver: None,
        name: token(Kind::Name),
        signature: Signature {
            params,
            result: ResultForm::None,
        },
        body: Some(block(statements)),
    };
    has_decl(alloc, Decl::Func(Box::new(alloc, decl)?))
}

/// Whether the tokens of a function with one statement have their roles.
fn has_stmt(alloc: Global, stmt: Stmt) -> Result<bool, Fail> {
    let line = StmtLine {
        stmt: Some(Box::new(alloc, stmt)?),
        semicolon: None,
    };
    has_function(alloc, Vec::new(alloc), alone(alloc, line)?)
}

fn name(alloc: Global) -> Result<Box<Expr>, Fail> {
    Ok(Box::new(alloc, Expr::Name(token(Kind::Name)))?)
}

/// Names with these tokens behind them.
fn listed(alloc: Global, behind: &[Option<Kind>]) -> Result<Vec<ListedExpr>, Fail> {
    let mut list = Vec::new(alloc);
    for kind in behind {
        list.push(ListedExpr {
            expr: name(alloc)?,
            comma: kind.map(token),
        })?;
    }
    Ok(list)
}

/// Names of these kinds, with no comma behind them.
fn bare_names(alloc: Global, kinds: &[Kind]) -> Result<Vec<ListedName>, Fail> {
    let mut names = Vec::new(alloc);
    for kind in kinds {
        names.push(ListedName {
            name: token(*kind),
            comma: None,
        })?;
    }
    Ok(names)
}

fn named_type(alloc: Global) -> Result<Box<TypeExpr>, Fail> {
    let form = TypeExpr::Name(NamedType::Local(token(Kind::Name)));
    Ok(Box::new(alloc, form)?)
}

/// `a, b = c, d`
fn has_assigned(
    alloc: Global,
    targets: &[Option<Kind>],
    operator: Kind,
    values: &[Option<Kind>],
) -> Result<bool, Fail> {
    let stmt = Stmt::Assign {
        targets: listed(alloc, targets)?,
        operator: token(operator),
        values: listed(alloc, values)?,
    };
    has_stmt(alloc, stmt)
}

/// `for k := range m {}`
fn has_range(alloc: Global, behind: Option<Kind>, operator: Option<Kind>) -> Result<bool, Fail> {
    let stmt = RangeStmt {
        word: token(Kind::ForWord),
        targets: listed(alloc, &[behind])?,
        operator: operator.map(token),
        range: token(Kind::RangeWord),
        operand: name(alloc)?,
        body: block(Vec::new(alloc)),
    };
    has_stmt(alloc, Stmt::Range(Box::new(alloc, stmt)?))
}

#[test]
fn of_lists(rt: HostRuntime) -> Result<(), Fail> {
    let alloc = rt.alloc();
    assert!(rt; has_assigned(alloc, &[COMMA, None], Kind::Assign, &[COMMA, None])?);
    let operator_as_comma = &[COMMA, Some(Kind::Assign), None];
    assert!(rt; !has_assigned(alloc, operator_as_comma, Kind::Comma, &[None])?);
    assert!(rt; has_range(alloc, None, Some(Kind::Define))?);
    assert!(rt; !has_range(alloc, Some(Kind::Define), None)?);
    Ok(())
}

/// `f(x...)` and `f(x,)`
fn has_call(
    alloc: Global,
    behind: Option<Kind>,
    ellipsis: Option<Kind>,
    comma: Option<Kind>,
) -> Result<bool, Fail> {
    let call = Expr::Call {
        callee: name(alloc)?,
        open: token(Kind::OpenParen),
        arguments: listed(alloc, &[behind])?,
        ellipsis: ellipsis.map(token),
        comma: comma.map(token),
        close: token(Kind::CloseParen),
    };
    has_stmt(alloc, Stmt::Expr(Box::new(alloc, call)?))
}

#[test]
fn of_calls(rt: HostRuntime) -> Result<(), Fail> {
    let alloc = rt.alloc();
    assert!(rt; has_call(alloc, None, ELLIPSIS, None)?);
    assert!(rt; !has_call(alloc, ELLIPSIS, None, None)?);
    assert!(rt; has_call(alloc, None, None, COMMA)?);
    assert!(rt; !has_call(alloc, None, COMMA, None)?);
    Ok(())
}

/// `var a = 1`
fn has_value(alloc: Global, kinds: &[Kind], assign: Option<Kind>) -> Result<bool, Fail> {
    let spec = ValueSpec {
        names: bare_names(alloc, kinds)?,
        form: None,
        assign: assign.map(token),
        values: listed(alloc, &[None])?,
        semicolon: None,
    };
    let decl = Decl::Var {
        word: token(Kind::VarWord),
        open: None,
        specs: alone(alloc, spec)?,
        close: None,
    };
    has_decl(alloc, decl)
}

/// `func f(a ...int) {}`
fn has_param(alloc: Global, kinds: &[Kind], ellipsis: Option<Kind>) -> Result<bool, Fail> {
    let param = Param {
        names: bare_names(alloc, kinds)?,
        ellipsis: ellipsis.map(token),
        form: named_type(alloc)?,
        comma: None,
    };
    has_function(alloc, alone(alloc, param)?, Vec::new(alloc))
}

/// `var (a int)`
fn has_group(alloc: Global, semicolon: Option<Kind>, close: Option<Kind>) -> Result<bool, Fail> {
    let spec = ValueSpec {
        names: bare_names(alloc, &[Kind::Name])?,
        form: Some(named_type(alloc)?),
        assign: None,
        values: Vec::new(alloc),
        semicolon: semicolon.map(token),
    };
    let decl = Decl::Var {
        word: token(Kind::VarWord),
        open: Some(token(Kind::OpenParen)),
        specs: alone(alloc, spec)?,
        close: close.map(token),
    };
    has_decl(alloc, decl)
}

#[test]
fn of_declarations(rt: HostRuntime) -> Result<(), Fail> {
    let alloc = rt.alloc();
    assert!(rt; has_value(alloc, &[Kind::Name], Some(Kind::Assign))?);
    assert!(rt; !has_value(alloc, &[Kind::Name, Kind::Assign], None)?);
    assert!(rt; has_param(alloc, &[Kind::Name], ELLIPSIS)?);
    assert!(rt; !has_param(alloc, &[Kind::Name, Kind::Ellipsis], None)?);
    assert!(rt; has_group(alloc, None, Some(Kind::CloseParen))?);
    assert!(rt; !has_group(alloc, Some(Kind::CloseParen), None)?);
    Ok(())
}

/// `if ; a {}`
fn has_arm(
    alloc: Global,
    otherwise: Option<Kind>,
    word: Kind,
    semicolon: Option<Kind>,
) -> Result<bool, Fail> {
    let arm = IfArm {
        else_word: otherwise.map(token),
        word: token(word),
        init: None,
        semicolon: semicolon.map(token),
        condition: name(alloc)?,
        body: block(Vec::new(alloc)),
    };
    let stmt = Stmt::If {
        arms: alone(alloc, arm)?,
        else_word: None,
        otherwise: None,
    };
    has_stmt(alloc, stmt)
}

#[test]
fn of_arms(rt: HostRuntime) -> Result<(), Fail> {
    let alloc = rt.alloc();
    assert!(rt; has_arm(alloc, None, Kind::IfWord, Some(Kind::Semicolon))?);
    assert!(rt; !has_arm(alloc, Some(Kind::IfWord), Kind::Semicolon, None)?);
    Ok(())
}
