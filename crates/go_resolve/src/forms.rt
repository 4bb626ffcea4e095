//! Constant forms, read into nodes: the values of constants and the lengths of arrays. Go specification, "Constant
//! expressions".

use crate::literals::{int_constant, rune_constant, text_value};
use crate::reading::Reader;
use decl_nodes::{
    Arguments, Base, Folded, Found, Imported, Kind, Operator, Sort, Spot, Tie, base_of, exported,
};
use go_ast::Token;
use go_base::{NoMemory, Pos, Rule};
use go_names::Entity;
use go_places::expr_start;
use go_rules::LogicOp;
use go_sources::SourceFile;
use go_syntax::{Expr, ListedExpr, NamedType};
use go_type::{Builtin, CompareOp, Const, ConstOp, UnaryOp};

/// What stands before the arguments of a call.
#[derive(Clone, Copy)]
enum Callee {
    /// A type that has constants, or may have.
    Conversion(usize),
    Fold(Folded),
    /// A name that is not looked at any further, and whether it is a type without constants.
    Alone { node: usize, is_type: bool },
    Other,
}

impl Reader {
    /// The node of a constant form.
    #[cycle(constants)]
    pub fn read_constant(
        &mut self,
        expr: &Expr,
        source: &SourceFile,
        spot: Spot,
    ) -> Result<usize, NoMemory> {
        let start = expr_start(expr);
        match expr {
            Expr::Int(token) => self.read_int(*token, source, spot),
            Expr::Rune(token) => {
                let value = rune_constant(source.text(*token))?;
                self.tables.make(spot, start, Kind::Literal(value), &[])
            }
            Expr::Text(token) => {
                let value = text_value(self.tables.alloc, source.text(*token))?;
                self.tables
                    .make(spot, start, Kind::Literal(Const::Text(value)), &[])
            }
            Expr::Name(token) => self.read_value(*token, source, spot),
            Expr::Selector { operand, name, .. } => match name_in(operand) {
                Some(package) => self.read_qualified_value(package, *name, source, spot),
                None => self.other(spot, start),
            },
            Expr::Paren { inner, .. } => {
                let inner = self.read_constant(inner, source, spot)?;
                self.tables.make(spot, start, Kind::Paren(inner), &[inner])
            }
            Expr::Unary { operator, operand } => match sign_of(*operator) {
                Some(op) => {
                    let operand = self.read_constant(operand, source, spot)?;
                    let kind = Kind::Unary { op, operand };
                    self.tables.make(spot, start, kind, &[operand])
                }
                None => self.other(spot, start),
            },
            Expr::Binary {
                left,
                operator,
                right,
            } => {
                let first = self.read_constant(left, source, spot)?;
                let second = self.read_constant(right, source, spot)?;
                match operator_of(*operator) {
                    Some(op) => {
                        let kind = Kind::Binary { op, first, second };
                        self.tables.make(spot, start, kind, &[first, second])
                    }
                    None => self.other(spot, start),
                }
            }
            Expr::Call {
                callee,
                arguments,
                ellipsis,
                ..
            } => match self.read_callee(callee, source, spot)? {
                Callee::Conversion(to) => {
                    let values = self.read_constants(arguments.as_slice(), source, spot)?;
                    self.conversion(to, values, *ellipsis, start, spot)
                }
                Callee::Fold(by) => {
                    let values = self.read_constants(arguments.as_slice(), source, spot)?;
                    self.fold(by, values, *ellipsis, start, spot)
                }
                Callee::Alone { node, is_type } => self.alone(node, is_type, start, spot),
                Callee::Other => self.other(spot, start),
            },
            _ => self.other(spot, start),
        }
    }

    /// The nodes of arguments.
    #[cycle(constants)]
    fn read_constants(
        &mut self,
        exprs: &[ListedExpr],
        source: &SourceFile,
        spot: Spot,
    ) -> Result<Vec<usize>, NoMemory> {
        let mut nodes = Vec::new(self.tables.alloc);
        for listed in exprs {
            let node = self.read_constant(&listed.expr, source, spot)?;
            nodes.push(node)?;
        }
        Ok(nodes)
    }
}

/// The name that an expression is.
fn name_in(expr: &Expr) -> Option<Token> {
    match expr {
        Expr::Name(token) => Some(*token),
        _ => None,
    }
}

/// An expression without the parentheses round it.
fn bare_expr(expr: &Expr) -> &Expr {
    let mut inside = expr;
    while let Expr::Paren { inner, .. } = inside {
        inside = inner;
    }
    inside
}

/// An operator on one constant: none for `+`. None where it makes no constants.
fn sign_of(operator: Token) -> Option<Option<UnaryOp>> {
    match operator.kind {
        go_ast::Kind::Plus => Some(None),
        go_ast::Kind::Minus => Some(Some(UnaryOp::Negate)),
        go_ast::Kind::Caret => Some(Some(UnaryOp::Complement)),
        go_ast::Kind::Not => Some(Some(UnaryOp::Not)),
        _ => None,
    }
}

/// An operator on two constants.
fn operator_of(operator: Token) -> Option<Operator> {
    Some(match operator.kind {
        go_ast::Kind::Plus => Operator::Arithmetic(ConstOp::Add),
        go_ast::Kind::Minus => Operator::Arithmetic(ConstOp::Sub),
        go_ast::Kind::Star => Operator::Arithmetic(ConstOp::Mul),
        go_ast::Kind::Slash => Operator::Arithmetic(ConstOp::Div),
        go_ast::Kind::Percent => Operator::Arithmetic(ConstOp::Rem),
        go_ast::Kind::Ampersand => Operator::Arithmetic(ConstOp::And),
        go_ast::Kind::Pipe => Operator::Arithmetic(ConstOp::Or),
        go_ast::Kind::Caret => Operator::Arithmetic(ConstOp::Xor),
        go_ast::Kind::AndNot => Operator::Arithmetic(ConstOp::AndNot),
        go_ast::Kind::ShiftLeft => Operator::Shift(true),
        go_ast::Kind::ShiftRight => Operator::Shift(false),
        go_ast::Kind::AndAnd => Operator::Logic(LogicOp::And),
        go_ast::Kind::OrOr => Operator::Logic(LogicOp::Or),
        go_ast::Kind::Equal => Operator::Comparison(CompareOp::Equal),
        go_ast::Kind::NotEqual => Operator::Comparison(CompareOp::NotEqual),
        go_ast::Kind::Less => Operator::Comparison(CompareOp::Less),
        go_ast::Kind::LessEqual => Operator::Comparison(CompareOp::LessEqual),
        go_ast::Kind::Greater => Operator::Comparison(CompareOp::Greater),
        go_ast::Kind::GreaterEqual => Operator::Comparison(CompareOp::GreaterEqual),
        _ => return None,
    })
}

impl Reader {
    /// A part of another form.
    fn other(&mut self, spot: Spot, start: u32) -> Result<usize, NoMemory> {
        self.tables.make_bad(spot, start, Rule::NotAConstant, None)
    }

    fn read_int(
        &mut self,
        token: Token,
        source: &SourceFile,
        spot: Spot,
    ) -> Result<usize, NoMemory> {
        match int_constant(source.text(token))? {
            Some(value) => self
                .tables
                .make(spot, token.start, Kind::Literal(value), &[]),
            None => self
                .tables
                .make_bad(spot, token.start, Rule::ConstantOutOfRange, None),
        }
    }

    /// The node of a name where a constant stands.
    fn read_value(
        &mut self,
        token: Token,
        source: &SourceFile,
        spot: Spot,
    ) -> Result<usize, NoMemory> {
        let name = self.tables.name(source, token)?;
        if name == self.tables.known.blank {
            return self
                .tables
                .make_bad(spot, token.start, Rule::WrongKindOfName, None);
        }
        match self.tables.find(spot, name) {
            Found::Nothing => self
                .tables
                .make_bad(spot, token.start, Rule::Undefined, None),
            Found::Import(import) => {
                self.tables
                    .make_bad(spot, token.start, Rule::WrongKindOfName, import.node)
            }
            Found::Declared(target) => self.value(target, token.start, spot),
            Found::Universe(entity) => self.universe_value(entity, token.start, spot),
        }
    }

    /// The node of a name of what is declared, where a constant stands.
    fn value(&mut self, target: usize, start: u32, spot: Spot) -> Result<usize, NoMemory> {
        match self.tables.sort(target) {
            Some(Sort::Constant) => self
                .tables
                .make(spot, start, Kind::Value(target), &[target]),
            Some(Sort::Defined | Sort::Alias) => {
                self.tie(target, spot)?;
                self.tables
                    .make_bad(spot, start, Rule::WrongKindOfName, Some(target))
            }
            _ => self
                .tables
                .make_bad(spot, start, Rule::NotAConstant, Some(target)),
        }
    }

    fn universe_value(
        &mut self,
        entity: Entity,
        start: u32,
        spot: Spot,
    ) -> Result<usize, NoMemory> {
        match entity {
            Entity::Truth(truth) => {
                self.tables
                    .make(spot, start, Kind::Literal(Const::Truth(truth)), &[])
            }
            Entity::Iota => match spot.iota {
                Some(iota) => self
                    .tables
                    .make(spot, start, Kind::Literal(Const::Int(iota)), &[]),
                None => self.tables.make_bad(spot, start, Rule::Undefined, None),
            },
            Entity::TypeName(_) => {
                self.tables
                    .make_bad(spot, start, Rule::WrongKindOfName, None)
            }
            _ => self.tables.make_bad(spot, start, Rule::NotAConstant, None),
        }
    }

    /// The node of `p.n` where a constant stands.
    fn read_qualified_value(
        &mut self,
        package: Token,
        token: Token,
        source: &SourceFile,
        spot: Spot,
    ) -> Result<usize, NoMemory> {
        let name = self.tables.name(source, package)?;
        if name == self.tables.known.blank {
            return self
                .tables
                .make_bad(spot, package.start, Rule::WrongKindOfName, None);
        }
        match self.tables.find(spot, name) {
            Found::Nothing => self
                .tables
                .make_bad(spot, package.start, Rule::Undefined, None),
            Found::Import(import) => {
                self.tables.mention(spot, package.start, import)?;
                let node = match exported(&mut self.tables, source, import.package, token)? {
                    Found::Declared(target) => self.value(target, package.start, spot)?,
                    _ => self
                        .tables
                        .make_bad(spot, token.start, Rule::Undefined, None)?,
                };
                self.stand_on_import(node, import)?;
                Ok(node)
            }
            _ => self.other(spot, package.start),
        }
    }

    fn stand_on_import(&mut self, node: usize, import: Imported) -> Result<(), NoMemory> {
        if let Some(on) = import.node {
            self.tables.nodes.stand(node, on)?;
        }
        Ok(())
    }

    /// What stands before the arguments of a call.
    fn read_callee(
        &mut self,
        callee: &Expr,
        source: &SourceFile,
        spot: Spot,
    ) -> Result<Callee, NoMemory> {
        match bare_expr(callee) {
            Expr::Name(token) => self.read_called(*token, source, spot),
            Expr::Selector { operand, dot, name } => match name_in(operand) {
                Some(package) => {
                    let named = NamedType::Imported {
                        package,
                        dot: *dot,
                        name: *name,
                    };
                    self.read_qualified_called(named, package, *name, source, spot)
                }
                None => Ok(Callee::Other),
            },
            _ => Ok(Callee::Other),
        }
    }

    /// What a name before arguments is.
    fn read_called(
        &mut self,
        token: Token,
        source: &SourceFile,
        spot: Spot,
    ) -> Result<Callee, NoMemory> {
        let name = self.tables.name(source, token)?;
        if name == self.tables.known.blank {
            return self.alone_name(NamedType::Local(token), source, spot);
        }
        match self.tables.find(spot, name) {
            Found::Nothing | Found::Import(_) => {
                self.alone_name(NamedType::Local(token), source, spot)
            }
            Found::Declared(target) => {
                self.declared_called(target, NamedType::Local(token), source, spot)
            }
            Found::Universe(Entity::TypeName(of)) => {
                let node = self.read_name(NamedType::Local(token), source, spot, false)?;
                Ok(called_type(node, base_of(&self.tables.types, of)))
            }
            Found::Universe(Entity::Builtin(builtin)) => Ok(called_builtin(builtin)),
            Found::Universe(_) => Ok(Callee::Other),
        }
    }

    fn alone_name(
        &mut self,
        name: NamedType,
        source: &SourceFile,
        spot: Spot,
    ) -> Result<Callee, NoMemory> {
        let node = self.read_name(name, source, spot, false)?;
        Ok(Callee::Alone {
            node,
            is_type: false,
        })
    }

    fn declared_called(
        &mut self,
        target: usize,
        name: NamedType,
        source: &SourceFile,
        spot: Spot,
    ) -> Result<Callee, NoMemory> {
        match self.tables.sort(target) {
            Some(Sort::Defined | Sort::Alias) => {
                let node = self.read_name(name, source, spot, false)?;
                let fact = self.facts.as_slice().get(target).copied();
                Ok(called_type(node, fact.map_or(Base::Unknown, |fact| fact.base)))
            }
            _ => Ok(Callee::Other),
        }
    }

    fn read_qualified_called(
        &mut self,
        named: NamedType,
        package: Token,
        token: Token,
        source: &SourceFile,
        spot: Spot,
    ) -> Result<Callee, NoMemory> {
        let name = self.tables.name(source, package)?;
        match self.tables.find(spot, name) {
            Found::Nothing => self.alone_name(named, source, spot),
            Found::Import(import) => {
                match exported(&mut self.tables, source, import.package, token)? {
                    Found::Declared(target) => self.declared_called(target, named, source, spot),
                    _ => self.alone_name(named, source, spot),
                }
            }
            _ => Ok(Callee::Other),
        }
    }

    /// A name of a type is in the declaration of a type.
    fn tie(&mut self, target: usize, spot: Spot) -> Result<(), NoMemory> {
        if let Some(owner) = spot.owner {
            self.tables.ties.push(Tie {
                owner,
                target,
                embedded: false,
            })?;
        }
        Ok(())
    }

    fn alone(
        &mut self,
        node: usize,
        is_type: bool,
        start: u32,
        spot: Spot,
    ) -> Result<usize, NoMemory> {
        if is_type {
            self.tables
                .make_bad(spot, start, Rule::NotAConstant, Some(node))
        } else {
            self.tables.make(spot, start, Kind::Plain, &[node])
        }
    }

    fn conversion(
        &mut self,
        to: usize,
        values: Vec<usize>,
        dots: Option<Token>,
        start: u32,
        spot: Spot,
    ) -> Result<usize, NoMemory> {
        let node = self.tables.make(spot, start, Kind::Plain, &[to])?;
        self.tables.nodes.stand_all(node, values.as_slice())?;
        let arguments = self.arguments(values, dots, start, spot);
        if arguments.values.len() != 1 {
            let rule = Rule::WrongNumberOfValues;
            self.tables
                .violations
                .push_at(&self.tables.nodes, node, arguments.at, rule)?;
        }
        self.tables
            .nodes
            .set(node, Kind::Conversion { to, arguments });
        Ok(node)
    }

    fn fold(
        &mut self,
        by: Folded,
        values: Vec<usize>,
        dots: Option<Token>,
        start: u32,
        spot: Spot,
    ) -> Result<usize, NoMemory> {
        let node = self
            .tables
            .make(spot, start, Kind::Plain, values.as_slice())?;
        let arguments = self.arguments(values, dots, start, spot);
        let count = arguments.values.len();
        if count == 0 || (by == Folded::Length && count != 1) {
            let rule = Rule::WrongNumberOfValues;
            self.tables
                .violations
                .push_at(&self.tables.nodes, node, arguments.at, rule)?;
        }
        self.tables.nodes.set(node, Kind::Fold { by, arguments });
        Ok(node)
    }

    fn arguments(
        &self,
        values: Vec<usize>,
        dots: Option<Token>,
        start: u32,
        spot: Spot,
    ) -> Arguments {
        let at = match values.as_slice().first() {
            Some(first) => match self.tables.nodes.get(*first) {
                Some(node) => node.at,
                None => spot.at(start),
            },
            None => spot.at(start),
        };
        Arguments {
            values,
            dots: dots_at(dots, spot),
            at,
        }
    }
}

fn dots_at(dots: Option<Token>, spot: Spot) -> Option<Pos> {
    match dots {
        Some(dots) => Some(spot.at(dots.start)),
        None => None,
    }
}

fn called_type(node: usize, base: Base) -> Callee {
    match base {
        Base::Other => Callee::Alone {
            node,
            is_type: true,
        },
        Base::Basic(_) | Base::Unknown => Callee::Conversion(node),
    }
}

fn called_builtin(builtin: Builtin) -> Callee {
    match builtin {
        Builtin::Len => Callee::Fold(Folded::Length),
        Builtin::Min => Callee::Fold(Folded::Least),
        Builtin::Max => Callee::Fold(Folded::Greatest),
        _ => Callee::Other,
    }
}
