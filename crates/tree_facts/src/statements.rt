//! The variables whose address, or that of a part, is taken in statements, or of which a part is assigned.

ghost use Rattle.std.specs.Prelude.{◌≡◌, flat_map, None, OnOk, OnErr};
ghost use Rattle.tree_facts.specs.Roots.{taken, taken_values};
ghost use Rattle.tree_facts.specs.Search.{searched};
ghost use Rattle.tree_facts.specs.Statements as statement;

use crate::places::part_root;
use crate::roots::Roots;
use go_base::NoMemory;
use go_tree::{
    Comm, RangeTargets, ReceiveInto, SelectClause, Target, TypeClause, TypedArm, TypedBlock,
    TypedCase, TypedClause, TypedExpr, TypedStmt, Values,
};

impl Roots {
    /// Those of a block.
    #[tactic(auto, using(crate::proofs::Searching::searches, crate::proofs::StatementForms::stmt_forms))]
    #[cycle(statement_roots)]
    pub fn in_block(&mut self, block: &TypedBlock) -> Result<(), NoMemory>
        ensures ok { OnOk result (self.new ≡ searched self.old (statement.roots_in_block block.now)) }
        ensures memory { OnErr result (self.old.wanted ≡ None) }
    {
        self.in_statements(&block.statements)
    }

    #[tactic(auto, using(crate::proofs::Searching::searches, crate::proofs::StatementForms::stmt_forms))]
    #[cycle(statement_roots)]
    fn in_statements(&mut self, statements: &[TypedStmt]) -> Result<(), NoMemory>
        ensures ok { OnOk result (self.new ≡ searched self.old (flat_map statement.roots_in_stmt statements.now)) }
        ensures memory { OnErr result (self.old.wanted ≡ None) }
    {
        for stmt in statements {
            self.in_statement(stmt)?;
        }
        Ok(())
    }

    #[tactic(auto, using(crate::proofs::Searching::searches, crate::proofs::StatementForms::stmt_forms))]
    #[cycle(statement_roots)]
    fn in_optional(&mut self, stmt: &Option<Box<TypedStmt>>) -> Result<(), NoMemory>
        ensures ok { OnOk result (self.new ≡ searched self.old (statement.in_optional stmt.now)) }
        ensures memory { OnErr result (self.old.wanted ≡ None) }
    {
        match stmt {
            Some(stmt) => self.in_statement(stmt),
            None => Ok(()),
        }
    }

    #[tactic(auto, using(crate::proofs::Searching::searches, crate::proofs::StatementForms::stmt_forms))]
    #[cycle(statement_roots)]
    fn in_statement(&mut self, stmt: &TypedStmt) -> Result<(), NoMemory>
        ensures ok { OnOk result (self.new ≡ searched self.old (statement.roots_in_stmt stmt.now)) }
        ensures memory { OnErr result (self.old.wanted ≡ None) }
    {
        match stmt {
            TypedStmt::Const { .. }
            | TypedStmt::TypeDecl { .. }
            | TypedStmt::Break { .. }
            | TypedStmt::Continue { .. }
            | TypedStmt::Fallthrough { .. } => Ok(()),
            TypedStmt::Var { values, .. } | TypedStmt::Return { values, .. } => {
                self.in_optional_values(values)
            }
            TypedStmt::Labeled { stmt, .. } => self.in_optional(stmt),
            TypedStmt::Expr { expr, .. } => self.in_expr(expr),
            TypedStmt::Send { channel, value, .. } => {
                self.in_expr(channel)?;
                self.in_expr(value)
            }
            TypedStmt::Step { target, one, .. } => {
                self.in_assigned(target)?;
                self.in_expr(one)
            }
            TypedStmt::Assign {
                targets,
                values,
                ..
            } => {
                self.in_targets(targets)?;
                self.in_values(values)
            }
            TypedStmt::AssignOp { target, value, .. } => {
                self.in_assigned(target)?;
                self.in_expr(value)
            }
            TypedStmt::Define { values, .. } => self.in_values(values),
            TypedStmt::Go { call, .. } | TypedStmt::Defer { call, .. } => self.in_expr(call),
            TypedStmt::Block(block) => self.in_block(block),
            TypedStmt::If {
                arms,
                otherwise,
                ..
            } => {
                self.in_arms(arms)?;
                match otherwise {
                    Some(block) => self.in_block(block),
                    None => Ok(()),
                }
            }
            TypedStmt::Switch {
                init,
                tag,
                clauses,
                ..
            } => {
                self.in_optional(init)?;
                self.in_optional_expr(tag)?;
                self.in_clauses(clauses)
            }
            TypedStmt::TypeSwitch {
                init,
                operand,
                clauses,
                ..
            } => {
                self.in_optional(init)?;
                self.in_expr(operand)?;
                self.in_type_clauses(clauses)
            }
            TypedStmt::Select { clauses, .. } => self.in_select(clauses),
            TypedStmt::For {
                init,
                condition,
                post,
                body,
                ..
            } => {
                self.in_optional(init)?;
                self.in_optional_expr(condition)?;
                self.in_optional(post)?;
                self.in_block(body)
            }
            TypedStmt::Range {
                operand,
                targets,
                body,
                ..
            } => {
                self.in_expr(operand)?;
                self.in_range_targets(targets)?;
                self.in_block(body)
            }
        }
    }

    #[tactic(auto, using(crate::proofs::Searching::searches, crate::proofs::StatementForms::stmt_forms))]
    #[cycle(statement_roots)]
    fn in_arms(&mut self, arms: &[TypedArm]) -> Result<(), NoMemory>
        ensures ok { OnOk result (self.new ≡ searched self.old (flat_map statement.roots_in_arm arms.now)) }
        ensures memory { OnErr result (self.old.wanted ≡ None) }
    {
        for arm in arms {
            self.in_optional(&arm.init)?;
            self.in_expr(&arm.condition)?;
            self.in_block(&arm.body)?;
        }
        Ok(())
    }

    #[tactic(auto, using(crate::proofs::Searching::searches, crate::proofs::StatementForms::stmt_forms))]
    #[cycle(statement_roots)]
    fn in_clauses(&mut self, clauses: &[TypedClause]) -> Result<(), NoMemory>
        ensures ok { OnOk result (self.new ≡ searched self.old (flat_map statement.roots_in_clause clauses.now)) }
        ensures memory { OnErr result (self.old.wanted ≡ None) }
    {
        for clause in clauses {
            self.in_cases(&clause.cases)?;
            self.in_block(&clause.body)?;
        }
        Ok(())
    }

    #[tactic(auto, using(crate::proofs::Searching::searches, crate::proofs::StatementForms::stmt_forms))]
    #[cycle(statement_roots)]
    fn in_type_clauses(&mut self, clauses: &[TypeClause]) -> Result<(), NoMemory>
        ensures ok { OnOk result (self.new ≡ searched self.old (flat_map statement.roots_in_type_clause clauses.now)) }
        ensures memory { OnErr result (self.old.wanted ≡ None) }
    {
        for clause in clauses {
            self.in_block(&clause.body)?;
        }
        Ok(())
    }

    #[tactic(auto, using(crate::proofs::Searching::searches, crate::proofs::StatementForms::stmt_forms))]
    #[cycle(statement_roots)]
    fn in_select(&mut self, clauses: &[SelectClause]) -> Result<(), NoMemory>
        ensures ok { OnOk result (self.new ≡ searched self.old (flat_map statement.roots_in_select_clause clauses.now)) }
        ensures memory { OnErr result (self.old.wanted ≡ None) }
    {
        for clause in clauses {
            self.in_comm(&clause.comm)?;
            self.in_block(&clause.body)?;
        }
        Ok(())
    }

    #[tactic(auto, using(crate::proofs::Searching::searches))]
    fn in_cases(&mut self, cases: &[TypedCase]) -> Result<(), NoMemory>
        ensures ok { OnOk result (self.new ≡ searched self.old (statement.in_cases cases.now)) }
        ensures memory { OnErr result (self.old.wanted ≡ None) }
    {
        for case in cases {
            self.in_expr(&case.value)?;
        }
        Ok(())
    }

    #[tactic(auto, using(crate::proofs::Searching::searches))]
    fn in_comm(&mut self, comm: &Comm) -> Result<(), NoMemory>
        ensures ok { OnOk result (self.new ≡ searched self.old (statement.in_comm comm.now)) }
        ensures memory { OnErr result (self.old.wanted ≡ None) }
    {
        match comm {
            Comm::Default => Ok(()),
            Comm::Send { channel, value } => {
                self.in_expr(channel)?;
                self.in_expr(value)
            }
            Comm::Receive { channel, into } => {
                self.in_expr(channel)?;
                self.in_received(into)
            }
        }
    }

    #[tactic(auto, using(crate::proofs::Searching::searches))]
    fn in_received(&mut self, into: &ReceiveInto) -> Result<(), NoMemory>
        ensures ok { OnOk result (self.new ≡ searched self.old (statement.in_received into.now)) }
        ensures memory { OnErr result (self.old.wanted ≡ None) }
    {
        match into {
            ReceiveInto::Nothing | ReceiveInto::Define { .. } => Ok(()),
            ReceiveInto::Assign { targets, parts } => {
                self.in_targets(targets)?;
                self.in_list(parts)
            }
        }
    }

    #[tactic(auto, using(crate::proofs::Searching::searches))]
    fn in_range_targets(&mut self, targets: &RangeTargets) -> Result<(), NoMemory>
        ensures ok { OnOk result (self.new ≡ searched self.old (statement.in_range_targets targets.now)) }
        ensures memory { OnErr result (self.old.wanted ≡ None) }
    {
        match targets {
            RangeTargets::None | RangeTargets::Define { .. } => Ok(()),
            RangeTargets::Assign { key, value, parts } => {
                self.in_optional_target(key)?;
                self.in_optional_target(value)?;
                self.in_list(parts)
            }
        }
    }

    #[tactic(auto, using(crate::proofs::Searching::searches))]
    fn in_optional_target(&mut self, target: &Option<Target>) -> Result<(), NoMemory>
        ensures ok { OnOk result (self.new ≡ searched self.old (statement.in_some statement.in_target target.now)) }
        ensures memory { OnErr result (self.old.wanted ≡ None) }
    {
        match target {
            Some(target) => self.in_target(target),
            None => Ok(()),
        }
    }

    #[tactic(auto, using(crate::proofs::Searching::searches))]
    fn in_targets(&mut self, targets: &[Target]) -> Result<(), NoMemory>
        ensures ok { OnOk result (self.new ≡ searched self.old (statement.in_targets targets.now)) }
        ensures memory { OnErr result (self.old.wanted ≡ None) }
    {
        for target in targets {
            self.in_target(target)?;
        }
        Ok(())
    }

    #[tactic(auto, using(crate::proofs::Searching::searches))]
    fn in_target(&mut self, target: &Target) -> Result<(), NoMemory>
        ensures ok { OnOk result (self.new ≡ searched self.old (statement.in_target target.now)) }
        ensures memory { OnErr result (self.old.wanted ≡ None) }
    {
        match target {
            Target::Blank => Ok(()),
            Target::Place(place) => self.in_assigned(place),
        }
    }

    /// What is assigned to: where it is a part of a variable, that is met.
    #[tactic(auto, using(crate::proofs::Searching::searches))]
    fn in_assigned(&mut self, place: &TypedExpr) -> Result<(), NoMemory>
        ensures ok { OnOk result (self.new ≡ searched self.old (statement.assigned place.now)) }
        ensures memory { OnErr result (self.old.wanted ≡ None) }
    {
        self.meet(part_root(place))?;
        self.in_expr(place)
    }

    #[tactic(auto, using(crate::proofs::Searching::searches))]
    fn in_optional_values(&mut self, values: &Option<Values>) -> Result<(), NoMemory>
        ensures ok { OnOk result (self.new ≡ searched self.old (statement.in_some taken_values values.now)) }
        ensures memory { OnErr result (self.old.wanted ≡ None) }
    {
        match values {
            Some(values) => self.in_values(values),
            None => Ok(()),
        }
    }

    #[tactic(auto, using(crate::proofs::Searching::searches))]
    fn in_optional_expr(&mut self, expr: &Option<TypedExpr>) -> Result<(), NoMemory>
        ensures ok { OnOk result (self.new ≡ searched self.old (statement.in_some taken expr.now)) }
        ensures memory { OnErr result (self.old.wanted ≡ None) }
    {
        match expr {
            Some(expr) => self.in_expr(expr),
            None => Ok(()),
        }
    }
}
