//! The variables whose address, or that of a part, is taken in an expression.

ghost use Rattle.std.specs.Prelude.{◌≡◌, flat_map, Some, None, [], false, OnOk, OnErr};
ghost use Rattle.tree_facts.specs.Roots as root;
ghost use Rattle.tree_facts.specs.Search.{searched};

use crate::places::root_of;
use go_base::{NoMemory, VarId};
use go_tree::{Callee, Elements, EntryInit, ExprKind, FieldInit, ItemInit, TypedExpr, Values};
use std::alloc::Global;
use std::marker::Model;

/// Variables that are looked for: all of them, or one.
#[derive(Drop)]
pub struct Roots {
    /// The one that is looked for; None where all are.
    wanted: Option<VarId>,
    /// Whether it was met.
    pub is_met: bool,
    /// Those that were met, where all are looked for.
    pub met: Vec<VarId>,
}

impl Model for Roots {
    ghost use Rattle.tree_facts.specs.Search.{Search};

    ghost Value = { Search };

    ghost view = { λ r. record { wanted = r.wanted; is_met = r.is_met; met = r.met.items } };
}

impl Roots {
    /// All are looked for.
    pub fn all(alloc: Global) -> Roots
        ensures { result ≡ record { wanted = None; is_met = false; met = [] } }
    {
        Roots {
            wanted: None,
            is_met: false,
            met: Vec::new(alloc),
        }
    }

    /// One is looked for. No memory is taken, so no call fails.
    pub fn one(alloc: Global, wanted: VarId) -> Roots
        ensures { result ≡ record { wanted = Some wanted; is_met = false; met = [] } }
    {
        Roots {
            wanted: Some(wanted),
            is_met: false,
            met: Vec::new(alloc),
        }
    }

    /// A variable is met, if there is one.
    #[tactic(auto, using(crate::proofs::Searching::searched_none), unfolding(crate::specs::Search::searched, crate::specs::Roots::listed))]
    pub fn meet(&mut self, variable: Option<VarId>) -> Result<(), NoMemory>
        ensures ok { OnOk result (self.new ≡ searched self.old (root.listed variable)) }
        ensures memory { OnErr result (self.old.wanted ≡ None) }
    {
        let Some(variable) = variable else {
            return Ok(());
        };
        match self.wanted {
            Some(wanted) => {
                if wanted.number == variable.number {
                    self.is_met = true;
                }
            }
            None => self.met.push(variable)?,
        }
        Ok(())
    }

    /// Those of an expression.
    #[cycle(roots)]
    #[tactic(auto, using(crate::proofs::Searching::searches, crate::proofs::Forms::expr_is, crate::proofs::Forms::kind_forms))]
    pub fn in_expr(&mut self, expr: &TypedExpr) -> Result<(), NoMemory>
        ensures ok { OnOk result (self.new ≡ searched self.old (root.taken expr.now)) }
        ensures memory { OnErr result (self.old.wanted ≡ None) }
    {
        match &expr.kind {
            ExprKind::ConstOf(_)
            | ExprKind::NilOf
            | ExprKind::VarOf(_)
            | ExprKind::FunctionOf(_)
            | ExprKind::LiteralOf(_)
            | ExprKind::MethodExpr { .. }
            | ExprKind::PartOf(_) => Ok(()),
            ExprKind::AddressOf(operand) => {
                self.meet(root_of(operand))?;
                self.in_expr(operand)
            }
            ExprKind::MethodValue { receiver, .. } => self.in_expr(receiver),
            ExprKind::FieldOf { operand, .. }
            | ExprKind::UnaryOf { operand, .. }
            | ExprKind::AssertTo { operand, .. } => self.in_expr(operand),
            ExprKind::Deref(operand)
            | ExprKind::ConvertTo(operand)
            | ExprKind::ToInterface(operand) => self.in_expr(operand),
            ExprKind::Receive { channel, .. } => self.in_expr(channel),
            ExprKind::IndexOf { operand, index, .. } => {
                self.in_expr(operand)?;
                self.in_expr(index)
            }
            ExprKind::MapIndex { map, key, .. } => {
                self.in_expr(map)?;
                self.in_expr(key)
            }
            ExprKind::SliceOf {
                operand,
                low,
                high,
                max,
                ..
            } => {
                self.in_expr(operand)?;
                self.in_option(low)?;
                self.in_option(high)?;
                self.in_option(max)
            }
            ExprKind::BinaryOf { left, right, .. }
            | ExprKind::CompareOf { left, right, .. }
            | ExprKind::AndAlso { left, right }
            | ExprKind::OrElse { left, right } => {
                self.in_expr(left)?;
                self.in_expr(right)
            }
            ExprKind::CallOf { callee, arguments } => {
                self.in_callee(callee)?;
                self.in_values(arguments)
            }
            ExprKind::BuiltinOf { arguments, .. } => self.in_list(arguments),
            ExprKind::CompositeOf(elements) => self.in_elements(elements),
        }
    }

    #[cycle(roots)]
    #[tactic(auto, using(crate::proofs::Searching::searches, crate::proofs::Forms::list_forms, crate::proofs::Forms::field_is, crate::proofs::Forms::item_is, crate::proofs::Forms::entry_is))]
    fn in_option(&mut self, expr: &Option<Box<TypedExpr>>) -> Result<(), NoMemory>
        ensures ok { OnOk result (self.new ≡ searched self.old (root.taken_in_some expr.now)) }
        ensures memory { OnErr result (self.old.wanted ≡ None) }
    {
        match expr {
            Some(expr) => self.in_expr(expr),
            None => Ok(()),
        }
    }

    /// Those of a list of expressions.
    #[cycle(roots)]
    #[tactic(auto, using(crate::proofs::Searching::searches, crate::proofs::Forms::list_forms, crate::proofs::Forms::field_is, crate::proofs::Forms::item_is, crate::proofs::Forms::entry_is))]
    pub fn in_list(&mut self, exprs: &[TypedExpr]) -> Result<(), NoMemory>
        ensures ok { OnOk result (self.new ≡ searched self.old (root.taken_each exprs.now)) }
        ensures memory { OnErr result (self.old.wanted ≡ None) }
    {
        for expr in exprs {
            self.in_expr(expr)?;
        }
        Ok(())
    }

    #[cycle(roots)]
    #[tactic(auto, using(crate::proofs::Searching::searches, crate::proofs::Forms::list_forms, crate::proofs::Forms::field_is, crate::proofs::Forms::item_is, crate::proofs::Forms::entry_is))]
    fn in_callee(&mut self, callee: &Callee) -> Result<(), NoMemory>
        ensures ok { OnOk result (self.new ≡ searched self.old (root.taken_callee callee.now)) }
        ensures memory { OnErr result (self.old.wanted ≡ None) }
    {
        match callee {
            Callee::Function(_) | Callee::Literal(_) => Ok(()),
            Callee::Method { receiver, .. } | Callee::Interface { receiver, .. } => {
                self.in_expr(receiver)
            }
            Callee::Value(value) => self.in_expr(value),
        }
    }

    /// Those of the values of a list.
    #[cycle(roots)]
    #[tactic(auto, using(crate::proofs::Searching::searches, crate::proofs::Forms::list_forms, crate::proofs::Forms::field_is, crate::proofs::Forms::item_is, crate::proofs::Forms::entry_is))]
    pub fn in_values(&mut self, values: &Values) -> Result<(), NoMemory>
        ensures ok { OnOk result (self.new ≡ searched self.old (root.taken_values values.now)) }
        ensures memory { OnErr result (self.old.wanted ≡ None) }
    {
        match values {
            Values::Each(exprs) => self.in_list(exprs),
            Values::Spread { tuple, parts } => {
                self.in_expr(tuple)?;
                self.in_list(parts)
            }
        }
    }

    #[cycle(roots)]
    #[tactic(auto, using(crate::proofs::Searching::searches, crate::proofs::Forms::list_forms, crate::proofs::Forms::field_is, crate::proofs::Forms::item_is, crate::proofs::Forms::entry_is))]
    fn in_elements(&mut self, elements: &Elements) -> Result<(), NoMemory>
        ensures ok { OnOk result (self.new ≡ searched self.old (root.taken_elements elements.now)) }
        ensures memory { OnErr result (self.old.wanted ≡ None) }
    {
        match elements {
            Elements::Fields(fields) => self.in_fields(fields),
            Elements::Items { items, .. } => self.in_items(items),
            Elements::Entries(entries) => self.in_entries(entries),
        }
    }

    #[cycle(roots)]
    #[tactic(auto, using(crate::proofs::Searching::searches, crate::proofs::Forms::list_forms, crate::proofs::Forms::field_is, crate::proofs::Forms::item_is, crate::proofs::Forms::entry_is))]
    fn in_fields(&mut self, fields: &[FieldInit]) -> Result<(), NoMemory>
        ensures ok { OnOk result (self.new ≡ searched self.old (flat_map root.taken_field fields.now)) }
        ensures memory { OnErr result (self.old.wanted ≡ None) }
    {
        for field in fields {
            self.in_expr(&field.value)?;
        }
        Ok(())
    }

    #[cycle(roots)]
    #[tactic(auto, using(crate::proofs::Searching::searches, crate::proofs::Forms::list_forms, crate::proofs::Forms::field_is, crate::proofs::Forms::item_is, crate::proofs::Forms::entry_is))]
    fn in_items(&mut self, items: &[ItemInit]) -> Result<(), NoMemory>
        ensures ok { OnOk result (self.new ≡ searched self.old (flat_map root.taken_item items.now)) }
        ensures memory { OnErr result (self.old.wanted ≡ None) }
    {
        for item in items {
            self.in_expr(&item.value)?;
        }
        Ok(())
    }

    #[cycle(roots)]
    #[tactic(auto, using(crate::proofs::Searching::searches, crate::proofs::Forms::list_forms, crate::proofs::Forms::field_is, crate::proofs::Forms::item_is, crate::proofs::Forms::entry_is))]
    fn in_entries(&mut self, entries: &[EntryInit]) -> Result<(), NoMemory>
        ensures ok { OnOk result (self.new ≡ searched self.old (flat_map root.taken_entry entries.now)) }
        ensures memory { OnErr result (self.old.wanted ≡ None) }
    {
        for entry in entries {
            self.in_expr(&entry.key)?;
            self.in_expr(&entry.value)?;
        }
        Ok(())
    }
}
