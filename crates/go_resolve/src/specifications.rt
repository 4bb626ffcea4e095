//! The specifications of packages, read into nodes: constants, types, variables, functions and methods. Go
//! specification, "Constant declarations", "Type declarations", "Variable declarations", "Function declarations",
//! "Method declarations".

use crate::reading::Reader;
use decl_nodes::{Form, Item, Kind, Listed, MethodNode, Spot, package_of};
use go_base::{NameId, NoMemory, Rule};
use go_places::{expr_start, type_start};
use go_syntax::{FuncDecl, ListedExpr, ListedName, Param, TypeExpr};

/// The nodes that were made of an item, as far as they are asked for later.
#[derive(Clone, Copy)]
pub struct Made {
    /// The written type of variables, or the signature of a function or a method.
    pub form: Option<usize>,
    /// The type of a method's receiver.
    pub receiver: Option<usize>,
}

impl Reader {
    /// Reads all that is declared, and gives for each item what was made of it.
    pub fn read_items(&mut self, items: &[Item<'_>]) -> Result<Vec<Made>, NoMemory> {
        let mut made = Vec::new(self.tables.alloc);
        self.blame_names()?;
        for item in items {
            let nodes = self.read_item(item)?;
            made.push(nodes)?;
        }
        Ok(made)
    }

    /// The rules of the names that are declared at package level.
    fn blame_names(&mut self) -> Result<(), NoMemory> {
        for node in 0..self.tables.declarations.len() {
            let Some(declaration) = self.tables.declarations.as_slice().get(node).copied() else {
                return Ok(());
            };
            let spot = Spot {
                package: declaration.package,
                file: declaration.at.file,
                repeated: None,
                iota: None,
                owner: None,
            };
            let offset = declaration.at.offset;
            if declaration.is_again {
                self.tables
                    .blame(node, spot, offset, Rule::RedeclaredInThisBlock)?;
            }
            if declaration.is_bad {
                self.tables.blame(node, spot, offset, Rule::BadInitOrMain)?;
            }
        }
        Ok(())
    }

    fn read_item(&mut self, item: &Item<'_>) -> Result<Made, NoMemory> {
        let listed = item.listed;
        match item.form {
            Form::Constants { .. } => {
                self.read_constants_of(item)?;
                Ok(Made {
                    form: None,
                    receiver: None,
                })
            }
            Form::TypeForm { node, form } => self.read_defined(listed, node, form),
            Form::Variables { first, names, form } => {
                self.read_variables(listed, first, names, form)
            }
            Form::Function { node, decl } => self.read_function(listed, node, decl),
            Form::Method(decl) => self.read_method(listed, decl),
        }
    }

    fn read_defined(
        &mut self,
        listed: Listed<'_>,
        node: usize,
        form: &TypeExpr,
    ) -> Result<Made, NoMemory> {
        let mut spot = spot_in(listed);
        spot.owner = Some(node);
        let read = self.read_type(form, listed.source, spot)?;
        self.tables.nodes.stand(node, read)?;
        let kind = match self.tables.nodes.kind(node) {
            Some(Kind::Defined { of, .. }) => Kind::Defined {
                of: *of,
                form: read,
            },
            _ => Kind::Alias { form: read },
        };
        self.tables.nodes.set(node, kind);
        Ok(Made {
            form: Some(read),
            receiver: None,
        })
    }

    fn read_variables(
        &mut self,
        listed: Listed<'_>,
        first: usize,
        names: &[ListedName],
        form: Option<&TypeExpr>,
    ) -> Result<Made, NoMemory> {
        let form = self.read_written(listed, spot_in(listed), form)?;
        if let Some(form) = form {
            for (index, _) in names.iter().enumerate() {
                self.tables.nodes.stand(first.saturating_add(index), form)?;
            }
        }
        Ok(Made {
            form,
            receiver: None,
        })
    }

    /// The node of a type that may be left out.
    fn read_written(
        &mut self,
        listed: Listed<'_>,
        spot: Spot,
        form: Option<&TypeExpr>,
    ) -> Result<Option<usize>, NoMemory> {
        match form {
            Some(form) => {
                let node = self.read_type(form, listed.source, spot)?;
                Ok(Some(node))
            }
            None => Ok(None),
        }
    }

    fn read_function(
        &mut self,
        listed: Listed<'_>,
        node: usize,
        decl: &FuncDecl,
    ) -> Result<Made, NoMemory> {
        let spot = spot_in(listed);
        let signature = self.read_signature(&decl.signature, None, listed.source, spot)?;
        self.tables.nodes.stand(node, signature)?;
        self.ask_body(listed, decl, node)?;
        Ok(Made {
            form: Some(signature),
            receiver: None,
        })
    }

    /// A function has a body, outside of the built-in packages.
    fn ask_body(&mut self, listed: Listed<'_>, decl: &FuncDecl, on: usize) -> Result<(), NoMemory> {
        if decl.body.is_none() && !listed.built_in {
            let spot = spot_in(listed);
            let rule = Rule::FunctionWithoutBody;
            self.tables.make_bad(spot, decl.word.start, rule, Some(on))?;
        }
        Ok(())
    }

    fn read_method(&mut self, listed: Listed<'_>, decl: &FuncDecl) -> Result<Made, NoMemory> {
        let spot = spot_in(listed);
        let Some(param) = receiver_of(decl) else {
            return Err(crate::error::lost());
        };
        let form = self.read_type(&param.form, listed.source, spot)?;
        let start = type_start(&param.form);
        let receiver = self.tables.make(spot, start, Kind::Plain, &[form])?;
        let name = self.receiver_name(listed, param.names.as_slice())?;
        let signature = self.read_signature(&decl.signature, name, listed.source, spot)?;
        let node = self
            .tables
            .make(spot, decl.name.start, Kind::Plain, &[receiver])?;
        let package = package_of(listed.source.text(decl.name), spot.package);
        let name = self.tables.name(listed.source, decl.name)?;
        self.tables.methods.push(MethodNode {
            node,
            receiver,
            form,
            name,
            package,
        })?;
        let whole = self
            .tables
            .make(spot, decl.word.start, Kind::Plain, &[receiver, signature])?;
        self.ask_body(listed, decl, whole)?;
        Ok(Made {
            form: Some(signature),
            receiver: Some(form),
        })
    }

    fn receiver_name(
        &mut self,
        listed: Listed<'_>,
        names: &[ListedName],
    ) -> Result<Option<NameId>, NoMemory> {
        match names.first() {
            Some(name) => {
                let name = self.tables.name(listed.source, name.name)?;
                Ok(Some(name))
            }
            None => Ok(None),
        }
    }
}

/// The receiver of a method.
pub fn receiver_of(decl: &FuncDecl) -> Option<&Param> {
    match &decl.receiver {
        Some(params) => params.params.as_slice().first(),
        None => None,
    }
}

/// What stands in a file.
pub fn spot_in(listed: Listed<'_>) -> Spot {
    Spot {
        package: listed.package,
        file: listed.file,
        repeated: None,
        iota: None,
        owner: None,
    }
}

/// The constants of a specification.
#[derive(Clone, Copy)]
struct ConstantsOf<'a> {
    listed: Listed<'a>,
    first: usize,
    names: &'a [ListedName],
    values: &'a [ListedExpr],
    form: Option<&'a TypeExpr>,
    iota: i128,
}

impl Reader {
    fn read_constants_of(&mut self, item: &Item<'_>) -> Result<(), NoMemory> {
        let Form::Constants {
            first,
            names,
            values,
            form,
            repeated,
            iota,
        } = item.form
        else {
            return Ok(());
        };
        let constants = ConstantsOf {
            listed: item.listed,
            first,
            names,
            values,
            form,
            iota,
        };
        self.start_constants(constants)?;
        if values.is_empty() {
            self.blame_spec(constants)
        } else if repeated {
            self.repeat_constants(constants)
        } else {
            self.read_spec(constants)
        }
    }

    /// Without a value.
    fn start_constants(&mut self, constants: ConstantsOf<'_>) -> Result<(), NoMemory> {
        for (index, _) in constants.names.iter().enumerate() {
            let node = constants.first.saturating_add(index);
            self.tables.nodes.set(node, Kind::Constant { init: None });
        }
        Ok(())
    }

    /// There are no values, and none to repeat.
    fn blame_spec(&mut self, constants: ConstantsOf<'_>) -> Result<(), NoMemory> {
        if let Some(name) = constants.names.first() {
            let spot = spot_in(constants.listed);
            self.tables
                .make_bad(spot, name.name.start, Rule::NotAConstant, None)?;
        }
        Ok(())
    }

    /// A specification with values.
    fn read_spec(&mut self, constants: ConstantsOf<'_>) -> Result<(), NoMemory> {
        let mut spot = spot_in(constants.listed);
        spot.iota = Some(constants.iota);
        let form = self.read_written(constants.listed, spot, constants.form)?;
        let mut nodes = Vec::new(self.tables.alloc);
        for (index, listed) in constants.values.iter().enumerate() {
            let value = self.read_constant(&listed.expr, constants.listed.source, spot)?;
            nodes.push(value)?;
            if index < constants.names.len() {
                let node = constants.first.saturating_add(index);
                self.assign(node, spot, expr_start(&listed.expr), value, form)?;
            }
        }
        if constants.values.len() != constants.names.len() {
            if let Some(first) = constants.values.first() {
                self.blame_count(spot, expr_start(&first.expr), nodes.as_slice())?;
            }
        }
        Ok(())
    }

    /// A specification that repeats values, for each name anew.
    fn repeat_constants(&mut self, constants: ConstantsOf<'_>) -> Result<(), NoMemory> {
        let mut spot = spot_in(constants.listed);
        spot.iota = Some(constants.iota);
        let mut nodes = Vec::new(self.tables.alloc);
        for (index, name) in constants.names.iter().enumerate() {
            if let Some(listed) = constants.values.get(index) {
                spot.repeated = Some(name.name.start);
                let form = self.read_written(constants.listed, spot, constants.form)?;
                let value = self.read_constant(&listed.expr, constants.listed.source, spot)?;
                nodes.push(value)?;
                let node = constants.first.saturating_add(index);
                self.assign(node, spot, name.name.start, value, form)?;
            }
        }
        if constants.values.len() != constants.names.len() {
            if let Some(first) = constants.names.first() {
                spot.repeated = None;
                self.blame_count(spot, first.name.start, nodes.as_slice())?;
            }
        }
        Ok(())
    }

    /// A constant is assigned a value.
    fn assign(
        &mut self,
        node: usize,
        spot: Spot,
        start: u32,
        value: usize,
        form: Option<usize>,
    ) -> Result<(), NoMemory> {
        let init = self
            .tables
            .make(spot, start, Kind::Init { value, form }, &[value])?;
        if let Some(form) = form {
            self.tables.nodes.stand(init, form)?;
        }
        self.tables
            .nodes
            .set(node, Kind::Constant { init: Some(init) });
        self.tables.nodes.stand(node, init)
    }

    /// There are more or fewer values than names.
    fn blame_count(&mut self, spot: Spot, start: u32, values: &[usize]) -> Result<(), NoMemory> {
        let count = self
            .tables
            .make_bad(spot, start, Rule::WrongNumberOfValues, None)?;
        self.tables.nodes.stand_all(count, values)
    }
}
