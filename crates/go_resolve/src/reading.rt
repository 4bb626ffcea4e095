//! Types as they are written, read into nodes. Go specification, "Types".

use decl_nodes::{
    ElementNode, FieldNode, Found, Imported, InNode, Kind, SignatureNode, Sort, Spot, Tables, Tie,
    TypeFact, exported, package_of,
};
use go_ast::Token;
use go_base::{Bytes, NameId, NoMemory, Rule};
use go_names::Entity;
use go_places::type_start;
use go_sources::SourceFile;
use go_syntax::{
    ElementLine, FieldLine, ListedName, NamedType, Param, Params, ResultForm, Signature, TypeExpr,
};
use go_type::Dir;

/// Reads the types and the constants of declarations.
#[derive(Drop)]
pub struct Reader {
    pub tables: Tables,
    /// What is known of the names of types.
    pub facts: Vec<TypeFact>,
}

impl Reader {
    /// The node of a type.
    #[cycle(types)]
    pub fn read_type(
        &mut self,
        form: &TypeExpr,
        source: &SourceFile,
        spot: Spot,
    ) -> Result<usize, NoMemory> {
        let start = type_start(form);
        match form {
            TypeExpr::Name(name) => self.read_name(*name, source, spot, false),
            TypeExpr::Paren { inner, .. } => {
                let inner = self.read_type(inner, source, spot)?;
                self.tables.make(spot, start, Kind::Paren(inner), &[inner])
            }
            TypeExpr::Pointer { base, .. } => {
                let base = self.read_type(base, source, spot)?;
                self.tables.make(spot, start, Kind::Pointer(base), &[base])
            }
            TypeExpr::Slice { element, .. } => {
                let element = self.read_type(element, source, spot)?;
                self.tables
                    .make(spot, start, Kind::Slice(element), &[element])
            }
            TypeExpr::Array {
                length,
                element,
                ..
            } => {
                let length = self.read_constant(length, source, spot)?;
                let element = self.read_type(element, source, spot)?;
                let kind = Kind::Array { length, element };
                self.tables.make(spot, start, kind, &[length, element])
            }
            TypeExpr::OpenArray { element, .. } => {
                let element = self.read_type(element, source, spot)?;
                self.tables.make(spot, start, Kind::Plain, &[element])
            }
            TypeExpr::Map { key, element, .. } => {
                let key = self.read_type(key, source, spot)?;
                let element = self.read_type(element, source, spot)?;
                let kind = Kind::Map { key, element };
                self.tables.make(spot, start, kind, &[key, element])
            }
            TypeExpr::Chan { arrow, element, .. } => {
                let element = self.read_type(element, source, spot)?;
                let kind = Kind::Chan {
                    dir: direction(*arrow),
                    element,
                };
                self.tables.make(spot, start, kind, &[element])
            }
            TypeExpr::ReceiveChan { element, .. } => {
                let element = self.read_type(element, source, spot)?;
                let kind = Kind::Chan {
                    dir: Dir::Receive,
                    element,
                };
                self.tables.make(spot, start, kind, &[element])
            }
            TypeExpr::Function { signature, .. } => {
                let signature = self.read_signature(signature, None, source, spot)?;
                self.tables
                    .make(spot, start, Kind::Function(signature), &[signature])
            }
            TypeExpr::Struct { fields, .. } => {
                let node = self.tables.make(spot, start, Kind::Plain, &[])?;
                self.read_fields(fields.as_slice(), node, source, spot)
            }
            TypeExpr::Interface { elements, .. } => {
                let node = self.tables.make(spot, start, Kind::Plain, &[])?;
                self.read_elements(elements.as_slice(), node, source, spot)
            }
        }
    }

    /// Reads the fields of a struct.
    #[cycle(types)]
    fn read_fields(
        &mut self,
        lines: &[FieldLine],
        node: usize,
        source: &SourceFile,
        spot: Spot,
    ) -> Result<usize, NoMemory> {
        let mut fields = Vec::new(self.tables.alloc);
        for line in lines {
            match line {
                FieldLine::Empty(_) => {}
                FieldLine::Named {
                    names,
                    form,
                    tag,
                    ..
                } => {
                    let form = self.read_type(form, source, spot)?;
                    self.add_fields(
                        &mut fields,
                        names.as_slice(),
                        node,
                        form,
                        *tag,
                        source,
                        spot,
                    )?;
                }
                FieldLine::Embedded {
                    star,
                    name,
                    tag,
                    ..
                } => self.add_embedded(&mut fields, *star, *name, node, *tag, source, spot)?,
            }
        }
        self.tables.nodes.set(node, Kind::Struct(fields));
        Ok(node)
    }

    /// Reads the elements of an interface.
    #[cycle(types)]
    fn read_elements(
        &mut self,
        lines: &[ElementLine],
        node: usize,
        source: &SourceFile,
        spot: Spot,
    ) -> Result<usize, NoMemory> {
        let mut elements = Vec::new(self.tables.alloc);
        let mut embedded = None;
        for line in lines {
            match line {
                ElementLine::Empty(_) => {}
                ElementLine::Method {
                    name,
                    signature,
                    ..
                } => {
                    let signature = self.read_signature(signature, None, source, spot)?;
                    let element = self.add_method(*name, node, signature, embedded, source, spot)?;
                    elements.push(element)?;
                }
                ElementLine::Embedded { name, .. } => {
                    let element = self.add_interface(*name, node, embedded, source, spot)?;
                    if let ElementNode::Embedded { node, .. } = element {
                        embedded = Some(node);
                    }
                    elements.push(element)?;
                }
            }
        }
        self.tables.nodes.set(node, Kind::Interface(elements));
        Ok(node)
    }

    /// The node of a signature. The name of a receiver counts as the first of the parameters.
    #[cycle(types)]
    pub fn read_signature(
        &mut self,
        signature: &Signature,
        receiver: Option<NameId>,
        source: &SourceFile,
        spot: Spot,
    ) -> Result<usize, NoMemory> {
        let start = signature.params.open.start;
        let node = self.tables.make(spot, start, Kind::Plain, &[])?;
        if let Some(name) = receiver {
            self.add_parameter_name(node, name)?;
        }
        let params = self.read_params(&signature.params, node, source, spot)?;
        let results = match &signature.result {
            ResultForm::None => Vec::new(self.tables.alloc),
            ResultForm::Params(params) => self.read_params(params, node, source, spot)?,
            ResultForm::TypeForm(form) => {
                let form = self.read_type(form, source, spot)?;
                self.tables.nodes.stand(node, form)?;
                let mut results = Vec::new(self.tables.alloc);
                results.push(form)?;
                results
            }
        };
        let kind = Kind::Signature(SignatureNode {
            params,
            results,
            variadic: is_variadic(signature.params.params.as_slice()),
        });
        self.tables.nodes.set(node, kind);
        Ok(node)
    }

    /// The types of parameters or of results.
    #[cycle(types)]
    fn read_params(
        &mut self,
        params: &Params,
        node: usize,
        source: &SourceFile,
        spot: Spot,
    ) -> Result<Vec<usize>, NoMemory> {
        let mut forms = Vec::new(self.tables.alloc);
        for param in &params.params {
            let form = self.read_type(&param.form, source, spot)?;
            self.tables.nodes.stand(node, form)?;
            self.add_params(&mut forms, param.names.as_slice(), node, form, source, spot)?;
        }
        Ok(forms)
    }
}

fn direction(arrow: Option<Token>) -> Dir {
    match arrow {
        Some(_) => Dir::Send,
        None => Dir::Both,
    }
}

fn is_variadic(params: &[Param]) -> bool {
    match params.last() {
        Some(param) => param.ellipsis.is_some(),
        None => false,
    }
}

impl Reader {
    /// The name of a parameter, a result or a receiver. False where an earlier one has it.
    fn add_parameter_name(&mut self, node: usize, name: NameId) -> Result<bool, NoMemory> {
        if name == self.tables.known.blank {
            return Ok(true);
        }
        self.tables.add_part(InNode {
            node,
            name,
            package: 0,
        })
    }

    /// The parameters of one type: one for each name, or one without names.
    fn add_params(
        &mut self,
        forms: &mut Vec<usize>,
        names: &[ListedName],
        node: usize,
        form: usize,
        source: &SourceFile,
        spot: Spot,
    ) -> Result<(), NoMemory> {
        if names.is_empty() {
            forms.push(form)?;
        }
        for listed in names {
            let name = self.tables.name(source, listed.name)?;
            if !self.add_parameter_name(node, name)? {
                let rule = Rule::RedeclaredInThisBlock;
                self.tables.blame(node, spot, listed.name.start, rule)?;
            }
            forms.push(form)?;
        }
        Ok(())
    }

    /// The fields of one type.
    fn add_fields(
        &mut self,
        fields: &mut Vec<FieldNode>,
        names: &[ListedName],
        node: usize,
        form: usize,
        tag: Option<Token>,
        source: &SourceFile,
        spot: Spot,
    ) -> Result<(), NoMemory> {
        self.tables.nodes.stand(node, form)?;
        for listed in names {
            let package = package_of(source.text(listed.name), spot.package);
            let name = self.tables.name(source, listed.name)?;
            let part = InNode {
                node,
                name,
                package,
            };
            if name != self.tables.known.blank && !self.tables.add_part(part)? {
                let rule = Rule::DuplicateFieldOrMethod;
                self.tables.blame(node, spot, listed.name.start, rule)?;
            }
            self.push_field(fields, name, package, form, false, tag, source)?;
        }
        Ok(())
    }

    /// An embedded field.
    fn add_embedded(
        &mut self,
        fields: &mut Vec<FieldNode>,
        star: Option<Token>,
        name: NamedType,
        node: usize,
        tag: Option<Token>,
        source: &SourceFile,
        spot: Spot,
    ) -> Result<(), NoMemory> {
        let target = self.read_name(name, source, spot, false)?;
        let last = last_name(name);
        let start = match star {
            Some(star) => star.start,
            None => first_name(name).start,
        };
        let kind = Kind::Embedded {
            name: target,
            pointer: star.is_some(),
        };
        let embedded = self.tables.make(spot, start, kind, &[target])?;
        self.tables.nodes.stand(node, embedded)?;
        let package = package_of(source.text(last), spot.package);
        let name = self.tables.name(source, last)?;
        let part = InNode {
            node,
            name,
            package,
        };
        if name != self.tables.known.blank && !self.tables.add_part(part)? {
            let rule = Rule::DuplicateFieldOrMethod;
            self.tables.blame(embedded, spot, last.start, rule)?;
        }
        self.push_field(fields, name, package, embedded, true, tag, source)
    }

    fn push_field(
        &self,
        fields: &mut Vec<FieldNode>,
        name: NameId,
        package: u32,
        form: usize,
        embedded: bool,
        tag: Option<Token>,
        source: &SourceFile,
    ) -> Result<(), NoMemory> {
        let tag = self.read_tag(tag, source)?;
        fields.push(FieldNode {
            name,
            package,
            form,
            embedded,
            tag,
        })?;
        Ok(())
    }

    /// The value of a tag; empty without one.
    fn read_tag(&self, tag: Option<Token>, source: &SourceFile) -> Result<Bytes, NoMemory> {
        match tag {
            Some(tag) => crate::literals::text_value(self.tables.alloc, source.text(tag)),
            None => Ok(Bytes::new(Vec::new(self.tables.alloc))),
        }
    }

    /// A method of an interface.
    fn add_method(
        &mut self,
        token: Token,
        interface: usize,
        signature: usize,
        embedded: Option<usize>,
        source: &SourceFile,
        spot: Spot,
    ) -> Result<ElementNode, NoMemory> {
        let package = package_of(source.text(token), spot.package);
        let name = self.tables.name(source, token)?;
        let node = self
            .tables
            .make(spot, token.start, Kind::Plain, &[signature])?;
        if let Some(earlier) = embedded {
            self.tables.nodes.stand(node, earlier)?;
        }
        self.tables.nodes.stand(interface, node)?;
        let part = InNode {
            node: interface,
            name,
            package,
        };
        let is_new = self.tables.add_part(part)?;
        if name == self.tables.known.blank || !is_new {
            self.tables
                .blame(node, spot, token.start, Rule::DuplicateFieldOrMethod)?;
        }
        Ok(ElementNode::Own {
            node,
            name,
            package,
            signature,
        })
    }

    /// An interface that is embedded in another.
    fn add_interface(
        &mut self,
        name: NamedType,
        interface: usize,
        embedded: Option<usize>,
        source: &SourceFile,
        spot: Spot,
    ) -> Result<ElementNode, NoMemory> {
        let target = self.read_name(name, source, spot, true)?;
        let start = first_name(name).start;
        let node = self.tables.make(spot, start, Kind::Plain, &[target])?;
        if let Some(earlier) = embedded {
            self.tables.nodes.stand(node, earlier)?;
        }
        self.tables.nodes.stand(interface, node)?;
        Ok(ElementNode::Embedded { node, name: target })
    }

    /// The node of a name of a type.
    pub fn read_name(
        &mut self,
        name: NamedType,
        source: &SourceFile,
        spot: Spot,
        embedded: bool,
    ) -> Result<usize, NoMemory> {
        match name {
            NamedType::Local(token) => {
                let name = self.tables.name(source, token)?;
                if name == self.tables.known.blank {
                    let rule = Rule::WrongKindOfName;
                    return self.tables.make_bad(spot, token.start, rule, None);
                }
                let found = self.tables.find(spot, name);
                self.type_found(found, token.start, spot, embedded)
            }
            NamedType::Imported { package, name, .. } => {
                self.read_qualified(package, name, source, spot, embedded)
            }
        }
    }

    /// The node of a name without a package.
    fn type_found(
        &mut self,
        found: Found,
        start: u32,
        spot: Spot,
        embedded: bool,
    ) -> Result<usize, NoMemory> {
        match found {
            Found::Nothing => self.tables.make_bad(spot, start, Rule::Undefined, None),
            Found::Import(import) => {
                self.tables
                    .make_bad(spot, start, Rule::WrongKindOfName, import.node)
            }
            Found::Universe(Entity::TypeName(of)) => {
                self.tables.make(spot, start, Kind::Predeclared(of), &[])
            }
            Found::Universe(_) => {
                self.tables
                    .make_bad(spot, start, Rule::WrongKindOfName, None)
            }
            Found::Declared(target) => self.named(target, start, spot, embedded),
        }
    }

    /// The node of a name of what is declared.
    fn named(
        &mut self,
        target: usize,
        start: u32,
        spot: Spot,
        embedded: bool,
    ) -> Result<usize, NoMemory> {
        match self.tables.sort(target) {
            Some(Sort::Defined | Sort::Alias) => {
                if let Some(owner) = spot.owner {
                    self.tables.ties.push(Tie {
                        owner,
                        target,
                        embedded,
                    })?;
                }
                self.tables
                    .make(spot, start, Kind::Named(target), &[target])
            }
            _ => self
                .tables
                .make_bad(spot, start, Rule::WrongKindOfName, Some(target)),
        }
    }

    /// The node of a qualified name of a type.
    fn read_qualified(
        &mut self,
        package: Token,
        token: Token,
        source: &SourceFile,
        spot: Spot,
        embedded: bool,
    ) -> Result<usize, NoMemory> {
        let name = self.tables.name(source, package)?;
        if name == self.tables.known.blank {
            let rule = Rule::WrongKindOfName;
            return self.tables.make_bad(spot, package.start, rule, None);
        }
        match self.tables.find(spot, name) {
            Found::Import(import) => {
                self.tables.mention(spot, package.start, import)?;
                self.read_imported(import, package.start, token, source, spot, embedded)
            }
            Found::Nothing => self
                .tables
                .make_bad(spot, package.start, Rule::Undefined, None),
            Found::Declared(target) => {
                let rule = Rule::WrongKindOfName;
                self.tables
                    .make_bad(spot, package.start, rule, Some(target))
            }
            Found::Universe(_) => {
                self.tables
                    .make_bad(spot, package.start, Rule::WrongKindOfName, None)
            }
        }
    }

    fn read_imported(
        &mut self,
        import: Imported,
        start: u32,
        token: Token,
        source: &SourceFile,
        spot: Spot,
        embedded: bool,
    ) -> Result<usize, NoMemory> {
        let node = match exported(&mut self.tables, source, import.package, token)? {
            Found::Declared(target) => self.named(target, start, spot, embedded)?,
            _ => self
                .tables
                .make_bad(spot, token.start, Rule::Undefined, None)?,
        };
        if let Some(on) = import.node {
            self.tables.nodes.stand(node, on)?;
        }
        Ok(node)
    }
}

/// The name of a type, without its package.
fn last_name(name: NamedType) -> Token {
    match name {
        NamedType::Local(name) => name,
        NamedType::Imported { name, .. } => name,
    }
}

/// The first token of a name of a type.
fn first_name(name: NamedType) -> Token {
    match name {
        NamedType::Local(name) => name,
        NamedType::Imported { package, .. } => package,
    }
}
